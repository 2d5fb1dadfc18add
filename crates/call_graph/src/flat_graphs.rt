ghost use Rattle.std.specs.Prelude.{◌≡◌, length, IfOk};
ghost use Rattle.std.specs.List.Sorted.{IsPermutation};
ghost use Rattle.call_graph.specs.FlatCalls.{call_sites_from};
ghost use Rattle.call_graph.specs.Graph.{IsRising, IsUnsortedGraph};
ghost use Rattle.flat_code.specs.ProgramView.{program_code};

use crate::call_graphs::CallGraph;
use crate::callee_lists::Callees;
use crate::flat_calls::{copies_of, sites_of_functions};
use crate::sites::GraphSite;
use flat_code::FlatProgram;
use std::alloc::{AllocError, Global};

/// The call graph of these weights in bytes, by function, these tables, and this function that is started. Its
/// sites are these, in order of their numbers.
pub fn sorted_graph(
    weights: Vec<u32>,
    tables: Vec<Callees>,
    mut sites: Vec<GraphSite>,
    main: u32,
) -> Result<CallGraph, AllocError>
    requires { IsUnsortedGraph (record { weights = weights.items; tables = tables.items; sites = sites.items; main = main }) }
    ensures weights { IfOk result (λ graph. graph.weights ≡ weights.items) }
    ensures tables { IfOk result (λ graph. graph.tables ≡ tables.items) }
    ensures main { IfOk result (λ graph. graph.main ≡ main) }
    ensures sites { IfOk result (λ graph. IsPermutation sites.items graph.sites) }
    ensures rising { IfOk result (λ graph. IsRising graph.sites) }
{
    sites.sort_by_key(|site| site.number)?;
    Ok(CallGraph::new(weights, tables, sites, main))
}

/// Returns the call graph of a flat program with these weights, one for each function. Each call of a function or a
/// table is a site, and a spawn isn't. The sites are in the order of their numbers.
///
/// # Errors
///
/// Memory ran out. More than 2^32 functions are reported the same way.
pub fn graph(alloc: Global, flat: &FlatProgram, weights: &[u32]) -> Result<CallGraph, AllocError>
    requires { length weights.now ≡ length (program_code flat.now).functions }
    ensures weights { IfOk result (λ graph. graph.weights ≡ weights.now) }
    ensures tables { IfOk result (λ graph. graph.tables ≡ (program_code flat.now).tables) }
    ensures main { IfOk result (λ graph. graph.main ≡ (program_code flat.now).main) }
    ensures sites { IfOk result (λ graph. IsPermutation (call_sites_from 0 (program_code flat.now).functions) graph.sites) }
    ensures rising { IfOk result (λ graph. IsRising graph.sites) }
{
    if weights.len() > 1 << 32 {
        return Err(AllocError);
    }
    let sites = sites_of_functions(alloc, flat.functions())?;
    let weights = Vec::from_slice(alloc, weights)?;
    let tables = copies_of(alloc, flat.tables())?;
    sorted_graph(weights, tables, sites, flat.main_number())
}
