// The call graph of a program, whose functions are lowered one after another.

ghost use Rattle.std.specs.Prelude.{◌≡◌, ◌<◌, ◌≤◌, ◌^◌, ◌++◌, ◌∷◌, [], IfOk, OnOk, length, map, sum};
ghost use Rattle.std.specs.List.{AllByRecursion, filter_map};
ghost use Rattle.c_tree.specs.ProgramView.{program_tree};
ghost use Rattle.c_tree.specs.Temporaries.{function_temporaries};
ghost use Rattle.c_tree.specs.Views.{function_tree, table_row};
ghost use Rattle.c_lower.specs.ProgramCode.{function_ops, function_sizes, lowered_function, lowered};
ghost use Rattle.flat_code.specs.Weight.{weight_of};
ghost use Rattle.call_graph.specs.FlatCalls.{call_site, call_sites_from};
ghost use Rattle.stack_plan.specs.Plans.{IsGraphOf};

use c_lower::lower_function;
use c_tree::{Function, Program, TableFact};
use call_graph::{CallGraph, Callees, GraphSite, push_sites, sorted_graph};
use flat_code::weight;
use std::alloc::{AllocError, Global};

// The bytes of the frames of the functions so far, and their call sites.
#[derive(Drop)]
struct Weighed {
    weights: Vec<u32>,
    sites: Vec<GraphSite>,
}

// One function more. Its flat code is freed.
fn weigh_function(
    alloc: Global,
    weighed: &mut Weighed,
    function: &Function,
) -> Result<(), AllocError>
    requires small { function_temporaries (function_tree function.now) ≤ 65536 }
    requires few { length (function_tree function.now).sizes ≤ 65536 }
    requires words { sum (function_sizes (function_tree function.now)) ≤ 2 ^ 20 }
    requires count { length weighed.old.weights.items < 2 ^ 32 }
    ensures weights { OnOk result (weighed.new.weights.items ≡ weighed.old.weights.items ++ weight_of (function_sizes (function_tree function.now)) ∷ []) }
    ensures sites { OnOk result (weighed.new.sites.items ≡ weighed.old.sites.items ++ filter_map (call_site (length weighed.old.weights.items)) (function_ops (function_tree function.now))) }
    ensures numbered { OnOk result (length (function_ops (function_tree function.now)) ≤ 2 ^ 32) }
{
    let flat = lower_function(alloc, function)?;
    let caller = weighed.weights.len() as u32;
    push_sites(flat.ops.as_slice(), caller, &mut weighed.sites)?;
    weighed.weights.push(weight(&flat))?;
    Ok(())
}

fn weigh(alloc: Global, functions: &[Function]) -> Result<Weighed, AllocError>
    requires small { AllByRecursion (λ f. function_temporaries f ≤ 65536) (map function_tree functions.now) }
    requires few { AllByRecursion (λ f. length f.sizes ≤ 65536) (map function_tree functions.now) }
    requires words { AllByRecursion (λ f. sum (function_sizes f) ≤ 2 ^ 20) (map function_tree functions.now) }
    requires count { length functions.now ≤ 2 ^ 32 }
    ensures weights { IfOk result (λ w. w.weights.items ≡ map (λ f. weight_of f.sizes) (map lowered_function (map function_tree functions.now))) }
    ensures sites { IfOk result (λ w. w.sites.items ≡ call_sites_from 0 (map lowered_function (map function_tree functions.now))) }
    ensures numbered { IfOk result (λ _. AllByRecursion (λ f. length f.ops ≤ 2 ^ 32) (map lowered_function (map function_tree functions.now))) }
{
    let mut weighed = Weighed {
        weights: Vec::new(alloc),
        sites: Vec::new(alloc),
    };
    for function in functions {
        weigh_function(alloc, &mut weighed, function)?;
    }
    Ok(weighed)
}

// The members of the tables.
fn members(alloc: Global, tables: &[TableFact]) -> Result<Vec<Callees>, AllocError>
    ensures { IfOk result (λ list. list.items ≡ map table_row tables.now) }
{
    let mut list = Vec::new(alloc);
    for table in tables {
        list.push(Callees::new(Vec::from_slice(alloc, &table.members)?))?;
    }
    Ok(list)
}

/// The call graph of a program, with the bytes of each function's frame. It holds the flat code of one function
/// at a time.
pub fn graph_of(alloc: Global, program: &Program) -> Result<CallGraph, AllocError>
    ensures { IfOk result (λ graph. IsGraphOf (lowered (program_tree program.now)) graph) }
{
    let weighed = weigh(alloc, program.functions())?;
    let tables = members(alloc, program.tables())?;
    let graph = sorted_graph(
        weighed.weights,
        tables,
        weighed.sites,
        program.main_number(),
    )?;
    Ok(graph)
}
