// The largest graph of a program: a chain of 4,096 functions, and a table of 65,536 members that is called at 60,000
// sites.
ghost use Rattle.std.specs.Prelude.{◌≡◌, ◌+◌, ◌<◌, ◌≤◌, ◌^◌, ℕ, List, [], ◌∷◌, length, IfOk};
ghost use Rattle.std.specs.List.{AllByRecursion};
ghost use Rattle.call_graph.specs.Graph.{IsRising, IsSiteOf};

use call_graph::{CallGraph, Callees, GraphSite, Target};
use checkpoint_place::{PlaceError, Plan, place};
use cycle_break::back_edges;
use std::alloc::{AllocError, Global};

/// Returns a site: each function except the last calls the next one at the site of its number. At any other site the
/// first one calls the table.
fn site_of(last: u32, number: u32) -> GraphSite
    requires { last < 2 ^ 16 }
    ensures number { result.number ≡ number }
    ensures sound { (members : List ℕ) → 0 < length members → AllByRecursion (λ f. f < last + 1) members → IsSiteOf (last + 1) (members ∷ []) result }
{
    if number < last {
        GraphSite {
            number,
            caller: number,
            target: Target::Function(number + 1),
        }
    } else {
        GraphSite {
            number,
            caller: 0,
            target: Target::Table(0),
        }
    }
}

fn sites_of(alloc: Global, last: u32, count: u32) -> Result<Vec<GraphSite>, AllocError>
    requires { last < 2 ^ 16 }
    ensures sound { IfOk result (λ sites. (members : List ℕ) → 0 < length members → AllByRecursion (λ f. f < last + 1) members → AllByRecursion (IsSiteOf (last + 1) (members ∷ [])) sites.items) }
    ensures rising { IfOk result (λ sites. IsRising sites.items) }
{
    let mut sites = Vec::new(alloc);
    for number in 0..count {
        sites.push(site_of(last, number))?;
    }
    Ok(sites)
}

/// Returns the graph of `last + 1` functions of 16 bytes, and a table that has the last one `members` times.
fn graph_of(alloc: Global, last: u32, members: u32, sites: u32) -> Result<CallGraph, AllocError>
    requires last { last < 2 ^ 16 }
    requires members { 0 < members }
{
    let weights = vec![in alloc; 16; last as usize + 1]?;
    let table = Callees::new(vec![in alloc; last; members as usize]?);
    let sites = sites_of(alloc, last, sites)?;
    Ok(CallGraph::new(weights, vec![in alloc; table]?, sites, 0))
}

/// Checks whether a plan has no checkpoint, the first function's bound is the whole chain and the last one's its frame.
fn is_whole_chain(plan: Result<Plan, PlaceError>) -> bool {
    match plan {
        Ok(plan) => {
            let bounds = plan.bounds.as_slice();
            let right = plan.checkpointed.is_empty()
                && bounds.first().copied() == Some(65_536)
                && bounds.last().copied() == Some(16);
            drop(plan);
            right
        }
        Err(_) => false,
    }
}

fn is_placed(alloc: Global, graph: &CallGraph) -> bool {
    match back_edges(alloc, graph) {
        Ok(back) => {
            let plan = place(alloc, graph, back.as_slice(), 65_536);
            let none = back.is_empty();
            drop(back);
            is_whole_chain(plan) && none
        }
        Err(_) => false,
    }
}

#[test]
fn a_large_table_is_called_at_many_sites(rt: HostRuntime) {
    let alloc = rt.alloc();
    let placed = match graph_of(alloc, 4_095, 65_536, 64_095) {
        Ok(graph) => {
            let placed = is_placed(alloc, &graph);
            drop(graph);
            placed
        }
        Err(_) => false,
    };
    assert!(rt; placed);
}
