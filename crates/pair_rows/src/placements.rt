ghost use Rattle.std.specs.Prelude.{◌≡◌, ◌∷◌, [], IfOk};
ghost use Rattle.call_graph.specs.Graph.{IsCallGraph};

use crate::graph_sites::call;
use call_graph::{CallGraph, Callees, GraphSite, Target};
use checkpoint_place::{PlaceError, Plan, place};
use cycle_break::back_edges;
use std::alloc::{AllocError, Global};

/// Returns a graph of these weights and sites, without a table, or `None` if memory runs out.
fn graph_of(alloc: Global, weights: &[u32], sites: &[GraphSite], main: u32) -> Option<CallGraph>
    requires { IsCallGraph (record { weights = weights.now; tables = []; sites = sites.now; main = main }) }
{
    let Ok(weights) = Vec::from_slice(alloc, weights) else {
        return None;
    };
    match Vec::from_slice(alloc, sites) {
        Ok(sites) => Some(CallGraph::new(weights, Vec::new(alloc), sites, main)),
        Err(_) => {
            drop(weights);
            None
        }
    }
}

/// Returns one table, whose members are functions 0 and 1.
fn one_table(alloc: Global) -> Result<Vec<Callees>, AllocError>
    ensures { IfOk result (λ tables. tables.items ≡ (0 ∷ 1 ∷ []) ∷ []) }
{
    let members = Callees::new(Vec::from_slice(alloc, &[0, 1])?);
    Ok(Vec::from_array(alloc, [members])?)
}

/// Returns a graph of two functions, of which the second calls the table.
fn graph_of_table(alloc: Global) -> Result<CallGraph, AllocError> {
    let tables = one_table(alloc)?;
    let site = GraphSite {
        number: 7,
        caller: 1,
        target: Target::Table(0),
    };
    let weights = vec![in alloc; 16, 32]?;
    let sites = vec![in alloc; site]?;
    Ok(CallGraph::new(weights, tables, sites, 1))
}

fn are_numbers(found: &[u32], want: &[u32]) -> bool {
    found == want
}

/// Checks whether these are a plan's checkpointed sites and bounds.
fn is_plan(plan: Result<Plan, PlaceError>, checkpointed: &[u32], bounds: &[u32]) -> bool {
    match plan {
        Ok(plan) => {
            let same = are_numbers(plan.checkpointed.as_slice(), checkpointed)
                && are_numbers(plan.bounds.as_slice(), bounds);
            drop(plan);
            same
        }
        Err(_) => false,
    }
}

/// Checks whether these are a graph's back edges, checkpointed sites and bounds.
fn is_placed(
    alloc: Global,
    graph: &CallGraph,
    max_path: u32,
    back: &[u32],
    checkpointed: &[u32],
    bounds: &[u32],
) -> bool {
    match back_edges(alloc, graph) {
        Ok(found) => {
            let plan = place(alloc, graph, found.as_slice(), max_path);
            let same = are_numbers(found.as_slice(), back) && is_plan(plan, checkpointed, bounds);
            drop(found);
            same
        }
        Err(_) => false,
    }
}

/// Does the same for a graph, which it drops.
fn leads_to(
    alloc: Global,
    graph: Option<CallGraph>,
    max_path: u32,
    back: &[u32],
    checkpointed: &[u32],
    bounds: &[u32],
) -> bool {
    match graph {
        Some(graph) => {
            let placed = is_placed(alloc, &graph, max_path, back, checkpointed, bounds);
            drop(graph);
            placed
        }
        None => false,
    }
}

/// A call at max path is plain, and a longer one isn't.
fn a_call_is_placed(alloc: Global) -> bool {
    let at = graph_of(alloc, &[16, 16], &[call(0, 1, 0)], 1);
    leads_to(alloc, at, 32, &[], &[], &[16, 32])
}

fn a_call_above_is_placed(alloc: Global) -> bool {
    let above = graph_of(alloc, &[16, 32], &[call(0, 1, 0)], 1);
    leads_to(alloc, above, 32, &[], &[0], &[16, 32])
}

/// Two functions that call each other have one back edge.
fn a_pair_is_placed(alloc: Global) -> bool {
    let sites = [call(0, 0, 1), call(1, 1, 0), call(2, 2, 0)];
    let first = graph_of(alloc, &[32, 32, 16], &sites, 2);
    leads_to(alloc, first, 2032, &[1], &[1], &[64, 32, 80])
}

/// If the walk enters the cycle at the other function, the other edge is the back edge.
fn a_pair_entered_in_the_middle_is_placed(alloc: Global) -> bool {
    let sites = [call(0, 0, 1), call(1, 1, 0), call(2, 2, 1)];
    let middle = graph_of(alloc, &[16, 32, 16], &sites, 2);
    leads_to(alloc, middle, 2032, &[0], &[0], &[16, 48, 64])
}

/// A self-call is a back edge.
fn a_self_call_is_placed(alloc: Global) -> bool {
    let own = graph_of(alloc, &[16], &[call(0, 0, 0)], 0);
    leads_to(alloc, own, 2032, &[0], &[0], &[16])
}

/// A call of a table that has the caller is a back edge.
fn a_table_is_placed(alloc: Global) -> bool {
    match graph_of_table(alloc) {
        Ok(graph) => leads_to(alloc, Some(graph), 2032, &[7], &[7], &[16, 32]),
        Err(_) => false,
    }
}

/// A function that is never reached has its bound.
fn a_function_never_reached_is_placed(alloc: Global) -> bool {
    let graph = graph_of(alloc, &[16, 32], &[call(0, 0, 1)], 1);
    leads_to(alloc, graph, 2032, &[], &[], &[48, 32])
}

fn each_is_placed(alloc: Global) -> bool {
    a_call_is_placed(alloc)
        && a_call_above_is_placed(alloc)
        && a_pair_is_placed(alloc)
        && a_pair_entered_in_the_middle_is_placed(alloc)
        && a_self_call_is_placed(alloc)
        && a_table_is_placed(alloc)
        && a_function_never_reached_is_placed(alloc)
}

/// Returns 1, the function and the bytes of the frame that is too large; three zeros if there is a plan.
fn refusal_of(plan: Result<Plan, PlaceError>) -> (u32, u32, u32) {
    match plan {
        Ok(plan) => {
            drop(plan);
            (0, 0, 0)
        }
        Err(PlaceError::FrameTooLarge { function, bytes }) => (1, function, bytes),
        Err(PlaceError::Memory) => (2, 0, 0),
    }
}

/// Returns the refusal of a graph.
fn refusal(alloc: Global, graph: &CallGraph, max_path: u32) -> (u32, u32, u32) {
    match back_edges(alloc, graph) {
        Ok(back) => {
            let plan = place(alloc, graph, back.as_slice(), max_path);
            drop(back);
            refusal_of(plan)
        }
        Err(_) => (2, 0, 0),
    }
}

/// Checks whether functions of these weights that call nothing are refused like this.
fn is_refused(alloc: Global, weights: &[u32], max_path: u32, want: (u32, u32, u32)) -> bool
    requires { IsCallGraph (record { weights = weights.now; tables = []; sites = []; main = 0 }) }
{
    match graph_of(alloc, weights, &[], 0) {
        Some(graph) => {
            let (kind, function, bytes) = refusal(alloc, &graph, max_path);
            drop(graph);
            kind == want.0 && function == want.1 && bytes == want.2
        }
        None => false,
    }
}

/// The first frame that is too large is named.
fn each_is_refused(alloc: Global) -> bool {
    is_refused(alloc, &[48], 32, (1, 0, 48))
        && is_refused(alloc, &[48], 48, (0, 0, 0))
        && is_refused(alloc, &[16, 2048, 4096], 4080, (1, 1, 2048))
}

#[test]
fn placements(rt: HostRuntime) {
    assert!(rt; each_is_placed(rt.alloc()) && each_is_refused(rt.alloc()));
}
