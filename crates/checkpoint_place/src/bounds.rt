ghost use Rattle.std.specs.Prelude.{◌≡◌, ◌≤◌, ◌<◌, ℕ, List, true, length, reverse, vec_len, slice_index, IfOk};
ghost use Rattle.std.specs.List.{AllByRecursion};
ghost use Rattle.call_graph.specs.Graph.{IsSiteOf, function_count};
ghost use Rattle.call_graph.specs.Index.{IsIndex, sites_of};
ghost use Rattle.call_graph.specs.Lists.{has};
ghost use Rattle.cycle_break.specs.BottomUp.{IsBottomUp};
ghost use Rattle.checkpoint_place.specs.KnownTables.{AreKnownAmong, CallAmong, IsKnown};
ghost use Rattle.checkpoint_place.specs.Placement.{bound_over};

use crate::callee_bounds::callee_bound;
use call_graph::{CallGraph, Callees, CallerIndex};
use std::alloc::{AllocError, Global};

/// Returns the bound of a function, from those of the functions that it calls at the sites of the
/// index.
pub(crate) fn bound_of(
    function: u32,
    weight: u32,
    tables: &[Callees],
    index: &CallerIndex<'_>,
    bounds: &[u32],
    known: &mut [Option<u32>],
    max_path: u32,
) -> u32
    requires function { function < length bounds.now }
    requires weight { weight ≤ max_path }
    requires sites { AllByRecursion (IsSiteOf (length bounds.now) tables.now) index.now.sites.now }
    requires index { IsIndex index.now.sites.now index.now.without.now (length bounds.now) index.now.first.items index.now.next.items }
    requires known { IsKnown tables.now (slice_index bounds.now) known.old }
    ensures bound { result ≡ bound_over tables.now (slice_index bounds.now) max_path weight (sites_of index.now.sites.now index.now.without.now function) }
    ensures most { result ≤ max_path }
    ensures known { IsKnown tables.now (slice_index bounds.now) known.new }
    ensures among { (others : List ℕ) → AreKnownAmong tables.now others known.old → CallAmong tables.now others (sites_of index.now.sites.now index.now.without.now function) → AreKnownAmong tables.now others known.new }
{
    let room = max_path - weight;
    let mut most = 0;
    let mut place = index.first[function as usize];
    while place < index.sites.len() {
        let below = callee_bound(index.sites[place].target, tables, bounds, known);
        if below <= room {
            most = most.max(below);
        }
        place = index.next[place];
    }
    weight + most
}

/// Returns the bound of each function, computed in a bottom-up order.
pub(crate) fn bounds_of(
    alloc: Global,
    graph: &CallGraph,
    index: &CallerIndex<'_>,
    order: &[u32],
    max_path: u32,
) -> Result<Vec<u32>, AllocError>
    requires weights { AllByRecursion (λ weight. weight ≤ max_path) graph.now.weights }
    requires sites { index.now.sites.now ≡ graph.now.sites }
    requires index { IsIndex graph.now.sites index.now.without.now (function_count graph.now) index.now.first.items index.now.next.items }
    requires functions { AllByRecursion (λ f. f < function_count graph.now) order.now }
    requires bottom_up { IsBottomUp graph.now index.now.without.now (reverse order.now) }
    ensures each { IfOk result (λ bounds. vec_len bounds ≡ function_count graph.now) }
    ensures bounds { IfOk result (λ bounds. (f : ℕ) → has f order.now ≡ true →
        slice_index bounds.items f ≡ bound_over graph.now.tables (slice_index bounds.items) max_path (slice_index graph.now.weights f) (sites_of graph.now.sites index.now.without.now f)) }
{
    let weights = graph.weights();
    let tables = graph.tables();
    let mut greatest = vec![in alloc; None; tables.len()]?;
    let known = greatest.as_mut_slice();
    let mut bounds = vec![in alloc; 0; weights.len()]?;
    for function in order {
        let function = *function;
        let weight = weights[function as usize];
        bounds[function as usize] = bound_of(
            function,
            weight,
            tables,
            index,
            bounds.as_slice(),
            known,
            max_path,
        );
    }
    Ok(bounds)
}
