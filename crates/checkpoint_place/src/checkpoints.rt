ghost use Rattle.std.specs.Prelude.{◌≡◌, ◌+◌, ◌||◌, nat_le, not, map, filter, length, slice_index, IfOk};
ghost use Rattle.std.specs.List.Sorted.{IsStrictlyIncreasing};
ghost use Rattle.call_graph.specs.Callees.{callees, greatest};
ghost use Rattle.call_graph.specs.Graph.{function_count};
ghost use Rattle.call_graph.specs.Lists.{has};
ghost use Rattle.checkpoint_place.specs.Placement.{is_checkpointed};

use crate::callee_bounds::{greatest_of_tables, known_callee_bound};
use call_graph::{CallGraph, is_among};
use std::alloc::{AllocError, Global};

/// Returns whether a site is checkpointed: it is a back edge, or its caller's weight plus the greatest
/// bound of its callees exceeds max path.
fn is_over(number: u32, back: &[u32], weight: u32, below: u32, max_path: u32) -> bool
    requires { IsStrictlyIncreasing back.now }
    ensures { result ≡ (has number back.now || not (nat_le (weight + below) max_path)) }
{
    is_among(number, back) || u64::from(weight) + u64::from(below) > u64::from(max_path)
}

/// Returns the numbers of the checkpointed sites, in order.
pub(crate) fn checkpointed_sites(
    alloc: Global,
    graph: &CallGraph,
    back: &[u32],
    bounds: &[u32],
    max_path: u32,
) -> Result<Vec<u32>, AllocError>
    requires back { IsStrictlyIncreasing back.now }
    requires each { length bounds.now ≡ function_count graph.now }
    ensures { IfOk result (λ numbers. numbers.items
        ≡ map (λ site. site.number) (filter (is_checkpointed graph.now back.now max_path (slice_index bounds.now)) graph.now.sites)) }
{
    let weights = graph.weights();
    let tables = graph.tables();
    let of_tables = greatest_of_tables(alloc, tables, bounds)?;
    let mut numbers = Vec::new(alloc);
    for site in graph.sites() {
        let below = known_callee_bound(site.target, tables, bounds, of_tables.as_slice());
        if is_over(
            site.number,
            back,
            weights[site.caller as usize],
            below,
            max_path,
        ) {
            numbers.push(site.number)?;
        }
    }
    Ok(numbers)
}
