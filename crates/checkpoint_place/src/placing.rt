ghost use Rattle.std.specs.Prelude.{◌≡◌, ◌≤◌, ◌<◌, ◌^◌, ℕ, length, slice_index, IfOk, IfSome, IfNone, IsOkUnless};
ghost use Rattle.std.specs.List.Sorted.{IsStrictlyIncreasing};
ghost use Rattle.call_graph.specs.Graph.{function_count};
ghost use Rattle.call_graph.specs.Paths.{BreaksEveryCycle};
ghost use Rattle.checkpoint_place.specs.Placement.{IsPlacement};
ghost use Rattle.checkpoint_place.specs.Refusal.{refusal_from};
ghost use Rattle.checkpoint_place.specs.Weights.{IsGreatestWeight};

use crate::bounds::bounds_of;
use crate::checkpoints::checkpointed_sites;
use crate::plans::Plan;
use crate::refusals::PlaceError;
use call_graph::{CallGraph, CallerIndex};
use cap_word::Words;
use cycle_break::leaving_order;
use std::alloc::{AllocError, Global};

/// The maximum size of a frame in bytes: the offset of a store to a register's address is at most 2,047.
const MOST_BYTES: u32 = 2032;

/// Returns the first function whose frame is too large.
fn refusal(weights: &[u32], max_path: u32) -> Option<PlaceError>
    requires { length weights.now ≤ 2 ^ 32 }
    ensures { result ≡ refusal_from max_path 0 weights.now }
{
    for (function, weight) in weights.iter().enumerate() {
        if *weight > max_path || *weight > MOST_BYTES {
            return Some(PlaceError::FrameTooLarge {
                function: function as u32,
                bytes: *weight,
            });
        }
    }
    None
}

/// Returns the plan, if no frame is too large.
fn plan(alloc: Global, graph: &CallGraph, back: &[u32], max_path: u32) -> Result<Plan, AllocError>
    requires rising { IsStrictlyIncreasing back.now }
    requires breaks { BreaksEveryCycle graph.now back.now }
    requires fits { refusal_from max_path 0 graph.now.weights ≡ None }
    ensures placed { IfOk result (λ plan. IsPlacement graph.now back.now max_path plan) }
    ensures greatest { IfOk result (λ plan. (f : ℕ) → f < function_count graph.now → IsGreatestWeight graph.now plan.checkpointed f (slice_index plan.bounds f)) }
{
    let functions = graph.weights().len();
    let order = leaving_order(alloc, graph, back)?;
    let index = CallerIndex::new(alloc, functions, graph.sites(), back)?;
    let bounds = bounds_of(alloc, graph, &index, order.as_slice(), max_path)?;
    let checkpointed = checkpointed_sites(alloc, graph, back, bounds.as_slice(), max_path)?;
    Ok(Plan {
        checkpointed: Words::new(checkpointed),
        bounds: Words::new(bounds),
    })
}

/// Returns the plan of a graph with these back edges, whose numbers increase and which break every cycle,
/// for paths of at most `max_path` bytes. Over the sites that aren't back edges, a function's bound is its
/// weight plus the greatest callee bound of its plain sites, or its weight alone. A site is checkpointed
/// exactly if it is a back edge or its caller's weight plus its greatest callee bound exceeds `max_path`;
/// any other site is plain. So a function's bound is the greatest weight of a path of plain calls from it.
///
/// # Errors
///
/// `FrameTooLarge` exactly if a weight exceeds `max_path` or 2,032, with the first such function; `Memory`
/// if an allocation fails.
pub fn place(
    alloc: Global,
    graph: &CallGraph,
    back: &[u32],
    max_path: u32,
) -> Result<Plan, PlaceError>
    requires rising { IsStrictlyIncreasing back.now }
    requires breaks { BreaksEveryCycle graph.now back.now }
    // The refusal. It is returned even if there is no memory.
    ensures refused { IfSome (refusal_from max_path 0 graph.now.weights) (λ refusal. result ≡ Err refusal) }
    ensures only_memory { IfNone (refusal_from max_path 0 graph.now.weights) (IsOkUnless result PlaceError.Memory) }
    ensures placed { IfOk result (λ plan. IsPlacement graph.now back.now max_path plan) }
    ensures greatest { IfOk result (λ plan. (f : ℕ) → f < function_count graph.now → IsGreatestWeight graph.now plan.checkpointed f (slice_index plan.bounds f)) }
{
    if let Some(refusal) = refusal(graph.weights(), max_path) {
        return Err(refusal);
    }
    Ok(plan(alloc, graph, back, max_path)?)
}
