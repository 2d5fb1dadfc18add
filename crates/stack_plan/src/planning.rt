ghost use Rattle.std.specs.Prelude.{◌≡◌, ◌≤◌, ◌^◌, ◌⊎◌, Some, IfOk, IfErr, map, sum};
ghost use Rattle.std.specs.List.{AllByRecursion};
ghost use Rattle.call_graph.specs.Graph.{IsCallGraph};
ghost use Rattle.checkpoint_place.specs.Placement.{IsPlacement};
ghost use Rattle.checkpoint_place.specs.Refusal.{refusal_from};
ghost use Rattle.checkpoint_place.specs.declared.refusals.PlaceError.TheVariants.{Memory};
ghost use Rattle.cycle_break.specs.BackEdges.{back_edges};
ghost use Rattle.flat_code.specs.Codes.{FlatCode};
ghost use Rattle.flat_code.specs.ProgramView.{program_code};
ghost use Rattle.flat_code.specs.Weight.{weight_of};
ghost use Rattle.stack_plan.specs.Plans.{weights_of, IsGraphOf, IsEnough};

use call_graph::{CallGraph, graph};
use cap_word::Words;
use checkpoint_place::{PlaceError, Plan, place};
use cycle_break::back_edges;
use flat_code::{FlatFunction, FlatProgram, weight};
use std::alloc::{AllocError, Global};

/// A program's call graph, its back edges and its plan.
#[derive(Drop)]
pub struct Planned {
    /// The call graph, with the size of each function's frame in bytes.
    pub graph: CallGraph,
    /// The numbers of the back-edge sites, increasing.
    pub back: Words,
    pub plan: Plan,
}

// The size of each function's frame in bytes.
fn weights(alloc: Global, functions: &[FlatFunction]) -> Result<Vec<u32>, AllocError>
    requires { AllByRecursion (λ f. sum f.sizes ≤ 2 ^ 20) functions.now }
    ensures { IfOk result (λ list. list.items ≡ map (λ f. weight_of f.sizes) functions.now) }
{
    let mut list = Vec::new(alloc);
    for function in functions {
        list.push(weight(function))?;
    }
    Ok(list)
}

/// Returns the plan of a call graph for paths of at most `max_path` bytes, with the graph and its back edges.
///
/// # Errors
///
/// `FrameTooLarge`, with the first function whose frame exceeds `max_path` or 2,032 bytes; `Memory` if an allocation
/// fails.
pub fn plan_of_graph(alloc: Global, graph: CallGraph, max_path: u32) -> Result<Planned, PlaceError>
    ensures refused { IfErr result (λ error. (error ≡ Memory) ⊎ (refusal_from max_path 0 graph.weights ≡ Some error)) }
    ensures graph { IfOk result (λ planned. planned.graph ≡ graph) }
    ensures back { IfOk result (λ planned. planned.back ≡ back_edges graph) }
    ensures placed { IfOk result (λ planned. IsPlacement graph planned.back max_path planned.plan) }
    ensures enough { (code : FlatCode) → IsGraphOf code graph → IfOk result (λ planned. IsEnough code max_path planned.plan) }
{
    let back = back_edges(alloc, &graph)?;
    let plan = place(alloc, &graph, &back, max_path)?;
    Ok(Planned {
        graph,
        back: Words::new(back),
        plan,
    })
}

/// Returns the plan of a program of flat code for paths of at most `max_path` bytes, with its call graph and its back
/// edges.
///
/// # Errors
///
/// Those of `plan_of_graph`.
pub fn plan_of(alloc: Global, flat: &FlatProgram, max_path: u32) -> Result<Planned, PlaceError>
    ensures refused { IfErr result (λ error. (error ≡ Memory) ⊎ (refusal_from max_path 0 (weights_of (program_code flat.now)) ≡ Some error)) }
    ensures graph { IfOk result (λ planned. IsGraphOf (program_code flat.now) planned.graph) }
    ensures back { IfOk result (λ planned. planned.back ≡ back_edges planned.graph) }
    ensures placed { IfOk result (λ planned. IsPlacement planned.graph planned.back max_path planned.plan) }
    ensures enough { IfOk result (λ planned. IsEnough (program_code flat.now) max_path planned.plan) }
{
    let weights = weights(alloc, flat.functions())?;
    let graph = graph(alloc, flat, &weights)?;
    Ok(plan_of_graph(alloc, graph, max_path)?)
}
