ghost use Rattle.std.specs.Prelude.{◌<◌, ◌≤◌, ◌^◌, ℕ, length, IfOk, IfErr};
ghost use Rattle.std.specs.List.{AllByRecursion};
ghost use Rattle.flat_code.specs.ProgramView.{program_code};
ghost use Rattle.call_cycles.specs.Cycles.{IsOnCycle};
ghost use Rattle.call_cycles.specs.Orders.{IsGraph, IsFromBottom, IsOrderRefusal, StandsBefore};

use crate::cycles::cycle_of;
use call_graph::{CallGraph, graph};
use cycle_break::leaving_order;
use flat_code::FlatProgram;
use std::alloc::{AllocError, Global};
use thiserror::Error;

/// Why a program's functions have no order.
#[derive(Clone, Copy, Debug, PartialEq, Eq, Error)]
pub enum OrderError {
    /// Calls lead from this function, the least one, back to itself.
    #[error("calls lead from function {function} back to itself")]
    Cycle { function: u32 },
    /// An allocation failed.
    #[error("out of memory")]
    Memory,
}

/// Returns the functions of a program in an order in which each comes after all that it calls.
///
/// # Errors
///
/// `Cycle` exactly if a function is on a cycle of calls, with the least one, unless memory runs out; `Memory` if an
/// allocation fails, or if there are more than 2^32 functions.
pub fn bottom_up_order(alloc: Global, flat: &FlatProgram) -> Result<Vec<u32>, OrderError>
    ensures order { IfOk result (λ order. IsFromBottom (program_code flat.now) order.items) }
    ensures all { IfOk result (λ order. (f : ℕ) → f < length (program_code flat.now).functions → StandsBefore order.items (length order.items) f) }
    ensures functions { IfOk result (λ order. AllByRecursion (λ f. f < length (program_code flat.now).functions) order.items) }
    ensures acyclic { IfOk result (λ _. (f : ℕ) → IsOnCycle (program_code flat.now) f → ⊥) }
    ensures refused { IfErr result (IsOrderRefusal (program_code flat.now)) }
{
    let Ok(graph) = graph_of(alloc, flat) else {
        return Err(OrderError::Memory);
    };
    match cycle_of(alloc, flat, &graph) {
        Err(AllocError) => Err(OrderError::Memory),
        Ok(Some(function)) => Err(OrderError::Cycle { function }),
        Ok(None) => match order_of(alloc, flat, &graph) {
            Ok(order) => Ok(order),
            Err(AllocError) => Err(OrderError::Memory),
        },
    }
}

// The call graph of a program, with all weights 0.
fn graph_of(alloc: Global, flat: &FlatProgram) -> Result<CallGraph, AllocError>
    ensures graph { IfOk result (λ graph. IsGraph (program_code flat.now) graph) }
    ensures few { IfOk result (λ _. length (program_code flat.now).functions ≤ 2 ^ 32) }
{
    let weights = vec![in alloc; 0; flat.functions().len()]?;
    let graph = graph(alloc, flat, weights.as_slice())?;
    // For the prover alone: its contract tells the graph's invariant.
    let _functions = graph.weights().len();
    Ok(graph)
}

// The order of a program without cycles.
fn order_of(alloc: Global, flat: &FlatProgram, graph: &CallGraph) -> Result<Vec<u32>, AllocError>
    requires graph { IsGraph (program_code flat.now) graph.now }
    requires acyclic { (f : ℕ) → IsOnCycle (program_code flat.now) f → ⊥ }
    ensures order { IfOk result (λ order. IsFromBottom (program_code flat.now) order.items) }
    ensures all { IfOk result (λ order. (f : ℕ) → f < length (program_code flat.now).functions → StandsBefore order.items (length order.items) f) }
    ensures functions { IfOk result (λ order. AllByRecursion (λ f. f < length (program_code flat.now).functions) order.items) }
{
    leaving_order(alloc, graph, &[])
}
