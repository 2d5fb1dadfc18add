ghost use Rattle.std.specs.Prelude.{◌≡◌, ◌<◌, ◌≤◌, ◌+◌, ℕ, List, length, vec_len, max, IfOk};
ghost use Rattle.std.specs.List.{AllByRecursion};
ghost use Rattle.std.specs.List.Sorted.{IsStrictlyIncreasing};
ghost use Rattle.call_graph.specs.Callees.{greatest};
ghost use Rattle.certificate_rules.specs.Sites.{fact_numbers};
ghost use Rattle.flat_code.specs.Codes.{function_at};
ghost use Rattle.flat_code.specs.ProgramView.{program_code};
ghost use Rattle.flat_code.specs.WellFormed.{IsOperation, context_of};
ghost use Rattle.chunk_budget.specs.Budgets.{AreCovered, height_of};
ghost use Rattle.chunk_budget.specs.Known.{IsKnown};
ghost use Rattle.call_cycles.specs.Orders.{IsFromBottom, StandsBefore};
ghost use Rattle.chunk_budget.specs.Made.{height_asked, height_spawned, greatest_below};

use crate::heights::{Known, nothing_known, table_height};
use crate::sites::{chunks_added, function_of};
use accepted_pairs::kind_of_operation;
use flat_code::{FlatProgram, Op};
use stack_certificate::Certificate;
use std::alloc::{AllocError, Global};

// The height that an operation requires of its function, by the heights of the functions that it calls.
fn height_asked(
    flat: &FlatProgram,
    certificate: &Certificate,
    heights: &[u32],
    function: usize,
    op: &Op,
    known: &mut Known,
) -> u64
    requires rising { IsStrictlyIncreasing (fact_numbers certificate.now.sites) }
    requires heights { length heights.now ≡ length (program_code flat.now).functions }
    requires formed { IsOperation (context_of (program_code flat.now) (function_at (program_code flat.now) function)) op.now }
    requires known { IsKnown (program_code flat.now) heights.now known.old }
    ensures asked { result ≡ height_asked (program_code flat.now) certificate.now heights.now op.now }
    ensures known { IsKnown (program_code flat.now) heights.now known.new }
{
    match op {
        Op::Call { f, .. } => {
            u64::from(heights[*f as usize]) + chunks_added(kind_of_operation(certificate, op))
        }
        Op::CallTable { t, .. } => {
            let callee = table_height(flat, heights, *t, known);
            u64::from(callee) + chunks_added(kind_of_operation(certificate, op))
        }
        _ => 0,
    }
}

// The height that a function needs, by the heights of the functions that it calls.
fn height_over(
    flat: &FlatProgram,
    certificate: &Certificate,
    heights: &[u32],
    function: usize,
) -> u64
    requires rising { IsStrictlyIncreasing (fact_numbers certificate.now.sites) }
    requires heights { length heights.now ≡ length (program_code flat.now).functions }
    requires function { function < length (program_code flat.now).functions }
    ensures { result ≡ greatest (height_asked (program_code flat.now) certificate.now heights.now) (function_at (program_code flat.now) function).ops }
{
    let ops = function_of(flat, function).ops.as_slice();
    let mut known = nothing_known();
    let mut most = 0;
    for op in ops {
        let asked = height_asked(flat, certificate, heights, function, op, &mut known);
        most = most.max(asked);
    }
    most
}

// The least heights, computed in an order in which each function comes after those that it calls. A height beyond 32
// bits is reported as out of memory.
pub(crate) fn least_heights(
    alloc: Global,
    flat: &FlatProgram,
    certificate: &Certificate,
    order: &[u32],
) -> Result<Vec<u32>, AllocError>
    requires rising { IsStrictlyIncreasing (fact_numbers certificate.now.sites) }
    requires functions { AllByRecursion (λ f. f < length (program_code flat.now).functions) order.now }
    requires order { IsFromBottom (program_code flat.now) order.now }
    requires all { (f : ℕ) → f < length (program_code flat.now).functions → StandsBefore order.now (length order.now) f }
    ensures each { IfOk result (λ heights. vec_len heights ≡ length (program_code flat.now).functions) }
    ensures covered { IfOk result (λ heights. AreCovered (program_code flat.now) certificate.now heights.items) }
    ensures least { IfOk result (λ heights. (others : List ℕ) → AreCovered (program_code flat.now) certificate.now others → (f : ℕ) → height_of heights.items f ≤ height_of others f) }
{
    let mut heights = vec![in alloc; 0; flat.functions().len()]?;
    for number in order {
        let function = *number as usize;
        let asked = height_over(flat, certificate, heights.as_slice(), function);
        if asked > u64::from(u32::MAX) {
            return Err(AllocError);
        }
        heights[function] = heights[function].max(asked as u32);
    }
    Ok(heights)
}

// The height of the function with which an operation starts a thread, or 0 if it starts none.
fn height_spawned(flat: &FlatProgram, heights: &[u32], function: usize, op: &Op) -> u32
    requires heights { length heights.now ≡ length (program_code flat.now).functions }
    requires formed { IsOperation (context_of (program_code flat.now) (function_at (program_code flat.now) function)) op.now }
    ensures { result ≡ height_spawned heights.now op.now }
{
    match op {
        Op::Spawn { f, .. } => heights[*f as usize],
        _ => 0,
    }
}

// The greatest height of the functions with which a function's operations start threads.
fn highest_in(flat: &FlatProgram, heights: &[u32], function: usize) -> u32
    requires heights { length heights.now ≡ length (program_code flat.now).functions }
    requires function { function < length (program_code flat.now).functions }
    ensures { result ≡ greatest (height_spawned heights.now) (function_at (program_code flat.now) function).ops }
{
    let ops = function_of(flat, function).ops.as_slice();
    let mut most = 0;
    for op in ops {
        let height = height_spawned(flat, heights, function, op);
        most = most.max(height);
    }
    most
}

// The greatest height of `main` and the functions with which threads are started.
pub(crate) fn highest_root(flat: &FlatProgram, heights: &[u32]) -> u32
    requires { length heights.now ≡ length (program_code flat.now).functions }
    ensures { result ≡ max (height_of heights.now (program_code flat.now).main) (greatest_below (λ f. greatest (height_spawned heights.now) (function_at (program_code flat.now) f).ops) (length (program_code flat.now).functions)) }
{
    let mut most = heights[flat.main_number() as usize];
    for function in 0..flat.functions().len() {
        let height = highest_in(flat, heights, function);
        most = most.max(height);
    }
    most
}
