ghost use Rattle.std.specs.Prelude.{◌≡◌, ◌<◌, ◌≤◌, length};
ghost use Rattle.flat_code.specs.Codes.{function_at};
ghost use Rattle.flat_code.specs.ProgramView.{program_code};
ghost use Rattle.flat_code.specs.WellFormed.{IsOperation, context_of};
ghost use Rattle.call_cycles.specs.Cycles.{IsLeastOf};
ghost use Rattle.chunk_budget.specs.Budgets.{IsHighRoot};
ghost use Rattle.chunk_budget.specs.Least.{least_in, least_below};
ghost use Rattle.chunk_budget.specs.Tests.{high_function, high_root};

use crate::budgets::Budget;
use crate::least::lesser;
use crate::sites::function_of;
use flat_code::{FlatProgram, Op};

// A function, if its height is too high for a thread with this number of chunks that starts with it.
fn high_function(chunks: u32, heights: &[u32], function: u32) -> Option<u32>
    requires { function < length heights.now }
    ensures { result ≡ high_function chunks heights.now function }
{
    if heights[function as usize] < chunks {
        None
    } else {
        Some(function)
    }
}

// The function with which an operation starts a thread, if it is too high.
fn high_root(
    flat: &FlatProgram,
    chunks: u32,
    heights: &[u32],
    function: usize,
    op: &Op,
) -> Option<u32>
    requires heights { length heights.now ≡ length (program_code flat.now).functions }
    requires formed { IsOperation (context_of (program_code flat.now) (function_at (program_code flat.now) function)) op.now }
    ensures { result ≡ high_root chunks heights.now function op.now }
{
    match op {
        Op::Spawn { f, .. } => high_function(chunks, heights, *f),
        _ => None,
    }
}

// The least of a number and the functions that are too high and with which a function's operations start
// threads.
fn least_in_function(
    flat: &FlatProgram,
    chunks: u32,
    heights: &[u32],
    function: usize,
    first: Option<u32>,
) -> Option<u32>
    requires heights { length heights.now ≡ length (program_code flat.now).functions }
    requires function { function < length (program_code flat.now).functions }
    ensures { result ≡ least_in (high_root chunks heights.now function) (function_at (program_code flat.now) function).ops first }
{
    let ops = function_of(flat, function).ops.as_slice();
    let mut least = first;
    for op in ops {
        let root = high_root(flat, chunks, heights, function, op);
        least = lesser(least, root);
    }
    least
}

// The least of `main` and the functions with which operations start threads that is too high for this number of
// chunks.
fn least_of_roots(flat: &FlatProgram, chunks: u32, heights: &[u32]) -> Option<u32>
    requires { length heights.now ≡ length (program_code flat.now).functions }
    ensures { result ≡ least_below (high_root chunks heights.now) (program_code flat.now) (high_function chunks heights.now (program_code flat.now).main) (length (program_code flat.now).functions) }
{
    let mut least = high_function(chunks, heights, flat.main_number());
    for function in 0..flat.functions().len() {
        least = least_in_function(flat, chunks, heights, function, least);
    }
    least
}

// The least first function of a thread that is too high for the chunks of a thread.
pub(crate) fn least_high_root(flat: &FlatProgram, budget: &Budget) -> Option<u32>
    requires heights { length budget.now.heights ≡ length (program_code flat.now).functions }
    requires chunks { 1 ≤ budget.now.per_thread }
    ensures { IsLeastOf (IsHighRoot (program_code flat.now) budget.now) result }
{
    least_of_roots(flat, budget.per_thread, budget.heights.as_slice())
}
