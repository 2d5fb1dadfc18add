// The number of words of code.

ghost use Rattle.std.specs.Prelude.{◌≡◌, ◌-◌, ◌<◌, ◌≤◌, ◌^◌, length, min};
ghost use Rattle.std.specs.List.Sorted.{IsStrictlyIncreasing};
ghost use Rattle.flat_code.specs.Codes.{function_at};
ghost use Rattle.flat_code.specs.ProgramView.{program_code};
ghost use Rattle.codegen_link.specs.Layout.{code_words, function_words};

use crate::links::shape;
use crate::lookups::operation_of;
use checkpoint_place::Plan;
use flat_code::FlatProgram;
use stack_certificate::{function_of, operation_size};

// The number of words of a function's code.
pub(crate) fn function_size(flat: &FlatProgram, plan: &Plan, function: u32) -> u64
    requires rising { IsStrictlyIncreasing plan.now.checkpointed }
    requires function { function < length (program_code flat.now).functions }
    ensures words { result ≡ function_words (program_code flat.now) plan.now (function_at (program_code flat.now) function) }
    ensures range { result < 2 ^ 54 }
{
    let body = function_of(flat, function);
    let mut words = 2 + u64::from(body.params);
    for op in 0..body.ops.len() {
        let kind = shape(plan, operation_of(flat, function, op as u32));
        words += u64::from(operation_size(flat, function, op as u32, kind));
    }
    words
}

// The number of words of all code. The count saturates at the maximum of its type.
pub(crate) fn code_size(flat: &FlatProgram, plan: &Plan) -> u64
    requires rising { IsStrictlyIncreasing plan.now.checkpointed }
    requires few { length (program_code flat.now).functions ≤ 2 ^ 32 }
    ensures { result ≡ min (code_words (program_code flat.now) plan.now) (2 ^ 64 - 1) }
{
    let mut words: u64 = 2;
    for function in 0..flat.functions().len() {
        words = words.saturating_add(function_size(flat, plan, function as u32));
    }
    words
}
