// The jumps of `&&`, `||` and `? :`. Such a jump is open, that is, without a target, until the code that it skips has
// been written.

ghost use Rattle.std.specs.Prelude.{◌≡◌, ◌<◌, ◌+◌, [], ◌∷◌, ◌++◌, IfOk, OnOk, length, slice_set};
ghost use Rattle.flat_code.specs.declared.operations.Op.{Op};
ghost use Rattle.c_lower.specs.Chains.{truth_code};

use crate::places::{patch, place_after, put, put_open};
use flat_code::Op;
use std::alloc::AllocError;

// Sets variable k to 1 or 0: to 1 if it isn't 0, and to 0 if it is or if a jump leads to the fourth operation here.
fn put_truth(code: &mut Vec<Op>, k: u32) -> Result<(), AllocError>
    ensures { OnOk result (code.new.items ≡ code.old.items ++ truth_code k (length code.old.items + 3) (length code.old.items + 4)) }
{
    let zero = place_after(code, 0, 3)?;
    let end = place_after(code, 0, 4)?;
    put(code, Op::JumpZero { s: k, to: zero })?;
    put(code, Op::Const { d: k, value: 1 })?;
    put(code, Op::Jump { to: end })?;
    put(code, Op::Const { d: k, value: 0 })
}

// Closes the open jump at `test`: it skips `more` operations from here on if variable k is 0.
fn close_test(code: &mut Vec<Op>, k: u32, test: usize, more: u32) -> Result<(), AllocError>
    requires { test < length code.old.items }
    ensures { OnOk result (code.new.items ≡ slice_set code.old.items test (Op.JumpZero k (length code.old.items + more))) }
{
    let to = place_after(code, 0, more)?;
    patch(code, test, Op::JumpZero { s: k, to });
    Ok(())
}

// Closes the open jump at `jump`: it skips `more` operations from here on.
pub fn close_jump(code: &mut Vec<Op>, jump: usize, more: u32) -> Result<(), AllocError>
    requires { jump < length code.old.items }
    ensures { OnOk result (code.new.items ≡ slice_set code.old.items jump (Op.Jump (length code.old.items + more))) }
{
    let to = place_after(code, 0, more)?;
    patch(code, jump, Op::Jump { to });
    Ok(())
}

// The operations between the sides of a conditional expression whose test is at `test`: an open jump, whose place is
// returned.
pub fn put_between(code: &mut Vec<Op>, k: u32, test: usize) -> Result<usize, AllocError>
    requires { test < length code.old.items }
    ensures code { OnOk result (code.new.items ≡ slice_set code.old.items test (Op.JumpZero k (length code.old.items + 1)) ++ Op.Jump 0 ∷ []) }
    ensures place { IfOk result (λ at. at ≡ length code.old.items) }
{
    close_test(code, k, test, 1)?;
    put_open(code)
}

// The operations after the right operand of `&&`, whose test is at `test`.
pub fn put_both(code: &mut Vec<Op>, k: u32, test: usize) -> Result<(), AllocError>
    requires { test < length code.old.items }
    ensures { OnOk result (code.new.items ≡ slice_set code.old.items test (Op.JumpZero k (length code.old.items + 3)) ++ truth_code k (length code.old.items + 3) (length code.old.items + 4)) }
{
    close_test(code, k, test, 3)?;
    put_truth(code, k)
}

// The operations after the left operand of `||`. Returns the place of its open jump, which is taken if the operand
// isn't 0.
pub fn put_unless(code: &mut Vec<Op>, k: u32) -> Result<usize, AllocError>
    ensures code { OnOk result (code.new.items ≡ code.old.items ++ Op.JumpZero k (length code.old.items + 2) ∷ Op.Jump 0 ∷ []) }
    ensures place { IfOk result (λ at. at ≡ length code.old.items + 1) }
{
    let right = place_after(code, 0, 2)?;
    put(code, Op::JumpZero { s: k, to: right })?;
    put_open(code)
}

// The operations after the right operand of `||`, whose open jump is at `jump`.
pub fn put_either(code: &mut Vec<Op>, k: u32, jump: usize) -> Result<(), AllocError>
    requires { jump < length code.old.items }
    ensures { OnOk result (code.new.items ≡ slice_set code.old.items jump (Op.Jump (length code.old.items + 1)) ++ truth_code k (length code.old.items + 3) (length code.old.items + 4)) }
{
    close_jump(code, jump, 1)?;
    put_truth(code, k)
}
