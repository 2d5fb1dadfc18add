// Operations at the end of a function's code, and the numbers of those that jumps name.

ghost use Rattle.std.specs.Prelude.{◌≡◌, ◌<◌, ◌+◌, [], ◌∷◌, ◌++◌, IfOk, OnOk, length, slice_set};

use flat_code::Op;
use std::alloc::AllocError;

// One more operation.
pub fn put(code: &mut Vec<Op>, op: Op) -> Result<(), AllocError>
    ensures { OnOk result (code.new.items ≡ code.old.items ++ op ∷ []) }
{
    code.push(op)?;
    Ok(())
}

// A sum of sizes. If there are more operations than a jump can name, this is reported as out of
// memory.
pub fn sum(a: u32, b: u32) -> Result<u32, AllocError>
    ensures { IfOk result (λ n. n ≡ a + b) }
{
    a.checked_add(b).ok_or(AllocError)
}

// The number of the operation that comes `size` and `more` operations after the last one so far.
pub fn place_after(code: &Vec<Op>, size: u32, more: u32) -> Result<u32, AllocError>
    ensures { IfOk result (λ n. n ≡ length code.now.items + size + more) }
{
    let Ok(here) = u32::try_from(code.len()) else {
        return Err(AllocError);
    };
    sum(sum(here, size)?, more)
}

// A jump without a target yet. Returns its place.
pub fn put_open(code: &mut Vec<Op>) -> Result<usize, AllocError>
    ensures code { OnOk result (code.new.items ≡ code.old.items ++ Op.Jump 0 ∷ []) }
    ensures place { IfOk result (λ at. at ≡ length code.old.items) }
{
    let at = code.len();
    put(code, Op::Jump { to: 0 })?;
    Ok(at)
}

// Replaces an operation.
pub fn patch(code: &mut Vec<Op>, at: usize, op: Op)
    requires { at < length code.old.items }
    ensures { code.new.items ≡ slice_set code.old.items at op }
{
    code[at] = op;
}
