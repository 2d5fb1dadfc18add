// The operations of a program.

ghost use Rattle.std.specs.Prelude.{◌≡◌, ◌<◌, length, slice_get, slice_index_or, Some};
ghost use Rattle.flat_code.specs.Codes.{function_at, operation_at};
ghost use Rattle.flat_code.specs.ProgramView.{program_code};
ghost use Rattle.codegen_link.specs.Emission.{JumpsInside, NamesThere};

use flat_code::{FlatFunction, FlatProgram, Op};
use stack_certificate::function_of;

// An operation of a function. The function, table or global that it names exists.
pub(crate) fn operation_of(flat: &FlatProgram, function: u32, op: u32) -> &Op
    requires function { function < length (program_code flat.now).functions }
    requires op { op < length (function_at (program_code flat.now) function).ops }
    ensures value { Some result.now ≡ operation_at (program_code flat.now) function op }
    ensures names { NamesThere (program_code flat.now) result.now }
    ensures inside { JumpsInside (length (function_at (program_code flat.now) function).ops) result.now }
{
    let body = function_of(flat, function);
    operation_in(body, op)
}

// An operation of a function.
fn operation_in(function: &FlatFunction, op: u32) -> &Op
    requires { op < length function.now.ops }
    ensures there { Some result.now ≡ slice_get function.now.ops op }
    ensures value { result.now ≡ slice_index_or function.now.ops op result.now }
{
    &function.ops.as_slice()[op as usize]
}
