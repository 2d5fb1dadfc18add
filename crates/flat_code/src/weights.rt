ghost use Rattle.std.specs.Prelude.{◌≡◌, ◌≤◌, ◌^◌, sum};
ghost use Rattle.flat_code.specs.Weight.{weight_of};

use crate::functions::FlatFunction;

/// Returns the size of a function's frame in bytes: its variables' words and the return address, rounded
/// up to a multiple of 16, since the RISC-V calling convention aligns a stack to 16 bytes. It doesn't
/// allocate.
pub fn weight(function: &FlatFunction) -> u32
    requires { sum function.now.sizes ≤ 2 ^ 20 }
    ensures { result ≡ weight_of function.now.sizes }
{
    let words: u32 = function.sizes.as_slice().iter().sum();
    (4 * words + 4).div_ceil(16) * 16
}
