// Numbers within lines.
ghost use Rattle.std.specs.Prelude.{◌≡◌, ◌++◌, OnOk};
ghost use Rattle.cap_text.specs.Decimals.{canonical_decimal};

use cap_text::put_dec;
use std::alloc::AllocError;

// Appends the decimal of a number.
pub fn put_number(text: &mut Vec<u8>, number: u32) -> Result<(), AllocError>
    ensures { OnOk result (text.new.items ≡ text.old.items ++ canonical_decimal number) }
{
    put_dec(text, i128::from(number))
}
