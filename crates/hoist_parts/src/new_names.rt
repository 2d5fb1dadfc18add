// New names, which no source can contain.
ghost use Rattle.std.specs.Prelude.{◌≡◌, ◌++◌, IfOk, OnOk};
ghost use Rattle.cap_text.specs.Decimals.{canonical_decimal};
ghost use Rattle.c_tree.specs.RawViews.{name_tree, raw_expr_tree};
ghost use Rattle.hoist_parts.specs.NewNames.{new_name, used};

use c_tree::{Name, RawExpr};
use cap_text::put_dec;
use std::alloc::{AllocError, Global};

// Appends a number.
fn put_number(text: &mut Vec<u8>, number: u32) -> Result<(), AllocError>
    ensures { OnOk result (text.new.items ≡ text.old.items ++ canonical_decimal number) }
{
    put_dec(text, i128::from(number))
}

/// Returns the new name with a number.
pub fn new_name(alloc: Global, number: u32) -> Result<Name, AllocError>
    ensures { IfOk result (λ n. name_tree n ≡ new_name number) }
{
    let mut text = Vec::new(alloc);
    put_number(&mut text, number)?;
    Ok(Name { at: 0, text })
}

/// Returns the value of the new name with a number.
pub fn used(alloc: Global, number: u32) -> Result<RawExpr, AllocError>
    ensures { IfOk result (λ e. raw_expr_tree e ≡ used number) }
{
    Ok(RawExpr::Name(new_name(alloc, number)?))
}
