// From the tree of a source to the tree in which every call is whole.
ghost use Rattle.std.specs.Prelude.{◌≡◌, None, IfOk};
ghost use Rattle.c_tree.specs.RawProgramView.{raw_program_tree};
ghost use Rattle.c_tree.specs.RawViews.{raw_item_trees};
ghost use Rattle.c_tree.specs.WholeCalls.{AreCallsWhole};
ghost use Rattle.c_parse.specs.ForParts.{nested_in_fors};
ghost use Rattle.hoist_parts.specs.Statements.{items_hoisted};

use c_tree::{RawItem, RawProgram};
use hoist_rules::hoist_item;
use std::alloc::{AllocError, Global};

/// Returns the tree with each call that isn't whole before its statement, as the declaration of a name that no source
/// contains; so does everything that is evaluated before the call. If every call in the parentheses of a `for` is
/// whole, every call of the result is. `read_nested` makes the same statements, but resolves each as soon as it is
/// made, so the rewritten tree is never in memory.
///
/// # Errors
///
/// Returns `AllocError` if an allocation fails, or if a function needs more than 2^32 - 1 new names.
pub fn hoist(alloc: Global, raw: &RawProgram) -> Result<RawProgram, AllocError>
    ensures rewritten { IfOk result (λ p. raw_program_tree p ≡ items_hoisted (raw_program_tree raw.now)) }
    ensures whole { nested_in_fors (raw_program_tree raw.now) ≡ None → IfOk result (λ p. AreCallsWhole (raw_program_tree p)) }
{
    let items = hoisted_items(alloc, raw.items())?;
    Ok(RawProgram::new(items))
}

// The rewritten items.
fn hoisted_items(alloc: Global, raw: &[RawItem]) -> Result<Vec<RawItem>, AllocError>
    ensures { IfOk result (λ is. raw_item_trees is.items ≡ items_hoisted (raw_item_trees raw.now)) }
{
    let mut items = Vec::with_capacity(alloc, raw.len())?;
    for item in raw {
        let hoisted = hoist_item(alloc, item)?;
        items.push(hoisted)?;
    }
    Ok(items)
}
