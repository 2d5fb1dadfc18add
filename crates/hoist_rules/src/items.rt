// The rewriting of what a source declares and defines outside functions.
ghost use Rattle.std.specs.Prelude.{◌≡◌, map, option_map, IfOk};
ghost use Rattle.c_tree.specs.RawViews.{name_tree, raw_item_tree, raw_stmt_tree, raw_stmt_trees};
ghost use Rattle.hoist_parts.specs.Statements.{all_hoisted, item_hoisted};

use crate::built::{both, copied};
use crate::functions::hoist_body;
use crate::keeping::Keeping;
use c_tree::{Name, RawFunction, RawItem, RawPrototype, RawStmt, RawTable};
use std::alloc::{AllocError, Global};

/// Returns the declaration or definition with every call of its statements whole, as `hoist_body` makes them; one
/// without statements stays the same.
///
/// # Errors
///
/// Those of `hoist_body`.
pub fn hoist_item(alloc: Global, raw: &RawItem) -> Result<RawItem, AllocError>
    ensures { IfOk result (λ i. raw_item_tree i ≡ item_hoisted (raw_item_tree raw.now)) }
{
    match raw {
        RawItem::Global { name, start } => Ok(RawItem::Global {
            name: copied(alloc, name)?,
            start: *start,
        }),
        RawItem::GlobalArray { name, words } => Ok(RawItem::GlobalArray {
            name: copied(alloc, name)?,
            words: *words,
        }),
        RawItem::Table(table) => {
            let name = copied(alloc, &table.name)?;
            let (name, members) = both(name, name_copies(alloc, &table.members))?;
            Ok(RawItem::Table(RawTable {
                name,
                size: table.size,
                members,
            }))
        }
        RawItem::Prototype(prototype) => {
            let name = copied(alloc, &prototype.name)?;
            let (name, params) = both(name, optional_names(alloc, &prototype.params))?;
            Ok(RawItem::Prototype(RawPrototype {
                gives: prototype.gives,
                name,
                params,
            }))
        }
        RawItem::Function(function) => {
            let name = copied(alloc, &function.name)?;
            let before = both(name, name_copies(alloc, &function.params))?;
            let ((name, params), body) = both(before, kept_body(alloc, &function.body))?;
            Ok(RawItem::Function(RawFunction {
                gives: function.gives,
                name,
                params,
                body,
            }))
        }
    }
}

// The statements that replace the body of a function.
fn kept_body(alloc: Global, body: &[RawStmt]) -> Result<Vec<RawStmt>, AllocError>
    ensures { IfOk result (λ ss. map raw_stmt_tree ss.items ≡ all_hoisted 0 (raw_stmt_trees body.now)) }
{
    let hoisted = hoist_body(alloc, body, Keeping::new(alloc))?;
    Ok(hoisted.into_statements())
}

// Copies of names.
fn name_copies(alloc: Global, raw: &[Name]) -> Result<Vec<Name>, AllocError>
    ensures { IfOk result (λ ns. map name_tree ns.items ≡ map name_tree raw.now) }
{
    let mut copies = Vec::with_capacity(alloc, raw.len())?;
    for name in raw {
        let copy = copied(alloc, name)?;
        copies.push(copy)?;
    }
    Ok(copies)
}

// A copy of an optional name.
fn optional_name(alloc: Global, raw: &Option<Name>) -> Result<Option<Name>, AllocError>
    ensures { IfOk result (λ n. option_map name_tree n ≡ option_map name_tree raw.now) }
{
    match raw {
        None => Ok(None),
        Some(name) => Ok(Some(copied(alloc, name)?)),
    }
}

// Copies of optional names.
fn optional_names(alloc: Global, raw: &[Option<Name>]) -> Result<Vec<Option<Name>>, AllocError>
    ensures { IfOk result (λ ns. map (option_map name_tree) ns.items ≡ map (option_map name_tree) raw.now) }
{
    let mut copies = Vec::with_capacity(alloc, raw.len())?;
    for name in raw {
        let copy = optional_name(alloc, name)?;
        copies.push(copy)?;
    }
    Ok(copies)
}
