// Calls in the parentheses of a `for` that aren't whole.
ghost use Rattle.std.specs.Prelude.{◌≡◌};
ghost use Rattle.c_tree.specs.RawViews.{raw_stmt_tree, raw_stmt_trees, raw_item_tree, raw_item_trees};
ghost use Rattle.c_parse.specs.ForParts.{nested_in_for, nested_in_all_for, nested_in_item_for, nested_in_fors};

use crate::nested_calls::{first, nested_in_condition, nested_in_simples, nested_in_step};
use c_tree::{RawItem, RawStmt};

/// Returns the place of the name of the first call in the parentheses of a `for` that isn't whole, if there
/// is one.
pub(crate) fn nested_in_fors(items: &[RawItem]) -> Option<u32>
    ensures { result ≡ nested_in_fors (raw_item_trees items.now) }
{
    let mut found = None;
    for item in items {
        found = first(found, nested_in_item_for(item));
    }
    found
}

fn nested_in_item_for(item: &RawItem) -> Option<u32>
    ensures { result ≡ nested_in_item_for (raw_item_tree item.now) }
{
    match item {
        RawItem::Function(function) => nested_in_all_for(&function.body),
        RawItem::Global { .. }
        | RawItem::GlobalArray { .. }
        | RawItem::Table(_)
        | RawItem::Prototype(_) => None,
    }
}

#[cycle(nested_for)]
fn nested_in_all_for(stmts: &[RawStmt]) -> Option<u32>
    ensures { result ≡ nested_in_all_for (raw_stmt_trees stmts.now) }
{
    let mut found = None;
    for stmt in stmts {
        found = first(found, nested_in_for(stmt));
    }
    found
}

#[cycle(nested_for)]
fn nested_in_for(stmt: &RawStmt) -> Option<u32>
    ensures { result ≡ nested_in_for (raw_stmt_tree stmt.now) }
{
    match stmt {
        RawStmt::Simple(_)
        | RawStmt::Empty
        | RawStmt::Break { .. }
        | RawStmt::Continue { .. }
        | RawStmt::Return { .. } => None,
        RawStmt::Block(stmts) => nested_in_all_for(stmts),
        RawStmt::If { then, .. } => nested_in_for(then),
        RawStmt::IfElse {
            then,
            otherwise,
            ..
        } => first(nested_in_for(then), nested_in_for(otherwise)),
        RawStmt::While { body, .. } => nested_in_for(body),
        RawStmt::For { parts, body } => {
            first(
                nested_in_simples(&parts.init),
                first(
                    nested_in_condition(&parts.condition),
                    first(nested_in_step(&parts.step), nested_in_for(body)),
                ),
            )
        }
    }
}
