// Statements before which other statements go.
ghost use Rattle.std.specs.Prelude.{◌≡◌, ℕ, option_map};
ghost use Rattle.c_tree.specs.RawViews.{raw_expr_tree, raw_expr_trees, raw_simple_tree, raw_stmt_tree};
ghost use Rattle.hoist_parts.specs.Expressions.{arguments_before};
ghost use Rattle.hoist_parts.specs.Statements.{value_before, simple_before, returned_before, hoisted};
ghost use Rattle.hoist_rules.specs.Singles.{are_some, are_many};

use c_tree::{RawExpr, RawSimple, RawStmt};
use hoist_parts::{calls_among, holds_call, holds_nested, is_left_alone, is_spawn, needs_name};

// Whether statements go before a call, of which the first argument may keep its place.
fn move_call(stays: bool, arguments: &[RawExpr]) -> bool
    ensures { (k : ℕ) → result ≡ are_some (arguments_before stays k (raw_expr_trees arguments.now)) }
{
    if stays && 0 < arguments.len() {
        0 < calls_among(&arguments[1..])
    } else {
        0 < calls_among(arguments)
    }
}

// Whether statements go before a right side or a returned value.
#[tactic(auto, using(crate::proofs::MovedCalls::moving))]
fn moves_call(value: &RawExpr) -> bool
    ensures { (k : ℕ) → result ≡ are_some (value_before k (raw_expr_tree value.now)) }
{
    match value {
        RawExpr::Call { name, arguments } => move_call(is_spawn(name), arguments),
        RawExpr::TableCall {
            index,
            argument,
            ..
        } => holds_call(index) || holds_call(argument),
        RawExpr::Chain { first, rest } => {
            if rest.is_empty() {
                moves_call(first)
            } else {
                holds_call(value)
            }
        }
        _ => holds_call(value),
    }
}

// Whether statements go before a declaration, an assignment or a call.
#[tactic(auto, using(crate::proofs::MovedCalls::moving))]
fn simple_moves(raw: &RawSimple) -> bool
    ensures { (k : ℕ) → result ≡ are_some (simple_before k (raw_simple_tree raw.now)) }
{
    match raw {
        RawSimple::DeclareScalar { .. } | RawSimple::DeclareArray { .. } => false,
        RawSimple::DeclareWith { value, .. } => moves_call(value),
        RawSimple::Set { value, .. } => moves_call(value),
        RawSimple::SetElement { index, value, .. } => {
            holds_call(index)
                || needs_name(holds_nested(value), is_left_alone(index))
                || moves_call(value)
        }
        RawSimple::Call { name, arguments } => move_call(is_spawn(name), arguments),
        RawSimple::TableCall {
            index,
            argument,
            ..
        } => holds_call(index) || holds_call(argument),
    }
}

// Whether statements go before a `return`.
fn returned_moves(value: &Option<RawExpr>) -> bool
    ensures { (k : ℕ) → result ≡ are_some (returned_before k (option_map raw_expr_tree value.now)) }
{
    match value {
        Some(value) => moves_call(value),
        None => false,
    }
}

/// Returns whether statements go before a statement, so that more than one replaces it.
#[tactic(auto, using(crate::proofs::MovedCalls::moving))]
pub(crate) fn stmt_moves(raw: &RawStmt) -> bool
    ensures { (k : ℕ) → result ≡ are_many (hoisted k (raw_stmt_tree raw.now)) }
{
    match raw {
        RawStmt::Simple(simple) => simple_moves(simple),
        RawStmt::If { condition, .. } => holds_call(condition),
        RawStmt::IfElse { condition, .. } => holds_call(condition),
        RawStmt::Return { value, .. } => returned_moves(value),
        RawStmt::Empty
        | RawStmt::Block(_)
        | RawStmt::While { .. }
        | RawStmt::For { .. }
        | RawStmt::Break { .. }
        | RawStmt::Continue { .. } => false,
    }
}
