// Calls that aren't whole.
ghost use Rattle.std.specs.Prelude.{◌≡◌, map, option_map};
ghost use Rattle.c_tree.specs.RawViews.{raw_expr_tree, raw_expr_trees, raw_simple_tree, raw_stmt_tree, raw_stmt_trees, raw_item_tree, raw_item_trees};
ghost use Rattle.c_parse.specs.NestedCalls.{earlier, first_call, first_call_of, nested_in_value, nested_in_simple, nested_in_simples, nested_in_condition, nested_in_step, nested_in_return, nested_in_stmt, nested_in_stmts, nested_in_item, nested_in_items};

use c_tree::{RawExpr, RawItem, RawSimple, RawStmt};

/// Returns the place of the name of the first call that isn't whole, if there is one.
pub(crate) fn nested_in_items(items: &[RawItem]) -> Option<u32>
    ensures { result ≡ nested_in_items (raw_item_trees items.now) }
{
    let mut found = None;
    for item in items {
        found = first(found, nested_in_item(item));
    }
    found
}

fn nested_in_item(item: &RawItem) -> Option<u32>
    ensures { result ≡ nested_in_item (raw_item_tree item.now) }
{
    match item {
        RawItem::Function(function) => nested_in_stmts(&function.body),
        RawItem::Global { .. }
        | RawItem::GlobalArray { .. }
        | RawItem::Table(_)
        | RawItem::Prototype(_) => None,
    }
}

#[cycle(nested)]
fn nested_in_stmts(stmts: &[RawStmt]) -> Option<u32>
    ensures { result ≡ nested_in_stmts (raw_stmt_trees stmts.now) }
{
    let mut found = None;
    for stmt in stmts {
        found = first(found, nested_in_stmt(stmt));
    }
    found
}

#[cycle(nested)]
fn nested_in_stmt(stmt: &RawStmt) -> Option<u32>
    ensures { result ≡ nested_in_stmt (raw_stmt_tree stmt.now) }
{
    match stmt {
        RawStmt::Simple(simple) => nested_in_simple(simple),
        RawStmt::Empty | RawStmt::Break { .. } | RawStmt::Continue { .. } => None,
        RawStmt::Block(stmts) => nested_in_stmts(stmts),
        RawStmt::If { condition, then } => first(first_call(condition), nested_in_stmt(then)),
        RawStmt::IfElse {
            condition,
            then,
            otherwise,
        } => {
            first(
                first_call(condition),
                first(nested_in_stmt(then), nested_in_stmt(otherwise)),
            )
        }
        RawStmt::While { condition, body } => first(first_call(condition), nested_in_stmt(body)),
        RawStmt::For { parts, body } => {
            first(
                nested_in_simples(&parts.init),
                first(
                    nested_in_condition(&parts.condition),
                    first(nested_in_step(&parts.step), nested_in_stmt(body)),
                ),
            )
        }
        RawStmt::Return { value, .. } => nested_in_return(value),
    }
}

/// Returns the first of the two that exists.
pub(crate) fn first(one: Option<u32>, other: Option<u32>) -> Option<u32>
    ensures { result ≡ earlier one other }
{
    match one {
        Some(place) => Some(place),
        None => other,
    }
}

pub(crate) fn nested_in_condition(condition: &Option<RawExpr>) -> Option<u32>
    ensures { result ≡ nested_in_condition (option_map raw_expr_tree condition.now) }
{
    match condition {
        Some(condition) => first_call(condition),
        None => None,
    }
}

fn nested_in_return(value: &Option<RawExpr>) -> Option<u32>
    ensures { result ≡ nested_in_return (option_map raw_expr_tree value.now) }
{
    match value {
        Some(value) => nested_in_value(value),
        None => None,
    }
}

pub(crate) fn nested_in_step(step: &Option<RawSimple>) -> Option<u32>
    ensures { result ≡ nested_in_step (option_map raw_simple_tree step.now) }
{
    match step {
        Some(step) => nested_in_simple(step),
        None => None,
    }
}

pub(crate) fn nested_in_simples(simples: &[RawSimple]) -> Option<u32>
    ensures { result ≡ nested_in_simples (map raw_simple_tree simples.now) }
{
    let mut found = None;
    for simple in simples {
        found = first(found, nested_in_simple(simple));
    }
    found
}

fn nested_in_simple(simple: &RawSimple) -> Option<u32>
    ensures { result ≡ nested_in_simple (raw_simple_tree simple.now) }
{
    match simple {
        RawSimple::DeclareScalar { .. } | RawSimple::DeclareArray { .. } => None,
        RawSimple::DeclareWith { value, .. } | RawSimple::Set { value, .. } => nested_in_value(
            value,
        ),
        RawSimple::SetElement { index, value, .. } => first(
            first_call(index),
            nested_in_value(value),
        ),
        RawSimple::Call { arguments, .. } => first_call_of(arguments),
        RawSimple::TableCall {
            index,
            argument,
            ..
        } => first(first_call(index), first_call(argument)),
    }
}

// In a right side or a returned value, which may be a call.
fn nested_in_value(value: &RawExpr) -> Option<u32>
    ensures { result ≡ nested_in_value (raw_expr_tree value.now) }
{
    match value {
        RawExpr::Call { arguments, .. } => first_call_of(arguments),
        RawExpr::TableCall {
            index,
            argument,
            ..
        } => first(first_call(index), first_call(argument)),
        RawExpr::Number(_) | RawExpr::Name(_) => None,
        RawExpr::Element { index, .. } => first_call(index),
        RawExpr::Unary { operand, .. } => first_call(operand),
        RawExpr::Parenthesized(inner) => first_call(inner),
        RawExpr::Chain { first: left, rest } => {
            if rest.is_empty() {
                nested_in_value(left)
            } else {
                first_call(value)
            }
        }
        RawExpr::Conditional {
            condition,
            then,
            otherwise,
        } => {
            first(
                first_call(condition),
                first(first_call(then), first_call(otherwise)),
            )
        }
    }
}

// The place of the name of the first call in the expression.
fn first_call(expr: &RawExpr) -> Option<u32>
    ensures { result ≡ first_call (raw_expr_tree expr.now) }
{
    match expr {
        RawExpr::Number(_) | RawExpr::Name(_) => None,
        RawExpr::Element { index, .. } => first_call(index),
        RawExpr::Unary { operand, .. } => first_call(operand),
        RawExpr::Parenthesized(inner) => first_call(inner),
        RawExpr::Chain { first: left, rest } => {
            let mut found = first_call(left);
            for (_, operand) in rest {
                found = first(found, first_call(operand));
            }
            found
        }
        RawExpr::Conditional {
            condition,
            then,
            otherwise,
        } => {
            first(
                first_call(condition),
                first(first_call(then), first_call(otherwise)),
            )
        }
        RawExpr::Call { name, .. } | RawExpr::TableCall { name, .. } => Some(name.at),
    }
}

fn first_call_of(exprs: &[RawExpr]) -> Option<u32>
    ensures { result ≡ first_call_of (raw_expr_trees exprs.now) }
{
    let mut found = None;
    for expr in exprs {
        found = first(found, first_call(expr));
    }
    found
}
