// Which expressions contain a call.
ghost use Rattle.std.specs.Prelude.{◌≡◌, ◌≤◌, ◌+◌, ◌&&◌, ◌||◌, not};
ghost use Rattle.c_tree.specs.RawViews.{name_tree, raw_expr_tree, raw_expr_trees};
ghost use Rattle.hoist_parts.specs.Calls.{holds_call, hold_call, holds_nested, is_left_alone, is_spawn};
ghost use Rattle.hoist_parts.specs.Arguments.{calls_among};
ghost use Rattle.hoist_parts.specs.Expressions.{one_if};

use c_tree::{Name, RawExpr};

/// Returns whether the expression contains a call.
pub fn holds_call(expr: &RawExpr) -> bool
    ensures { result ≡ holds_call (raw_expr_tree expr.now) }
{
    match expr {
        RawExpr::Number(_) | RawExpr::Name(_) => false,
        RawExpr::Element { index, .. } => holds_call(index),
        RawExpr::Unary { operand, .. } => holds_call(operand),
        RawExpr::Parenthesized(inner) => holds_call(inner),
        RawExpr::Chain { first, rest } => {
            let mut held = holds_call(first);
            for (_, operand) in rest {
                held = held || holds_call(operand);
            }
            held
        }
        RawExpr::Conditional {
            condition,
            then,
            otherwise,
        } => holds_call(condition) || holds_call(then) || holds_call(otherwise),
        RawExpr::Call { .. } | RawExpr::TableCall { .. } => true,
    }
}

// Whether one of them contains a call.
fn hold_call(exprs: &[RawExpr]) -> bool
    ensures { result ≡ hold_call (raw_expr_trees exprs.now) }
{
    let mut held = false;
    for expr in exprs {
        held = held || holds_call(expr);
    }
    held
}

/// Returns how many of them contain a call.
pub fn calls_among(exprs: &[RawExpr]) -> usize
    ensures { result ≡ calls_among (raw_expr_trees exprs.now) }
{
    let mut calls = 0;
    for expr in exprs {
        if holds_call(expr) {
            calls += 1;
        }
    }
    calls
}

/// Returns how many of those after one contain a call, if `calls` of these and it do.
pub fn calls_after(calls: usize, one: &RawExpr) -> usize
    requires { one_if (holds_call (raw_expr_tree one.now)) ≤ calls }
    ensures { calls ≡ one_if (holds_call (raw_expr_tree one.now)) + result }
{
    if holds_call(one) { calls - 1 } else { calls }
}

/// Returns whether a right side or a returned value contains a call that isn't whole.
pub fn holds_nested(value: &RawExpr) -> bool
    ensures { result ≡ holds_nested (raw_expr_tree value.now) }
{
    match value {
        RawExpr::Call { arguments, .. } => hold_call(arguments),
        RawExpr::TableCall {
            index,
            argument,
            ..
        } => holds_call(index) || holds_call(argument),
        RawExpr::Chain { first, rest } => {
            if rest.is_empty() {
                holds_nested(first)
            } else {
                holds_call(value)
            }
        }
        _ => holds_call(value),
    }
}

/// Returns whether a part needs no name: a number, or a call, which is replaced by the name of its
/// result.
pub fn is_left_alone(expr: &RawExpr) -> bool
    ensures { result ≡ is_left_alone (raw_expr_tree expr.now) }
{
    match expr {
        RawExpr::Number(_) | RawExpr::Call { .. } | RawExpr::TableCall { .. } => true,
        RawExpr::Chain { first, rest } => rest.is_empty() && is_left_alone(first),
        _ => false,
    }
}

/// Returns whether a call of this name starts a thread.
pub fn is_spawn(name: &Name) -> bool
    ensures { result ≡ is_spawn (name_tree name.now) }
{
    name.text.as_slice() == b"spawn".as_slice()
}

/// Returns whether one of two contains a call.
pub fn either_holds_call(one: &RawExpr, other: &RawExpr) -> bool
    ensures { result ≡ (holds_call (raw_expr_tree one.now) || holds_call (raw_expr_tree other.now)) }
{
    holds_call(one) || holds_call(other)
}

/// Returns whether a part before others gets a name.
pub fn needs_name(is_later_call: bool, is_alone: bool) -> bool
    ensures { result ≡ (is_later_call && not is_alone) }
{
    is_later_call && !is_alone
}
