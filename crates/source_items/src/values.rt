// The value of an expression.

ghost use Rattle.std.specs.Prelude.{◌≡◌, ℕ, List, Ok, IfSome, MatchOption};
ghost use Rattle.c_tree.specs.Views.{expr_tree};
ghost use Rattle.c_mean.specs.Chains.{joined_value, IsDecided, IsOpen};
ghost use Rattle.c_mean.specs.Layout.{IsInRange};
ghost use Rattle.c_mean.specs.Values.{value};
ghost use Rattle.source_items.specs.Rows.{IsRows, or_index, rows_in};

use crate::rows::{Rows, element_of, word_of};
use c_mean::{decided, joined, unary};
use c_tree::{Expr, Infix};
use cap_word::TrapKind;

/// Returns the value of an expression over these names and globals, or its first trap. It recurses as deep as the
/// expression nests.
#[inline(always)]
pub fn evaluate(names: &Rows, globals: &Rows, expr: &Expr) -> Result<u32, TrapKind>
    requires names { IsRows names.now }
    requires globals { IsRows globals.now }
    requires in_range { IsInRange names.now.widths.now globals.now.widths.now (expr_tree expr.now) }
    ensures { result ≡ value (rows_in names.now) (rows_in globals.now) (expr_tree expr.now) }
{
    match operand(names, globals, expr) {
        Some(word) => Ok(word),
        None => Err(TrapKind::Index),
    }
}

/// Returns the value of an expression of at most two operators on numbers and names, or `None` for any other form. It
/// makes no call, so a caller that tries it before `composed` keeps the rows in registers.
#[inline(always)]
pub fn short_value(names: &Rows, globals: &Rows, expr: &Expr) -> Option<u32>
    requires names { IsRows names.now }
    requires globals { IsRows globals.now }
    requires in_range { IsInRange names.now.widths.now globals.now.widths.now (expr_tree expr.now) }
    ensures { IfSome result (λ word. value (rows_in names.now) (rows_in globals.now) (expr_tree expr.now) ≡ Ok word) }
{
    match expr {
        Expr::Chain { first, rest } => {
            if rest.len() != 1 {
                return None;
            }
            let (operator, right) = &rest[0];
            let left = pair(names, globals, inside(first))?;
            let right = single(names, globals, right)?;
            Some(joined(*operator, left, right))
        }
        _ => single(names, globals, expr),
    }
}

/// Returns the value of a binary operator on numbers or names, or of one of them; `None` for any other form.
#[inline(always)]
fn pair(names: &Rows, globals: &Rows, expr: &Expr) -> Option<u32>
    requires names { IsRows names.now }
    requires globals { IsRows globals.now }
    requires in_range { IsInRange names.now.widths.now globals.now.widths.now (expr_tree expr.now) }
    ensures { IfSome result (λ word. value (rows_in names.now) (rows_in globals.now) (expr_tree expr.now) ≡ Ok word) }
{
    match expr {
        Expr::Chain { first, rest } => {
            if rest.len() != 1 {
                return None;
            }
            let (operator, right) = &rest[0];
            let left = single(names, globals, first)?;
            let right = single(names, globals, right)?;
            Some(joined(*operator, left, right))
        }
        _ => single(names, globals, expr),
    }
}

/// Calls `short_value` without inlining it.
#[inline(never)]
fn short_chain(names: &Rows, globals: &Rows, expr: &Expr) -> Option<u32>
    requires names { IsRows names.now }
    requires globals { IsRows globals.now }
    requires in_range { IsInRange names.now.widths.now globals.now.widths.now (expr_tree expr.now) }
    ensures { IfSome result (λ word. value (rows_in names.now) (rows_in globals.now) (expr_tree expr.now) ≡ Ok word) }
{
    short_value(names, globals, expr)
}

/// Returns the expression in one pair of parentheses, or the expression itself if it has none.
#[inline(always)]
fn inside(expr: &Expr) -> &Expr
    ensures same { (names globals : List (List ℕ)) → value names globals (expr_tree result.now) ≡ value names globals (expr_tree expr.now) }
    ensures in_range { (sizes widths : List ℕ) → IsInRange sizes widths (expr_tree expr.now) → IsInRange sizes widths (expr_tree result.now) }
{
    match expr {
        Expr::Parenthesized(inner) => inner,
        _ => expr,
    }
}

/// Returns the value of a number or a name, or `None` for any other form.
#[inline(always)]
fn single(names: &Rows, globals: &Rows, expr: &Expr) -> Option<u32>
    requires names { IsRows names.now }
    requires globals { IsRows globals.now }
    requires in_range { IsInRange names.now.widths.now globals.now.widths.now (expr_tree expr.now) }
    ensures { IfSome result (λ word. value (rows_in names.now) (rows_in globals.now) (expr_tree expr.now) ≡ Ok word) }
{
    match expr {
        Expr::Number(number) => Some(*number),
        Expr::Local(x) => Some(word_of(names, *x)),
        Expr::Global(g) => Some(word_of(globals, *g)),
        _ => None,
    }
}

/// Returns the value of an expression, or `None` if an index is out of range. A number or a name needs no call.
#[cycle(operand)]
#[inline(always)]
fn operand(names: &Rows, globals: &Rows, expr: &Expr) -> Option<u32>
    requires names { IsRows names.now }
    requires globals { IsRows globals.now }
    requires in_range { IsInRange names.now.widths.now globals.now.widths.now (expr_tree expr.now) }
    ensures { or_index result ≡ value (rows_in names.now) (rows_in globals.now) (expr_tree expr.now) }
{
    match expr {
        Expr::Number(number) => Some(*number),
        Expr::Local(x) => Some(word_of(names, *x)),
        Expr::Global(g) => Some(word_of(globals, *g)),
        Expr::Chain { .. } => match short_chain(names, globals, expr) {
            Some(word) => Some(word),
            None => composed(names, globals, expr),
        },
        _ => composed(names, globals, expr),
    }
}

/// Returns the value of an expression of any form, or `None` if an index is out of range.
#[cycle(operand)]
#[inline(never)]
pub fn composed(names: &Rows, globals: &Rows, expr: &Expr) -> Option<u32>
    requires names { IsRows names.now }
    requires globals { IsRows globals.now }
    requires in_range { IsInRange names.now.widths.now globals.now.widths.now (expr_tree expr.now) }
    ensures { or_index result ≡ value (rows_in names.now) (rows_in globals.now) (expr_tree expr.now) }
{
    match expr {
        Expr::Number(number) => Some(*number),
        Expr::Local(x) => Some(word_of(names, *x)),
        Expr::Global(g) => Some(word_of(globals, *g)),
        Expr::LocalElement { array, index } => {
            let index = operand(names, globals, index)?;
            element_of(names, *array, index)
        }
        Expr::GlobalElement { array, index } => {
            let index = operand(names, globals, index)?;
            element_of(globals, *array, index)
        }
        Expr::Unary {
            operator,
            operand: inner,
        } => {
            let word = operand(names, globals, inner)?;
            Some(unary(*operator, word))
        }
        Expr::Parenthesized(inner) => operand(names, globals, inner),
        Expr::Chain { first, rest } => {
            let mut left = operand(names, globals, first)?;
            for (operator, right) in rest {
                if let Some(word) = decided(*operator, left) {
                    left = word;
                } else {
                    let right = operand(names, globals, right)?;
                    left = joined(*operator, left, right);
                }
            }
            Some(left)
        }
        Expr::Conditional {
            condition,
            then,
            otherwise,
        } => {
            let condition = operand(names, globals, condition)?;
            if condition != 0 {
                operand(names, globals, then)
            } else {
                operand(names, globals, otherwise)
            }
        }
    }
}
