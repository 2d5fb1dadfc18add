// The operations of expressions.

ghost use Rattle.std.specs.Prelude.{◌≡◌, ◌<◌, ◌+◌, ◌^◌, [], ◌∷◌, ◌++◌, OnOk, length};
ghost use Rattle.c_tree.specs.Temporaries.{expr_temporaries, operand_temporaries};
ghost use Rattle.c_tree.specs.Views.{expr_tree};
ghost use Rattle.c_lower.specs.ExprCode.{expr_code};
ghost use Rattle.c_lower.specs.Chains.{operand_code};

use crate::jumps::{close_jump, put_between, put_both, put_either, put_unless};
use crate::operators::{operator_for, put_unary};
use crate::places::{put, put_open};
use c_tree::{Expr, Infix};
use flat_code::Op;
use std::alloc::AllocError;

// The value of the expression in variable k, which is a temporary; it uses the temporaries from k on.
#[cycle(expressions)]
pub fn put_expr(code: &mut Vec<Op>, k: u32, expr: &Expr) -> Result<(), AllocError>
    requires { k + expr_temporaries (expr_tree expr.now) < 2 ^ 32 }
    ensures { OnOk result (code.new.items ≡ code.old.items ++ expr_code (expr_tree expr.now) (length code.old.items) k) }
{
    match expr {
        Expr::Number(value) => put(
            code,
            Op::Const {
                d: k,
                value: *value,
            },
        ),
        Expr::Local(x) => put(code, Op::Copy { d: k, s: *x }),
        Expr::Global(g) => put(code, Op::LoadGlobal { d: k, g: *g }),
        Expr::LocalElement { array, index } => {
            put_then(
                code,
                k,
                index,
                Op::LoadLocal {
                    d: k,
                    a: *array,
                    i: k,
                },
            )
        }
        Expr::GlobalElement { array, index } => {
            put_then(
                code,
                k,
                index,
                Op::LoadArray {
                    d: k,
                    a: *array,
                    i: k,
                },
            )
        }
        Expr::Unary { operator, operand } => {
            put_expr(code, k, operand)?;
            put_unary(code, k, *operator)
        }
        Expr::Parenthesized(inner) => put_expr(code, k, inner),
        Expr::Chain { first, rest } => {
            put_expr(code, k, first)?;
            for (operator, operand) in rest {
                put_operand(code, k, *operator, operand)?;
            }
            Ok(())
        }
        Expr::Conditional {
            condition,
            then,
            otherwise,
        } => {
            put_expr(code, k, condition)?;
            let test = put_open(code)?;
            put_expr(code, k, then)?;
            let jump = put_between(code, k, test)?;
            put_expr(code, k, otherwise)?;
            close_jump(code, jump, 0)
        }
    }
}

// An expression, and an operation after it.
#[cycle(expressions)]
pub fn put_then(code: &mut Vec<Op>, k: u32, expr: &Expr, op: Op) -> Result<(), AllocError>
    requires { k + expr_temporaries (expr_tree expr.now) < 2 ^ 32 }
    ensures { OnOk result (code.new.items ≡ code.old.items ++ (expr_code (expr_tree expr.now) (length code.old.items) k ++ op ∷ [])) }
{
    put_expr(code, k, expr)?;
    put(code, op)
}

// An operator and its right operand, when the value of the left one is in variable k.
#[cycle(expressions)]
fn put_operand(
    code: &mut Vec<Op>,
    k: u32,
    operator: Infix,
    operand: &Expr,
) -> Result<(), AllocError>
    requires { k + operand_temporaries operator (expr_temporaries (expr_tree operand.now)) < 2 ^ 32 }
    ensures { OnOk result (code.new.items ≡ code.old.items ++ operand_code operator (expr_tree operand.now) (length code.old.items) k) }
{
    match operator {
        Infix::Binary(operator) => {
            put_then(
                code,
                k + 1,
                operand,
                Op::Bin {
                    op: operator_for(operator),
                    d: k,
                    a: k,
                    b: k + 1,
                },
            )
        }
        Infix::LogicalAnd => {
            let test = put_open(code)?;
            put_expr(code, k, operand)?;
            put_both(code, k, test)
        }
        Infix::LogicalOr => {
            let jump = put_unless(code, k)?;
            put_expr(code, k, operand)?;
            put_either(code, k, jump)
        }
    }
}
