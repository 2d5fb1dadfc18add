// The operations of declarations, assignments, tests and returns. Variable t is the first temporary.

ghost use Rattle.std.specs.Prelude.{◌≡◌, ◌<◌, ◌+◌, ◌^◌, ◌++◌, OnOk, length, map, option_map};
ghost use Rattle.c_tree.specs.Temporaries.{simple_temporaries, simples_temporaries, step_temporaries, condition_temporaries, returned_temporaries};
ghost use Rattle.c_tree.specs.Views.{expr_tree, right_tree, simple_tree};
ghost use Rattle.c_lower.specs.StmtCode.{simple_code, simples_code, step_code, test_code, return_code};

use crate::calls::{put_call, put_held, put_set};
use crate::expressions::{put_expr, put_then};
use crate::places::put;
use c_tree::{Expr, RightSide, Simple};
use flat_code::Op;
use std::alloc::{AllocError, Global};

pub fn put_simple(
    alloc: Global,
    code: &mut Vec<Op>,
    t: u32,
    simple: &Simple,
) -> Result<(), AllocError>
    requires { t + simple_temporaries (simple_tree simple.now) < 2 ^ 32 }
    ensures { OnOk result (code.new.items ≡ code.old.items ++ simple_code (simple_tree simple.now) (length code.old.items) t) }
{
    match simple {
        Simple::DeclareScalar { variable } => put(
            code,
            Op::Const {
                d: *variable,
                value: 0,
            },
        ),
        Simple::DeclareArray { variable, .. } => put(code, Op::Zero { a: *variable }),
        Simple::DeclareWith { variable, value } => put_set(alloc, code, t, *variable, value),
        Simple::SetLocal { variable, value } => put_set(alloc, code, t, *variable, value),
        Simple::SetGlobal { global, value } => {
            put_held(alloc, code, t, value)?;
            put(code, Op::StoreGlobal { g: *global, s: t })
        }
        Simple::SetLocalElement {
            array,
            index,
            value,
        } => {
            put_expr(code, t, index)?;
            put_held(alloc, code, t + 1, value)?;
            put(
                code,
                Op::StoreLocal {
                    a: *array,
                    i: t,
                    s: t + 1,
                },
            )
        }
        Simple::SetGlobalElement {
            array,
            index,
            value,
        } => {
            put_expr(code, t, index)?;
            put_held(alloc, code, t + 1, value)?;
            put(
                code,
                Op::StoreArray {
                    a: *array,
                    i: t,
                    s: t + 1,
                },
            )
        }
        Simple::Call(call) => put_call(alloc, code, t, None, call),
    }
}

pub fn put_simples(
    alloc: Global,
    code: &mut Vec<Op>,
    t: u32,
    simples: &[Simple],
) -> Result<(), AllocError>
    requires { t + simples_temporaries (map simple_tree simples.now) < 2 ^ 32 }
    ensures { OnOk result (code.new.items ≡ code.old.items ++ simples_code (map simple_tree simples.now) (length code.old.items) t) }
{
    for simple in simples {
        put_simple(alloc, code, t, simple)?;
    }
    Ok(())
}

pub fn put_step(
    alloc: Global,
    code: &mut Vec<Op>,
    t: u32,
    step: &Option<Simple>,
) -> Result<(), AllocError>
    requires { t + step_temporaries (option_map simple_tree step.now) < 2 ^ 32 }
    ensures { OnOk result (code.new.items ≡ code.old.items ++ step_code (option_map simple_tree step.now) (length code.old.items) t) }
{
    match step {
        None => Ok(()),
        Some(simple) => put_simple(alloc, code, t, simple),
    }
}

// The test of a `for`, if there is one, which jumps to operation `to` if its condition is 0.
pub fn put_test(
    code: &mut Vec<Op>,
    t: u32,
    to: u32,
    condition: &Option<Expr>,
) -> Result<(), AllocError>
    requires { t + condition_temporaries (option_map expr_tree condition.now) < 2 ^ 32 }
    ensures { OnOk result (code.new.items ≡ code.old.items ++ test_code (option_map expr_tree condition.now) (length code.old.items) t to) }
{
    match condition {
        None => Ok(()),
        Some(expr) => put_then(code, t, expr, Op::JumpZero { s: t, to }),
    }
}

pub fn put_return(
    alloc: Global,
    code: &mut Vec<Op>,
    t: u32,
    value: &Option<RightSide>,
) -> Result<(), AllocError>
    requires { t + returned_temporaries (option_map right_tree value.now) < 2 ^ 32 }
    ensures { OnOk result (code.new.items ≡ code.old.items ++ return_code (option_map right_tree value.now) (length code.old.items) t) }
{
    match value {
        None => put(code, Op::Return { s: None }),
        Some(value) => {
            put_held(alloc, code, t, value)?;
            put(code, Op::Return { s: Some(t) })
        }
    }
}
