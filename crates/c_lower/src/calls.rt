// The operations of calls and of right sides.

ghost use Rattle.std.specs.Prelude.{◌≡◌, ◌<◌, ◌+◌, ◌^◌, ◌++◌, IfOk, OnOk, length, map};
ghost use Rattle.c_tree.specs.Temporaries.{arguments_temporaries, call_temporaries, right_temporaries, held_temporaries};
ghost use Rattle.c_tree.specs.Views.{expr_tree, call_tree, right_tree};
ghost use Rattle.c_lower.specs.CallCode.{arguments_code, arguments_in, call_code, set_code, held_code};

use crate::expressions::{put_expr, put_then};
use crate::places::put;
use c_tree::{Call, Expr, RightSide};
use cap_word::Words;
use flat_code::Op;
use std::alloc::{AllocError, Global};

// Arguments from left to right, into the temporaries from variable k on; returns these variables.
fn put_arguments(
    alloc: Global,
    code: &mut Vec<Op>,
    k: u32,
    arguments: &[Expr],
) -> Result<Words, AllocError>
    requires { k + arguments_temporaries 0 (map expr_tree arguments.now) < 2 ^ 32 }
    ensures code { OnOk result (code.new.items ≡ code.old.items ++ arguments_code (map expr_tree arguments.now) (length code.old.items) k) }
    ensures variables { IfOk result (λ words. words ≡ arguments_in (map expr_tree arguments.now) k) }
{
    let mut variables = Vec::new(alloc);
    for (index, argument) in arguments.iter().enumerate() {
        let variable = k + index as u32;
        put_expr(code, variable, argument)?;
        variables.push(variable)?;
    }
    Ok(Words::new(variables))
}

// A call; its index and arguments go to the temporaries from variable k on, and its result, if it is
// used, to variable d.
pub fn put_call(
    alloc: Global,
    code: &mut Vec<Op>,
    k: u32,
    d: Option<u32>,
    call: &Call,
) -> Result<(), AllocError>
    requires { k + call_temporaries (call_tree call.now) < 2 ^ 32 }
    ensures { OnOk result (code.new.items ≡ code.old.items ++ call_code (call_tree call.now) (length code.old.items) k d) }
{
    match call {
        Call::Function {
            site,
            function,
            arguments,
        } => {
            let args = put_arguments(alloc, code, k, arguments)?;
            put(
                code,
                Op::Call {
                    site: *site,
                    d,
                    f: *function,
                    args,
                },
            )
        }
        Call::Table {
            site,
            table,
            index,
            argument,
        } => {
            put_expr(code, k, index)?;
            put_then(
                code,
                k + 1,
                argument,
                Op::CallTable {
                    site: *site,
                    d,
                    t: *table,
                    i: k,
                    s: k + 1,
                },
            )
        }
        Call::Spawn {
            site,
            function,
            argument,
        } => {
            put_then(
                code,
                k,
                argument,
                Op::Spawn {
                    site: *site,
                    d,
                    f: *function,
                    s: k,
                },
            )
        }
        Call::Modelled {
            site,
            call,
            arguments,
        } => {
            let args = put_arguments(alloc, code, k, arguments)?;
            put(
                code,
                Op::Model {
                    site: *site,
                    d,
                    n: call.number(),
                    args,
                },
            )
        }
    }
}

// A right side that goes to variable x, through variable k if it is a value.
pub fn put_set(
    alloc: Global,
    code: &mut Vec<Op>,
    k: u32,
    x: u32,
    value: &RightSide,
) -> Result<(), AllocError>
    requires { k + right_temporaries (right_tree value.now) < 2 ^ 32 }
    ensures { OnOk result (code.new.items ≡ code.old.items ++ set_code (right_tree value.now) (length code.old.items) k x) }
{
    match value {
        RightSide::Expr(expr) => put_then(code, k, expr, Op::Copy { d: x, s: k }),
        RightSide::Call(call) => put_call(alloc, code, k, Some(x), call),
    }
}

// A right side that goes to the temporary k.
pub fn put_held(
    alloc: Global,
    code: &mut Vec<Op>,
    k: u32,
    value: &RightSide,
) -> Result<(), AllocError>
    requires { k + held_temporaries (right_tree value.now) < 2 ^ 32 }
    ensures { OnOk result (code.new.items ≡ code.old.items ++ held_code (right_tree value.now) (length code.old.items) k) }
{
    match value {
        RightSide::Expr(expr) => put_expr(code, k, expr),
        RightSide::Call(call) => put_call(alloc, code, k, Some(k), call),
    }
}
