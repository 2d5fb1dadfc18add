// The flat code of one function.

ghost use Rattle.std.specs.Prelude.{◌≡◌, ◌<◌, ◌≤◌, ◌+◌, ◌^◌, ◌++◌, IfOk, OnOk, length};
ghost use Rattle.c_tree.specs.Sizes.{scalars};
ghost use Rattle.c_tree.specs.Temporaries.{function_temporaries, stmts_temporaries};
ghost use Rattle.c_tree.specs.Views.{function_tree, stmt_trees};
ghost use Rattle.c_lower.specs.ProgramCode.{closing_code, function_ops, function_sizes, lowered_function};
ghost use Rattle.c_lower.specs.StmtCode.{stmts_code};

use crate::places::put;
use crate::sizes::size_of_stmts;
use crate::statements::{Context, put_stmts};
use c_tree::{Function, Stmt};
use cap_word::Words;
use flat_code::{FlatFunction, Op, Ops};
use std::alloc::{AllocError, Global};

// The operations after the body: an `int` function returns 0 there.
fn put_closing(code: &mut Vec<Op>, t: u32, gives: bool) -> Result<(), AllocError>
    ensures { OnOk result (code.new.items ≡ code.old.items ++ closing_code gives t) }
{
    if gives {
        put(code, Op::Const { d: t, value: 0 })?;
        put(code, Op::Return { s: Some(t) })
    } else {
        put(code, Op::Return { s: None })
    }
}

// The words of the variables, and one more variable of one word for each temporary.
fn variables(alloc: Global, sizes: &[u32], temporaries: u32) -> Result<Words, AllocError>
    ensures { IfOk result (λ words. words ≡ sizes.now ++ scalars temporaries) }
{
    let mut words = Vec::from_slice(alloc, sizes)?;
    for _ in 0..temporaries {
        words.push(1)?;
    }
    Ok(Words::new(words))
}

// The code of a function's body, whose first temporary is variable t.
fn body_code(alloc: Global, t: u32, body: &[Stmt]) -> Result<Vec<Op>, AllocError>
    requires { t + stmts_temporaries (stmt_trees body.now) < 2 ^ 32 }
    ensures { IfOk result (λ code. code.items ≡ stmts_code (stmt_trees body.now) 0 t 0 0) }
{
    let context = Context {
        t,
        leave: 0,
        skip: 0,
    };
    let mut sizes = Vec::new(alloc);
    size_of_stmts(&mut sizes, body)?;
    let mut code = Vec::new(alloc);
    put_stmts(alloc, &mut code, &mut sizes, context, body)?;
    Ok(code)
}

/// Returns the flat code of one function of a program, the same as in the result of `lower`.
///
/// # Errors
///
/// Memory ran out. A function of more than 2^32 operations is reported the same way.
pub fn lower_function(alloc: Global, function: &Function) -> Result<FlatFunction, AllocError>
    requires small { function_temporaries (function_tree function.now) ≤ 65536 }
    requires few { length (function_tree function.now).sizes ≤ 65536 }
    ensures code { IfOk result (λ flat. flat ≡ lowered_function (function_tree function.now)) }
    ensures numbered { IfOk result (λ flat. length flat.ops ≤ 2 ^ 32) }
{
    let t = function.sizes.len() as u32;
    let mut code = body_code(alloc, t, &function.body)?;
    put_closing(&mut code, t, function.gives)?;
    if code.len() > 4_294_967_296 {
        return Err(AllocError);
    }
    code.shrink_to_fit();
    Ok(FlatFunction {
        params: function.params,
        gives: function.gives,
        sizes: variables(alloc, &function.sizes, function.temporaries())?,
        ops: Ops::new(code),
    })
}
