// The operations of statements.

ghost use Rattle.std.specs.Prelude.{◌≡◌, ℕ, ◌<◌, ◌+◌, ◌^◌, List, [], ◌∷◌, ◌++◌, IfOk, OnOk, length, option_map};
ghost use Rattle.c_tree.specs.Temporaries.{expr_temporaries, stmt_temporaries, stmts_temporaries};
ghost use Rattle.c_tree.specs.Views.{expr_tree, simple_tree, stmt_tree, stmt_trees};
ghost use Rattle.flat_code.specs.declared.operations.Op.{Op};
ghost use Rattle.c_lower.specs.ExprCode.{expr_size, expr_code};
ghost use Rattle.c_lower.specs.StmtCode.{step_size, test_size, stmt_code, stmts_code};
ghost use Rattle.c_lower.specs.StmtSizes.{stmt_sizes, stmts_sizes};

use crate::expressions::put_expr;
use crate::places::{place_after, put, sum};
use crate::simples::{put_return, put_simple, put_simples, put_step, put_test};
use crate::sizes::{add_step, add_test, last_size};
use c_tree::{Expr, Simple, Stmt};
use flat_code::Op;
use std::alloc::{AllocError, Global};

// The context of a statement's code: its function and the loop around it.
#[derive(Clone, Copy)]
pub struct Context {
    // The variable of the function's first temporary.
    pub t: u32,
    // The target of `break`, and the target of `continue`.
    pub leave: u32,
    pub skip: u32,
}

// A condition, and a jump that skips `size` and `more` operations if it is 0. Returns the jump's target.
fn put_condition(
    code: &mut Vec<Op>,
    t: u32,
    condition: &Expr,
    size: u32,
    more: u32,
) -> Result<u32, AllocError>
    requires { t + expr_temporaries (expr_tree condition.now) < 2 ^ 32 }
    ensures code { IfOk result (λ to. code.new.items ≡ code.old.items ++ (expr_code (expr_tree condition.now) (length code.old.items) t ++ Op.JumpZero t to ∷ [])) }
    ensures to { IfOk result (λ to. to ≡ length code.old.items + expr_size (expr_tree condition.now) + size + more) }
{
    put_expr(code, t, condition)?;
    let to = place_after(code, size, more)?;
    put(code, Op::JumpZero { s: t, to })?;
    Ok(to)
}

// A jump that skips this number of operations.
fn put_jump(code: &mut Vec<Op>, size: u32) -> Result<(), AllocError>
    ensures { OnOk result (code.new.items ≡ code.old.items ++ Op.Jump (length code.old.items + size + 1) ∷ []) }
{
    let to = place_after(code, size, 1)?;
    put(code, Op::Jump { to })
}

// The context of the body of a `for` whose turns begin at the end of the code.
fn in_turn(
    code: &Vec<Op>,
    t: u32,
    condition: &Option<Expr>,
    body_size: u32,
    step: &Option<Simple>,
) -> Result<Context, AllocError>
    ensures t { IfOk result (λ inside. inside.t ≡ t) }
    ensures skip { IfOk result (λ inside. inside.skip ≡ length code.now.items + test_size (option_map expr_tree condition.now) + body_size) }
    ensures leave { IfOk result (λ inside. inside.leave ≡ inside.skip + step_size (option_map simple_tree step.now) + 1) }
{
    let skip = add_test(place_after(code, body_size, 0)?, condition)?;
    let leave = add_step(sum(skip, 1)?, step)?;
    Ok(Context { t, leave, skip })
}

// `sizes` ends with the sizes of the statements here that jumps skip; they are removed.
#[cycle(statements)]
fn put_stmt(
    alloc: Global,
    code: &mut Vec<Op>,
    sizes: &mut Vec<u32>,
    context: Context,
    stmt: &Stmt,
) -> Result<(), AllocError>
    requires { context.t + stmt_temporaries (stmt_tree stmt.now) < 2 ^ 32 }
    ensures { OnOk result ((rest : List ℕ) → sizes.old.items ≡ rest ++ stmt_sizes (stmt_tree stmt.now) → (code.new.items ≡ code.old.items ++ stmt_code (stmt_tree stmt.now) (length code.old.items) context.t context.leave context.skip) × (sizes.new.items ≡ rest)) }
{
    let t = context.t;
    match stmt {
        Stmt::Simple(simple) => put_simple(alloc, code, t, simple),
        Stmt::Empty => Ok(()),
        Stmt::Block(stmts) => put_stmts(alloc, code, sizes, context, stmts),
        Stmt::If { condition, then } => {
            put_condition(code, t, condition, last_size(sizes), 1)?;
            put_stmt(alloc, code, sizes, context, then)
        }
        Stmt::IfElse {
            condition,
            then,
            otherwise,
        } => {
            put_condition(code, t, condition, last_size(sizes), 2)?;
            put_stmt(alloc, code, sizes, context, then)?;
            put_jump(code, last_size(sizes))?;
            put_stmt(alloc, code, sizes, context, otherwise)
        }
        Stmt::While { condition, body } => {
            let skip = place_after(code, 0, 0)?;
            let leave = put_condition(code, t, condition, last_size(sizes), 2)?;
            put_stmt(alloc, code, sizes, Context { t, leave, skip }, body)?;
            put(code, Op::Jump { to: skip })
        }
        Stmt::For { parts, body } => {
            put_simples(alloc, code, t, &parts.init)?;
            let turn = place_after(code, 0, 0)?;
            let inside = in_turn(code, t, &parts.condition, last_size(sizes), &parts.step)?;
            put_test(code, t, inside.leave, &parts.condition)?;
            put_stmt(alloc, code, sizes, inside, body)?;
            put_step(alloc, code, t, &parts.step)?;
            put(code, Op::Jump { to: turn })
        }
        Stmt::Break => put(code, Op::Jump { to: context.leave }),
        Stmt::Continue => put(code, Op::Jump { to: context.skip }),
        Stmt::Return(value) => put_return(alloc, code, t, value),
    }
}

// A list of statements.
#[cycle(statements)]
pub fn put_stmts(
    alloc: Global,
    code: &mut Vec<Op>,
    sizes: &mut Vec<u32>,
    context: Context,
    stmts: &[Stmt],
) -> Result<(), AllocError>
    requires { context.t + stmts_temporaries (stmt_trees stmts.now) < 2 ^ 32 }
    ensures { OnOk result ((rest : List ℕ) → sizes.old.items ≡ rest ++ stmts_sizes (stmt_trees stmts.now) → (code.new.items ≡ code.old.items ++ stmts_code (stmt_trees stmts.now) (length code.old.items) context.t context.leave context.skip) × (sizes.new.items ≡ rest)) }
{
    for stmt in stmts {
        put_stmt(alloc, code, sizes, context, stmt)?;
    }
    Ok(())
}
