// The number of operations in the code of a tree. Each statement is counted once, before any code is written, and the
// sizes of those that a jump skips are kept in a list, so the jump can be written before them.

ghost use Rattle.std.specs.Prelude.{◌≡◌, ℕ, ◌+◌, List, [], ◌∷◌, ◌++◌, IfOk, OnOk, map, option_map};
ghost use Rattle.c_tree.specs.Views.{expr_tree, call_tree, right_tree, simple_tree, stmt_tree, stmt_trees};
ghost use Rattle.c_lower.specs.ExprCode.{expr_size};
ghost use Rattle.c_lower.specs.CallCode.{arguments_size, call_size, set_size, held_size};
ghost use Rattle.c_lower.specs.StmtCode.{simple_size, simples_size, step_size, test_size, return_size, stmt_size, stmts_size};
ghost use Rattle.c_lower.specs.StmtSizes.{stmt_sizes, stmts_sizes};

use crate::operators::{size_of_infix, size_of_unary};
use crate::places::sum;
use c_tree::{Call, Expr, ForParts, RightSide, Simple, Stmt};
use std::alloc::AllocError;

// `size` plus the number of operations of an expression. The functions after it add the sizes of what they are named
// after.
#[cycle(expressions)]
fn add_expr(size: u32, expr: &Expr) -> Result<u32, AllocError>
    ensures { IfOk result (λ n. n ≡ size + expr_size (expr_tree expr.now)) }
{
    match expr {
        Expr::Number(_) | Expr::Local(_) | Expr::Global(_) => sum(size, 1),
        Expr::LocalElement { index, .. } | Expr::GlobalElement { index, .. } => {
            add_more(size, 1, index)
        }
        Expr::Unary { operator, operand } => add_more(size, size_of_unary(*operator), operand),
        Expr::Parenthesized(inner) => add_expr(size, inner),
        Expr::Chain { first, rest } => {
            let mut size = add_expr(size, first)?;
            for (operator, operand) in rest {
                size = add_more(size, size_of_infix(*operator), operand)?;
            }
            Ok(size)
        }
        Expr::Conditional {
            condition,
            then,
            otherwise,
        } => {
            let size = add_more(size, 2, condition)?;
            add_expr(add_expr(size, then)?, otherwise)
        }
    }
}

// The same plus `more` operations of the expression.
#[cycle(expressions)]
fn add_more(size: u32, more: u32, expr: &Expr) -> Result<u32, AllocError>
    ensures { IfOk result (λ n. n ≡ size + more + expr_size (expr_tree expr.now)) }
{
    add_expr(sum(size, more)?, expr)
}

fn add_arguments(mut size: u32, arguments: &[Expr]) -> Result<u32, AllocError>
    ensures { IfOk result (λ n. n ≡ size + arguments_size (map expr_tree arguments.now)) }
{
    for argument in arguments {
        size = add_expr(size, argument)?;
    }
    Ok(size)
}

fn add_call(size: u32, call: &Call) -> Result<u32, AllocError>
    ensures { IfOk result (λ n. n ≡ size + call_size (call_tree call.now)) }
{
    let size = sum(size, 1)?;
    match call {
        Call::Function { arguments, .. } | Call::Modelled { arguments, .. } => {
            add_arguments(size, arguments)
        }
        Call::Table {
            index,
            argument,
            ..
        } => add_expr(add_expr(size, index)?, argument),
        Call::Spawn { argument, .. } => add_expr(size, argument),
    }
}

fn add_set(size: u32, value: &RightSide) -> Result<u32, AllocError>
    ensures { IfOk result (λ n. n ≡ size + set_size (right_tree value.now)) }
{
    match value {
        RightSide::Expr(expr) => add_more(size, 1, expr),
        RightSide::Call(call) => add_call(size, call),
    }
}

fn add_held(size: u32, value: &RightSide) -> Result<u32, AllocError>
    ensures { IfOk result (λ n. n ≡ size + held_size (right_tree value.now)) }
{
    match value {
        RightSide::Expr(expr) => add_expr(size, expr),
        RightSide::Call(call) => add_call(size, call),
    }
}

fn add_simple(size: u32, simple: &Simple) -> Result<u32, AllocError>
    ensures { IfOk result (λ n. n ≡ size + simple_size (simple_tree simple.now)) }
{
    match simple {
        Simple::DeclareScalar { .. } | Simple::DeclareArray { .. } => sum(size, 1),
        Simple::DeclareWith { value, .. } | Simple::SetLocal { value, .. } => add_set(size, value),
        Simple::SetGlobal { value, .. } => add_held(sum(size, 1)?, value),
        Simple::SetLocalElement { index, value, .. }
        | Simple::SetGlobalElement { index, value, .. } => {
            add_held(add_more(size, 1, index)?, value)
        }
        Simple::Call(call) => add_call(size, call),
    }
}

fn add_simples(mut size: u32, simples: &[Simple]) -> Result<u32, AllocError>
    ensures { IfOk result (λ n. n ≡ size + simples_size (map simple_tree simples.now)) }
{
    for simple in simples {
        size = add_simple(size, simple)?;
    }
    Ok(size)
}

pub fn add_step(size: u32, step: &Option<Simple>) -> Result<u32, AllocError>
    ensures { IfOk result (λ n. n ≡ size + step_size (option_map simple_tree step.now)) }
{
    match step {
        None => Ok(size),
        Some(simple) => add_simple(size, simple),
    }
}

pub fn add_test(size: u32, condition: &Option<Expr>) -> Result<u32, AllocError>
    ensures { IfOk result (λ n. n ≡ size + test_size (option_map expr_tree condition.now)) }
{
    match condition {
        None => Ok(size),
        Some(expr) => add_more(size, 1, expr),
    }
}

fn add_return(size: u32, value: &Option<RightSide>) -> Result<u32, AllocError>
    ensures { IfOk result (λ n. n ≡ size + return_size (option_map right_tree value.now)) }
{
    let size = sum(size, 1)?;
    match value {
        None => Ok(size),
        Some(value) => add_held(size, value),
    }
}

// The size of a `for` with a body of `size` operations.
fn size_of_for(parts: &ForParts, size: u32) -> Result<u32, AllocError>
    ensures { IfOk result (λ n. n ≡ simples_size (map simple_tree parts.now.init.items) + test_size (option_map expr_tree parts.now.condition) + size + step_size (option_map simple_tree parts.now.step) + 1) }
{
    let turn = add_step(add_test(sum(size, 1)?, &parts.condition)?, &parts.step)?;
    add_simples(turn, &parts.init)
}

// The size of a statement. The sizes of the statements in it that jumps skip are appended to `sizes`, from the last
// to the first.
#[cycle(sizes)]
fn size_of_stmt(sizes: &mut Vec<u32>, stmt: &Stmt) -> Result<u32, AllocError>
    ensures size { IfOk result (λ n. n ≡ stmt_size (stmt_tree stmt.now)) }
    ensures passed { OnOk result (sizes.new.items ≡ sizes.old.items ++ stmt_sizes (stmt_tree stmt.now)) }
{
    match stmt {
        Stmt::Simple(simple) => add_simple(0, simple),
        Stmt::Empty => Ok(0),
        Stmt::Block(stmts) => size_of_stmts(sizes, stmts),
        Stmt::If { condition, then } => {
            let side = size_of_passed(sizes, then)?;
            add_more(side, 1, condition)
        }
        Stmt::IfElse {
            condition,
            then,
            otherwise,
        } => {
            let second = size_of_passed(sizes, otherwise)?;
            let first = size_of_passed(sizes, then)?;
            add_more(sum(first, second)?, 2, condition)
        }
        Stmt::While { condition, body } => {
            let side = size_of_passed(sizes, body)?;
            add_more(side, 2, condition)
        }
        Stmt::For { parts, body } => {
            let side = size_of_passed(sizes, body)?;
            size_of_for(parts, side)
        }
        Stmt::Break | Stmt::Continue => Ok(1),
        Stmt::Return(value) => add_return(0, value),
    }
}

// The size of a statement that a jump skips, which is appended to `sizes` too.
#[cycle(sizes)]
fn size_of_passed(sizes: &mut Vec<u32>, stmt: &Stmt) -> Result<u32, AllocError>
    ensures size { IfOk result (λ n. n ≡ stmt_size (stmt_tree stmt.now)) }
    ensures passed { OnOk result (sizes.new.items ≡ sizes.old.items ++ (stmt_sizes (stmt_tree stmt.now) ++ stmt_size (stmt_tree stmt.now) ∷ [])) }
{
    let size = size_of_stmt(sizes, stmt)?;
    sizes.push(size)?;
    Ok(size)
}

// The same for a list of statements.
#[cycle(sizes)]
pub fn size_of_stmts(sizes: &mut Vec<u32>, stmts: &[Stmt]) -> Result<u32, AllocError>
    ensures size { IfOk result (λ n. n ≡ stmts_size (stmt_trees stmts.now)) }
    ensures passed { OnOk result (sizes.new.items ≡ sizes.old.items ++ stmts_sizes (stmt_trees stmts.now)) }
{
    let mut size = 0;
    let mut index = stmts.len();
    while index > 0 {
        index -= 1;
        size = sum(size_of_stmt(sizes, &stmts[index])?, size)?;
    }
    Ok(size)
}

// Removes the last size and returns it.
pub fn last_size(sizes: &mut Vec<u32>) -> u32
    ensures { (rest : List ℕ) → (n : ℕ) → sizes.old.items ≡ rest ++ n ∷ [] → (result ≡ n) × (sizes.new.items ≡ rest) }
{
    sizes.pop().unwrap_or(0)
}
