// The number of temporaries in the flat code of a tree.
//
// Each count is exact up to the limit of 65,536 per statement, and 65,537 above it, so it never
// overflows.

ghost use Rattle.std.specs.Prelude.{◌≡◌, ◌≤◌, ◌+◌, max, map, option_map};
ghost use Rattle.c_tree.specs.Views.{expr_tree, call_tree, right_tree, simple_tree, stmt_tree, stmt_trees, function_tree};
ghost use Rattle.c_tree.specs.Temporaries.{capped, expr_temporaries, operand_temporaries, arguments_temporaries, call_temporaries, right_temporaries, held_temporaries, simple_temporaries, simples_temporaries, condition_temporaries, step_temporaries, returned_temporaries, stmt_temporaries, stmts_temporaries, function_temporaries};

use crate::expressions::Expr;
use crate::facts::Function;
use crate::operators::Infix;
use crate::statements::{Call, RightSide, Simple, Stmt};

// One more, up to 65,537.
fn next(count: u32) -> u32
    requires { count ≤ 65537 }
    ensures { result ≡ capped (1 + count) }
{
    if count < 65_537 { 1 + count } else { 65_537 }
}

fn larger(a: u32, b: u32) -> u32
    ensures { result ≡ max a b }
{
    if a < b { b } else { a }
}

// The temporaries of an operand after its operator, up to 65,537.
fn after(operator: Infix, count: u32) -> u32
    requires { count ≤ 65537 }
    ensures { result ≡ capped (operand_temporaries operator count) }
{
    match operator {
        Infix::Binary(_) => next(count),
        Infix::LogicalAnd | Infix::LogicalOr => count,
    }
}

impl Expr {
    /// Returns the number of temporaries that the expression needs, including the one for its own
    /// value; 65,537 if it is more than 65,536.
    pub fn temporaries(&self) -> u32
        ensures { result ≡ capped (expr_temporaries (expr_tree self.now)) }
    {
        match self {
            Expr::Number(_) | Expr::Local(_) | Expr::Global(_) => 1,
            Expr::LocalElement { index, .. } | Expr::GlobalElement { index, .. } =>
                index.temporaries(),
            Expr::Unary { operand, .. } => operand.temporaries(),
            Expr::Parenthesized(inner) => inner.temporaries(),
            Expr::Chain { first, rest } => {
                let mut most = first.temporaries();
                for (operator, operand) in rest {
                    most = larger(most, after(*operator, operand.temporaries()));
                }
                most
            }
            Expr::Conditional {
                condition,
                then,
                otherwise,
            } => {
                larger(
                    condition.temporaries(),
                    larger(then.temporaries(), otherwise.temporaries()),
                )
            }
        }
    }
}

// The temporaries of an argument that needs `count` by itself and comes after `index` other ones; up to
// 65,537.
fn further(index: usize, count: u32) -> u32
    requires { count ≤ 65537 }
    ensures { result ≡ capped (index + count) }
{
    if index < 65_537 && index as u32 + count < 65_537 {
        index as u32 + count
    } else {
        65_537
    }
}

fn arguments_of(arguments: &[Expr]) -> u32
    ensures { result ≡ capped (arguments_temporaries 0 (map expr_tree arguments.now)) }
{
    let mut most = 0;
    for (index, argument) in arguments.iter().enumerate() {
        most = larger(most, further(index, argument.temporaries()));
    }
    most
}

fn call_of(call: &Call) -> u32
    ensures { result ≡ capped (call_temporaries (call_tree call.now)) }
{
    match call {
        Call::Function { arguments, .. } => arguments_of(arguments),
        Call::Table {
            index,
            argument,
            ..
        } => larger(index.temporaries(), next(argument.temporaries())),
        Call::Spawn { argument, .. } => argument.temporaries(),
        Call::Modelled { arguments, .. } => arguments_of(arguments),
    }
}

fn right_of(value: &RightSide) -> u32
    ensures { result ≡ capped (right_temporaries (right_tree value.now)) }
{
    match value {
        RightSide::Expr(expr) => expr.temporaries(),
        RightSide::Call(call) => call_of(call),
    }
}

fn held_of(value: &RightSide) -> u32
    ensures { result ≡ capped (held_temporaries (right_tree value.now)) }
{
    match value {
        RightSide::Expr(expr) => expr.temporaries(),
        RightSide::Call(call) => larger(1, call_of(call)),
    }
}

fn simple_of(simple: &Simple) -> u32
    ensures { result ≡ capped (simple_temporaries (simple_tree simple.now)) }
{
    match simple {
        Simple::DeclareScalar { .. } | Simple::DeclareArray { .. } => 0,
        Simple::DeclareWith { value, .. } | Simple::SetLocal { value, .. } => right_of(value),
        Simple::SetGlobal { value, .. } => held_of(value),
        Simple::SetLocalElement { index, value, .. }
        | Simple::SetGlobalElement { index, value, .. } => {
            larger(index.temporaries(), next(held_of(value)))
        }
        Simple::Call(call) => call_of(call),
    }
}

fn simples_of(simples: &[Simple]) -> u32
    ensures { result ≡ capped (simples_temporaries (map simple_tree simples.now)) }
{
    let mut most = 0;
    for simple in simples {
        most = larger(most, simple_of(simple));
    }
    most
}

fn condition_of(condition: &Option<Expr>) -> u32
    ensures { result ≡ capped (condition_temporaries (option_map expr_tree condition.now)) }
{
    match condition {
        None => 0,
        Some(expr) => expr.temporaries(),
    }
}

fn step_of(step: &Option<Simple>) -> u32
    ensures { result ≡ capped (step_temporaries (option_map simple_tree step.now)) }
{
    match step {
        None => 0,
        Some(simple) => simple_of(simple),
    }
}

fn returned_of(value: &Option<RightSide>) -> u32
    ensures { result ≡ capped (returned_temporaries (option_map right_tree value.now)) }
{
    match value {
        None => 0,
        Some(value) => held_of(value),
    }
}

#[cycle(count)]
fn stmt_of(stmt: &Stmt) -> u32
    ensures { result ≡ capped (stmt_temporaries (stmt_tree stmt.now)) }
{
    match stmt {
        Stmt::Simple(simple) => simple_of(simple),
        Stmt::Empty | Stmt::Break | Stmt::Continue => 0,
        Stmt::Block(stmts) => stmts_of(stmts),
        Stmt::If { condition, then } => larger(condition.temporaries(), stmt_of(then)),
        Stmt::IfElse {
            condition,
            then,
            otherwise,
        } => {
            larger(
                condition.temporaries(),
                larger(stmt_of(then), stmt_of(otherwise)),
            )
        }
        Stmt::While { condition, body } => larger(condition.temporaries(), stmt_of(body)),
        Stmt::For { parts, body } => {
            larger(
                simples_of(&parts.init),
                larger(
                    condition_of(&parts.condition),
                    larger(step_of(&parts.step), stmt_of(body)),
                ),
            )
        }
        Stmt::Return(value) => returned_of(value),
    }
}

#[cycle(count)]
fn stmts_of(stmts: &[Stmt]) -> u32
    ensures { result ≡ capped (stmts_temporaries (stmt_trees stmts.now)) }
{
    let mut most = 0;
    for stmt in stmts {
        most = larger(most, stmt_of(stmt));
    }
    most
}

impl Function {
    /// Returns the number of temporaries that the function needs; 65,537 if one of its statements needs
    /// more than 65,536.
    pub fn temporaries(&self) -> u32
        ensures { result ≡ capped (function_temporaries (function_tree self.now)) }
    {
        larger(if self.gives { 1 } else { 0 }, stmts_of(&self.body))
    }
}
