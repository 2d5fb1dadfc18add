// Blocks, and statements with a body, that are resolved statement by statement.

ghost use Rattle.std.specs.Prelude.{◌≡◌, IfOk, OnOk, map, length};
ghost use Rattle.c_tree.specs.Views.{stmt_tree};
ghost use Rattle.scope_rules.specs.Faults.{least_of};
ghost use Rattle.scope_rules.specs.Places.{spot_of};
ghost use Rattle.scope_rules.specs.Openings.{opening_tree, head_tree, body, with_body, head_of, opening_faults, body_start, is_in_loop};

use crate::expressions::expr;
use crate::places::Place;
use crate::statements::Scope;
use c_tree::{Expr, ForParts, RawExpr, RawForParts, Stmt};
use std::alloc::{AllocError, Global};

/// What begins a block, or a statement with a body.
#[derive(Clone, Copy)]
pub enum Opening<'a> {
    /// `{`
    Block,
    /// `if (condition)`
    If(&'a RawExpr),
    /// `while (condition)`
    While(&'a RawExpr),
    /// `for (parts)`
    For(&'a RawForParts),
}

/// What begins a block, or a statement with a body, with numbers in place of names.
#[derive(Drop)]
pub enum Head {
    Block,
    If(Expr),
    Else { condition: Expr, then: Box<Stmt> },
    While(Expr),
    For(Box<ForParts>),
}

/// A block, or a statement with a body, that isn't at its end.
#[derive(Drop)]
pub struct Open {
    pub head: Head,
    pub scope: Scope,
    /// Whether the statement is in a loop.
    pub loops: bool,
    /// The statements before it.
    pub before: Vec<Stmt>,
}

/// Returns statements as a body: a block, unless there is exactly one.
pub fn body_of(mut statements: Vec<Stmt>) -> Stmt
    ensures { stmt_tree result ≡ body (map stmt_tree statements.items) }
{
    if 1 < statements.len() {
        statements.shrink_to_fit();
        return Stmt::Block(statements);
    }
    match statements.pop() {
        Some(one) => one,
        None => Stmt::Empty,
    }
}

impl Head {
    /// Returns the block, or the statement, with this head and these statements in its body.
    pub fn with_body(self, alloc: Global, mut statements: Vec<Stmt>) -> Result<Stmt, AllocError>
        ensures { IfOk result (λ s. stmt_tree s ≡ with_body (head_tree self) (map stmt_tree statements.items)) }
    {
        match self {
            Head::Block => {
                statements.shrink_to_fit();
                Ok(Stmt::Block(statements))
            }
            Head::If(condition) => {
                let then = Box::new(alloc, body_of(statements))?;
                Ok(Stmt::If { condition, then })
            }
            Head::Else { condition, then } => {
                let otherwise = Box::new(alloc, body_of(statements))?;
                Ok(Stmt::IfElse {
                    condition,
                    then,
                    otherwise,
                })
            }
            Head::While(condition) => {
                let body = Box::new(alloc, body_of(statements))?;
                Ok(Stmt::While { condition, body })
            }
            Head::For(parts) => {
                let body = Box::new(alloc, body_of(statements))?;
                Ok(Stmt::For { parts, body })
            }
        }
    }
}

impl Opening<'_> {
    /// Returns whether the body is in a loop, of a statement that is in a loop or not.
    pub fn is_in_loop(self, loops: bool) -> bool
        ensures { result ≡ is_in_loop (opening_tree self.entry) loops }
    {
        match self {
            Opening::Block | Opening::If(_) => loops,
            Opening::While(_) | Opening::For(_) => true,
        }
    }
}

impl Place {
    /// Resolves what begins a block or a statement, and enters the scope of the body. Returns the scope before it, too.
    pub fn head_of(&mut self, opening: Opening) -> Result<(Head, Scope), AllocError>
        ensures head { IfOk result (λ p. head_tree p.0 ≡ head_of (opening_tree opening.entry) (spot_of self.old)) }
        ensures outer { IfOk result (λ p. p.1.outer ≡ self.old.outer) }
        ensures count { IfOk result (λ p. p.1.count ≡ length self.old.names) }
        ensures place { OnOk result (spot_of self.new ≡ body_start (opening_tree opening.entry) (spot_of self.old)) }
        ensures faults { OnOk result (self.new.least ≡ least_of self.old.least (opening_faults (opening_tree opening.entry) (spot_of self.old))) }
    {
        match opening {
            Opening::Block => Ok((Head::Block, self.enter())),
            Opening::If(condition) => {
                let condition = expr(self.alloc, &self.names, &mut self.least, condition)?;
                Ok((Head::If(condition), self.enter()))
            }
            Opening::While(condition) => {
                let condition = expr(self.alloc, &self.names, &mut self.least, condition)?;
                Ok((Head::While(condition), self.enter()))
            }
            Opening::For(parts) => {
                let scope = self.enter();
                let parts = self.for_parts(parts)?;
                self.enter();
                Ok((Head::For(parts), scope))
            }
        }
    }
}
