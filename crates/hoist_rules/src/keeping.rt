// The receiver that keeps the statements that it takes.
ghost use Rattle.std.specs.Prelude.{◌≡◌, [], map, IfOk};
ghost use Rattle.c_tree.specs.RawTrees.{RawStmtTree};
ghost use Rattle.c_tree.specs.RawViews.{as_body, raw_stmt_tree};
ghost use Rattle.scope_rules.specs.Openings.{opening_tree};
ghost use Rattle.hoist_rules.specs.Receivers.{Opened, Kept, kept, kept_statements, beginning_tree, whole_of};

use crate::copies::{expr_copy, parts_copy};
use crate::receivers::Receive;
use c_tree::{RawExpr, RawForParts, RawStmt};
use scope_rules::Opening;
use std::alloc::{AllocError, Global};
use std::mem;

/// What begins a block, or a statement with a body; an `else` has the body before it.
#[derive(Drop)]
pub enum Beginning {
    /// `{`
    Block,
    /// `if (condition)`
    If(RawExpr),
    /// `if (condition) then else`
    Else {
        condition: RawExpr,
        then: Box<RawStmt>,
    },
    /// `while (condition)`
    While(RawExpr),
    /// `for (parts)`
    For(Box<RawForParts>),
}

/// A block, or a statement with a body, that isn't at its end: what began it, and the statements before it.
#[derive(Drop)]
pub struct Unfinished {
    beginning: Beginning,
    before: Vec<RawStmt>,
}

/// Keeps the statements that it takes.
#[derive(Drop)]
pub struct Keeping {
    alloc: Global,
    statements: Vec<RawStmt>,
    unfinished: Vec<Unfinished>,
}

// What begins a block, or a statement with a body, as a value of its own.
fn beginning_of(alloc: Global, opening: Opening) -> Result<Beginning, AllocError>
    ensures { IfOk result (λ b. beginning_tree b ≡ Opened (opening_tree opening.entry)) }
{
    match opening {
        Opening::Block => Ok(Beginning::Block),
        Opening::If(condition) => Ok(Beginning::If(expr_copy(alloc, condition)?)),
        Opening::While(condition) => Ok(Beginning::While(expr_copy(alloc, condition)?)),
        Opening::For(parts) => Ok(Beginning::For(parts_copy(alloc, parts)?)),
    }
}

// Statements as a body: a block, unless there is exactly one.
fn body_of(mut statements: Vec<RawStmt>) -> RawStmt
    ensures { raw_stmt_tree result ≡ as_body (map raw_stmt_tree statements.items) }
{
    if 1 < statements.len() {
        statements.shrink_to_fit();
        return RawStmt::Block(statements);
    }
    match statements.pop() {
        Some(one) => one,
        None => RawStmt::Empty,
    }
}

impl Beginning {
    // The block, or the statement, with these statements in its body.
    fn with_body(self, alloc: Global, mut statements: Vec<RawStmt>) -> Result<RawStmt, AllocError>
        ensures { IfOk result (λ s. raw_stmt_tree s ≡ whole_of (beginning_tree self) (map raw_stmt_tree statements.items)) }
    {
        match self {
            Beginning::Block => {
                statements.shrink_to_fit();
                Ok(RawStmt::Block(statements))
            }
            Beginning::If(condition) => {
                let then = Box::new(alloc, body_of(statements))?;
                Ok(RawStmt::If { condition, then })
            }
            Beginning::Else { condition, then } => {
                let otherwise = Box::new(alloc, body_of(statements))?;
                Ok(RawStmt::IfElse {
                    condition,
                    then,
                    otherwise,
                })
            }
            Beginning::While(condition) => {
                let body = Box::new(alloc, body_of(statements))?;
                Ok(RawStmt::While { condition, body })
            }
            Beginning::For(parts) => {
                let body = Box::new(alloc, body_of(statements))?;
                Ok(RawStmt::For { parts, body })
            }
        }
    }
}

impl Keeping {
    /// No statement was taken yet. It doesn't allocate.
    pub fn new(alloc: Global) -> Keeping
        ensures { kept result ≡ Kept [] [] }
    {
        Keeping {
            alloc,
            statements: Vec::new(alloc),
            unfinished: Vec::new(alloc),
        }
    }

    /// Returns the statements that it has taken, without those around what isn't at its end.
    pub fn into_statements(self) -> Vec<RawStmt>
        ensures { map raw_stmt_tree result.items ≡ kept_statements (kept self) }
    {
        let Keeping { statements, .. } = self;
        statements
    }
}

impl Receive for Keeping {
    ghost so_far = { kept };

    #[tactic(auto, unfolding(crate::specs::Receivers::then_all))]
    fn push(&mut self, statement: RawStmt) -> Result<(), AllocError> {
        self.statements.push(statement)?;
        Ok(())
    }

    #[tactic(auto, unfolding(crate::specs::Receivers::then_open))]
    fn open(&mut self, opening: Opening) -> Result<(), AllocError> {
        let beginning = beginning_of(self.alloc, opening)?;
        let before = mem::replace(&mut self.statements, Vec::new(self.alloc));
        self.unfinished.push(Unfinished { beginning, before })?;
        Ok(())
    }

    #[tactic(auto, unfolding(crate::specs::Receivers::then_else))]
    fn otherwise(&mut self) -> Result<(), AllocError> {
        let alloc = self.alloc;
        let Some(Unfinished { beginning, before }) = self.unfinished.pop() else {
            return Ok(());
        };
        let beginning = match beginning {
            Beginning::If(condition) => {
                let statements = mem::replace(&mut self.statements, Vec::new(alloc));
                let then = Box::new(alloc, body_of(statements))?;
                Beginning::Else { condition, then }
            }
            other => other,
        };
        self.unfinished.push(Unfinished { beginning, before })?;
        Ok(())
    }

    #[tactic(auto, unfolding(crate::specs::Receivers::then_close))]
    fn close(&mut self) -> Result<(), AllocError> {
        let alloc = self.alloc;
        let Some(Unfinished { beginning, before }) = self.unfinished.pop() else {
            return Ok(());
        };
        let statements = mem::replace(&mut self.statements, before);
        let statement = beginning.with_body(alloc, statements)?;
        self.statements.push(statement)?;
        Ok(())
    }
}
