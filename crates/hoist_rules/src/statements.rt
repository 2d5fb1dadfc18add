// The rewriting of statements.
ghost use Rattle.std.specs.Prelude.{◌≡◌, ◌+◌, [], ◌∷◌, ◌++◌, OnOk};
ghost use Rattle.c_tree.specs.RawTrees.{RawNumber, RawIf, RawBreak};
ghost use Rattle.c_tree.specs.RawViews.{as_body, raw_expr_tree, raw_stmt_tree, raw_stmt_trees};
ghost use Rattle.scope_rules.specs.Openings.{OpenBlock, OpenIf, OpenWhile, opening_tree, whole};
ghost use Rattle.hoist_parts.specs.Expressions.{names_in, left_of, before, is_false};
ghost use Rattle.hoist_parts.specs.Statements.{stmt_names, stmts_names, while_calling, hoisted, all_hoisted};
ghost use Rattle.hoist_rules.specs.Receivers.{then_all, then_open, then_close};

use crate::bodies::ends_unless;
use crate::hoisting::Hoisting;
use crate::receivers::Receive;
use crate::singles::stmt_moves;
use c_tree::{RawExpr, RawStmt};
use hoist_parts::holds_call;
use scope_rules::Opening;
use std::alloc::AllocError;

impl<R: Receive> Hoisting<R> {
    /// Appends the statements that replace one.
    #[cycle(statements)]
    fn statement(&mut self, raw: &RawStmt) -> Result<(), AllocError>
        ensures statements { OnOk result (R.so_far self.new.receiver ≡ then_all (R.so_far self.old.receiver) (hoisted self.old.next (raw_stmt_tree raw.now))) }
        ensures next { OnOk result (self.new.next ≡ self.old.next + stmt_names (raw_stmt_tree raw.now)) }
    {
        match raw {
            RawStmt::Simple(simple) => {
                let simple = self.simple(simple)?;
                self.push(RawStmt::Simple(simple))
            }
            RawStmt::Empty => self.push(RawStmt::Empty),
            RawStmt::Block(stmts) => {
                self.open(Opening::Block)?;
                self.statements(stmts)?;
                Ok(self.close()?)
            }
            RawStmt::If { condition, then } => self.guarded(then, condition),
            RawStmt::IfElse {
                condition,
                then,
                otherwise,
            } => {
                self.open_if(condition)?;
                self.statement(then)?;
                self.otherwise()?;
                self.statement(otherwise)?;
                Ok(self.close()?)
            }
            RawStmt::While { condition, body } => {
                if holds_call(condition) {
                    self.while_calling(body, condition)
                } else {
                    Ok(self.repeated(body, Opening::While(condition))?)
                }
            }
            RawStmt::For { parts, body } => self.repeated(body, Opening::For(parts)),
            RawStmt::Break { at } => self.push(RawStmt::Break { at: *at }),
            RawStmt::Continue { at } => self.push(RawStmt::Continue { at: *at }),
            RawStmt::Return { at, value } => {
                let returned = self.returned(*at, value)?;
                self.push(returned)
            }
        }
    }

    /// Appends the statements that replace each statement of a list, in order.
    #[cycle(statements)]
    pub(crate) fn statements(&mut self, raw: &[RawStmt]) -> Result<(), AllocError>
        ensures statements { OnOk result (R.so_far self.new.receiver ≡ then_all (R.so_far self.old.receiver) (all_hoisted self.old.next (raw_stmt_trees raw.now))) }
        ensures next { OnOk result (self.new.next ≡ self.old.next + stmts_names (raw_stmt_trees raw.now)) }
    {
        for stmt in raw {
            self.statement(stmt)?;
        }
        Ok(())
    }

    // An `if` without an `else`.
    #[cycle(statements)]
    fn guarded(&mut self, then: &RawStmt, condition: &RawExpr) -> Result<(), AllocError>
        ensures statements { OnOk result (R.so_far self.new.receiver ≡ then_all (R.so_far self.old.receiver) (hoisted self.old.next (RawIf (raw_expr_tree condition.now) (raw_stmt_tree then.now)))) }
        ensures next { OnOk result (self.new.next ≡ self.old.next + names_in (raw_expr_tree condition.now) + stmt_names (raw_stmt_tree then.now)) }
    {
        self.open_if(condition)?;
        self.statement(then)?;
        self.close()
    }

    // A statement with a body, before which nothing goes.
    #[cycle(statements)]
    fn repeated(&mut self, body: &RawStmt, opening: Opening) -> Result<(), AllocError>
        ensures statements { OnOk result (R.so_far self.new.receiver ≡ then_all (R.so_far self.old.receiver) (whole (opening_tree opening.entry) (hoisted self.old.next (raw_stmt_tree body.now)) ∷ [])) }
        ensures next { OnOk result (self.new.next ≡ self.old.next + stmt_names (raw_stmt_tree body.now)) }
    {
        self.open(opening)?;
        self.statement(body)?;
        Ok(self.close()?)
    }

    // A `while` whose condition contains a call, which is evaluated in each iteration.
    #[cycle(statements)]
    fn while_calling(&mut self, body: &RawStmt, condition: &RawExpr) -> Result<(), AllocError>
        ensures statements { OnOk result (R.so_far self.new.receiver ≡ then_all (R.so_far self.old.receiver)
            (while_calling self.old.next (raw_expr_tree condition.now) (as_body (hoisted (self.old.next + names_in (raw_expr_tree condition.now)) (raw_stmt_tree body.now))) ∷ [])) }
        ensures next { OnOk result (self.new.next ≡ self.old.next + names_in (raw_expr_tree condition.now) + stmt_names (raw_stmt_tree body.now)) }
    {
        self.open_loop()?;
        self.end_unless(condition)?;
        self.body(body)?;
        self.close_loop()
    }

    // A body as one statement: a block, unless exactly one statement replaces it.
    #[cycle(statements)]
    fn body(&mut self, raw: &RawStmt) -> Result<(), AllocError>
        ensures statements { OnOk result (R.so_far self.new.receiver ≡ then_all (R.so_far self.old.receiver) (as_body (hoisted self.old.next (raw_stmt_tree raw.now)) ∷ [])) }
        ensures next { OnOk result (self.new.next ≡ self.old.next + stmt_names (raw_stmt_tree raw.now)) }
    {
        if stmt_moves(raw) {
            self.open(Opening::Block)?;
            self.statement(raw)?;
            Ok(self.close()?)
        } else {
            Ok(self.statement(raw)?)
        }
    }
}

impl<R: Receive> Hoisting<R> {
    // `P(c) if (c)`, which begins.
    fn open_if(&mut self, condition: &RawExpr) -> Result<(), AllocError>
        ensures statements { OnOk result (R.so_far self.new.receiver ≡ then_open (OpenIf (left_of self.old.next (raw_expr_tree condition.now))) (then_all (R.so_far self.old.receiver) (before self.old.next (raw_expr_tree condition.now)))) }
        ensures next { OnOk result (self.new.next ≡ self.old.next + names_in (raw_expr_tree condition.now)) }
    {
        let condition = self.expression(condition)?;
        self.open(Opening::If(&condition))
    }

    // `while (1) {`.
    fn open_loop(&mut self) -> Result<(), AllocError>
        ensures statements { OnOk result (R.so_far self.new.receiver ≡ then_open OpenBlock (then_open (OpenWhile (RawNumber 1)) (R.so_far self.old.receiver))) }
        ensures next { OnOk result (self.new.next ≡ self.old.next) }
    {
        let always = RawExpr::Number(1);
        self.open(Opening::While(&always))?;
        self.open(Opening::Block)
    }

    // `}`.
    fn close_loop(&mut self) -> Result<(), AllocError>
        ensures statements { OnOk result (R.so_far self.new.receiver ≡ then_close (then_close (R.so_far self.old.receiver))) }
        ensures next { OnOk result (self.new.next ≡ self.old.next) }
    {
        self.close()?;
        self.close()
    }

    // `P(c) if (!c) break;`.
    fn end_unless(&mut self, condition: &RawExpr) -> Result<(), AllocError>
        ensures statements { OnOk result (R.so_far self.new.receiver ≡ then_all (R.so_far self.old.receiver) (before self.old.next (raw_expr_tree condition.now)
            ++ RawIf (is_false (left_of self.old.next (raw_expr_tree condition.now))) (RawBreak 0) ∷ [])) }
        ensures next { OnOk result (self.new.next ≡ self.old.next + names_in (raw_expr_tree condition.now)) }
    {
        let condition = self.expression(condition)?;
        let test = ends_unless(self.alloc, condition)?;
        self.push(test)
    }
}
