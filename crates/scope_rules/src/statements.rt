// Statements and the scopes in them.

ghost use Rattle.std.specs.Prelude.{◌≡◌, ◌∷◌, ◌++◌, ◌-◌, false, IfOk, OnOk, map, option_map, length, drop};
ghost use Rattle.c_tree.specs.RawViews.{raw_expr_tree, raw_simple_tree, raw_stmt_tree, raw_stmt_trees};
ghost use Rattle.c_tree.specs.Views.{expr_tree, right_tree, simple_tree, stmt_tree, stmt_trees};
ghost use Rattle.scope_rules.specs.Faults.{least_of};
ghost use Rattle.scope_rules.specs.Expressions.{expr_faults, expr_of};
ghost use Rattle.scope_rules.specs.Places.{spot_of};
ghost use Rattle.scope_rules.specs.Kept.{kept_with};
ghost use Rattle.scope_rules.specs.Simples.{simple_of, simples_of, simples_after};
ghost use Rattle.scope_rules.specs.Statements.{inside, left, condition_faults, step_kind, step_faults, step_after, parts_faults, return_faults, returned_of, returned_after, stmt_after, stmts_after, stmt_faults, stmts_faults, stmt_of, stmts_of};

use crate::expressions::expr;
use crate::faults::{Fault, Rule, note, note_if};
use crate::held::{both, boxed, with_next};
use crate::places::Place;
use c_tree::{Expr, ForParts, RawExpr, RawForParts, RawSimple, RawStmt, RightSide, Simple, Stmt};
use std::alloc::{AllocError, Global};

// Notes the fault of a step of a `for` that declares a name.
fn check_step(least: &mut Option<Fault>, raw: &RawSimple)
    ensures { least.new ≡ least_of least.old (step_kind (raw_simple_tree raw.now)) }
{
    match raw {
        RawSimple::DeclareScalar { name }
        | RawSimple::DeclareArray { name, .. }
        | RawSimple::DeclareWith { name, .. } => note(least, name.at, Rule::Kind),
        RawSimple::Set { .. }
        | RawSimple::SetElement { .. }
        | RawSimple::Call { .. }
        | RawSimple::TableCall { .. } => {}
    }
}

impl Place {
    // The condition of a `for`.
    fn condition(&mut self, raw: &Option<RawExpr>) -> Result<Option<Expr>, AllocError>
        ensures tree { IfOk result (λ e. option_map expr_tree e ≡ option_map (expr_of self.old.names) (option_map raw_expr_tree raw.now)) }
        ensures place { OnOk result (spot_of self.new ≡ spot_of self.old) }
        ensures faults { OnOk result (self.new.least ≡ least_of self.old.least (condition_faults self.old.names (option_map raw_expr_tree raw.now))) }
    {
        match raw {
            None => Ok(None),
            Some(raw) => Ok(Some(expr(self.alloc, &self.names, &mut self.least, raw)?)),
        }
    }

    // The step of a `for`.
    fn step(&mut self, raw: &Option<RawSimple>) -> Result<Option<Simple>, AllocError>
        ensures tree { IfOk result (λ p. option_map simple_tree p ≡ option_map (simple_of (spot_of self.old)) (option_map raw_simple_tree raw.now)) }
        ensures place { OnOk result (spot_of self.new ≡ step_after (spot_of self.old) (option_map raw_simple_tree raw.now)) }
        ensures faults { OnOk result (self.new.least ≡ least_of self.old.least (step_faults (spot_of self.old) (option_map raw_simple_tree raw.now))) }
    {
        match raw {
            None => Ok(None),
            Some(raw) => {
                check_step(&mut self.least, raw);
                Ok(Some(self.simple(raw)?))
            }
        }
    }

    // The step of a `for`, with the value before it.
    fn then_step<T: Drop>(
        &mut self,
        before: T,
        raw: &Option<RawSimple>,
    ) -> Result<(T, Option<Simple>), AllocError>
        ensures before { IfOk result (λ p. p.0 ≡ before) }
        ensures tree { IfOk result (λ p. option_map simple_tree p.1 ≡ option_map (simple_of (spot_of self.old)) (option_map raw_simple_tree raw.now)) }
        ensures place { OnOk result (spot_of self.new ≡ step_after (spot_of self.old) (option_map raw_simple_tree raw.now)) }
        ensures faults { OnOk result (self.new.least ≡ least_of self.old.least (step_faults (spot_of self.old) (option_map raw_simple_tree raw.now))) }
    {
        both(before, self.step(raw))
    }

    /// Resolves the parts in the parentheses of a `for`.
    pub fn for_parts(&mut self, raw: &RawForParts) -> Result<Box<ForParts>, AllocError>
        ensures init { IfOk result (λ p. map simple_tree p.value.init.items ≡ simples_of (spot_of self.old) (map raw_simple_tree raw.now.init.items)) }
        ensures condition { IfOk result (λ p. option_map expr_tree p.value.condition ≡ option_map (expr_of (simples_after (spot_of self.old) (map raw_simple_tree raw.now.init.items)).names) (option_map raw_expr_tree raw.now.condition)) }
        ensures step { IfOk result (λ p. option_map simple_tree p.value.step ≡ option_map (simple_of (simples_after (spot_of self.old) (map raw_simple_tree raw.now.init.items))) (option_map raw_simple_tree raw.now.step)) }
        ensures place { OnOk result (spot_of self.new ≡ step_after (simples_after (spot_of self.old) (map raw_simple_tree raw.now.init.items)) (option_map raw_simple_tree raw.now.step)) }
        ensures faults { OnOk result (self.new.least ≡ least_of self.old.least (parts_faults (spot_of self.old) (map raw_simple_tree raw.now.init.items) (option_map raw_expr_tree raw.now.condition) (option_map raw_simple_tree raw.now.step))) }
    {
        let init = self.simples(&raw.init)?;
        let before = both(init, self.condition(&raw.condition))?;
        let ((init, condition), step) = self.then_step(before, &raw.step)?;
        let parts = Box::new(
            self.alloc,
            ForParts {
                init,
                condition,
                step,
            },
        )?;
        Ok(parts)
    }

    // The returned value at `at`, in a function that gives a result or not.
    fn returned(
        &mut self,
        gives: bool,
        at: u32,
        raw: &Option<RawExpr>,
    ) -> Result<Option<RightSide>, AllocError>
        ensures tree { IfOk result (λ v. option_map right_tree v ≡ returned_of (spot_of self.old) (option_map raw_expr_tree raw.now)) }
        ensures place { OnOk result (spot_of self.new ≡ returned_after (spot_of self.old) (option_map raw_expr_tree raw.now)) }
        ensures faults { OnOk result (self.new.least ≡ least_of self.old.least (return_faults gives self.old.names at (option_map raw_expr_tree raw.now))) }
    {
        match raw {
            None => {
                note_if(&mut self.least, gives, at, Rule::Kind);
                Ok(None)
            }
            Some(raw) => {
                note_if(&mut self.least, !gives, at, Rule::Kind);
                Ok(Some(self.right(raw)?))
            }
        }
    }
}

/// The beginning of a scope: the number of names outside the enclosing scope, and the number outside
/// this one.
#[derive(Clone, Copy)]
pub struct Scope {
    pub outer: usize,
    pub count: usize,
}

impl Place {
    // Enters a scope.
    pub fn enter(&mut self) -> Scope
        ensures outer { result.outer ≡ self.old.outer }
        ensures count { result.count ≡ length self.old.names }
        ensures place { spot_of self.new ≡ inside (spot_of self.old) }
        ensures faults { self.new.least ≡ self.old.least }
    {
        let outer = self.outer;
        let count = self.names.len();
        self.outer = count;
        Scope { outer, count }
    }

    // Leaves a scope.
    pub fn leave(&mut self, scope: Scope)
        ensures place { spot_of self.new ≡ record (spot_of self.old) { names = drop (length self.old.names - scope.count) self.old.names; outer = scope.outer } }
        ensures faults { self.new.least ≡ self.old.least }
    {
        self.names.leave(scope.count);
        self.outer = scope.outer;
    }

    // A statement, in a function that gives a result or not and in a loop or not.
    #[cycle(statements)]
    fn stmt(&mut self, gives: bool, loops: bool, raw: &RawStmt) -> Result<Stmt, AllocError>
        ensures tree { IfOk result (λ s. stmt_tree s ≡ stmt_of (spot_of self.old) (raw_stmt_tree raw.now)) }
        ensures place { OnOk result (spot_of self.new ≡ stmt_after (spot_of self.old) (raw_stmt_tree raw.now)) }
        ensures faults { OnOk result (self.new.least ≡ least_of self.old.least (stmt_faults gives loops (spot_of self.old) (raw_stmt_tree raw.now))) }
    {
        match raw {
            RawStmt::Simple(simple) => Ok(Stmt::Simple(self.simple(simple)?)),
            RawStmt::Empty => Ok(Stmt::Empty),
            RawStmt::Block(stmts) => Ok(Stmt::Block(self.block(gives, loops, stmts)?)),
            RawStmt::If { condition, then } => {
                let (condition, then) = self.guarded(gives, loops, then, condition)?;
                Ok(Stmt::If { condition, then })
            }
            RawStmt::IfElse {
                condition,
                then,
                otherwise,
            } => {
                let before = self.guarded(gives, loops, then, condition)?;
                let ((condition, then), otherwise) = both(
                    before,
                    self.body(gives, loops, otherwise),
                )?;
                Ok(Stmt::IfElse {
                    condition,
                    then,
                    otherwise,
                })
            }
            RawStmt::While { condition, body } => {
                let (condition, body) = self.guarded(gives, true, body, condition)?;
                Ok(Stmt::While { condition, body })
            }
            RawStmt::For { parts, body } => {
                let scope = self.enter();
                let parts = self.for_parts(parts)?;
                let made = both(parts, self.body(gives, true, body));
                self.leave(scope);
                let (parts, body) = made?;
                Ok(Stmt::For { parts, body })
            }
            RawStmt::Break { at } => {
                note_if(&mut self.least, !loops, *at, Rule::Kind);
                Ok(Stmt::Break)
            }
            RawStmt::Continue { at } => {
                note_if(&mut self.least, !loops, *at, Rule::Kind);
                Ok(Stmt::Continue)
            }
            RawStmt::Return { at, value } => { Ok(Stmt::Return(self.returned(gives, *at, value)?)) }
        }
    }

    // A condition and a body.
    #[cycle(statements)]
    fn guarded(
        &mut self,
        gives: bool,
        loops: bool,
        raw: &RawStmt,
        condition: &RawExpr,
    ) -> Result<(Expr, Box<Stmt>), AllocError>
        ensures condition { IfOk result (λ p. expr_tree p.0 ≡ expr_of self.old.names (raw_expr_tree condition.now)) }
        ensures tree { IfOk result (λ p. stmt_tree p.1.value ≡ stmt_of (inside (spot_of self.old)) (raw_stmt_tree raw.now)) }
        ensures place { OnOk result (spot_of self.new ≡ left (spot_of self.old) (stmt_after (inside (spot_of self.old)) (raw_stmt_tree raw.now))) }
        ensures faults { OnOk result (self.new.least ≡ least_of self.old.least (expr_faults self.old.names (raw_expr_tree condition.now) ++ stmt_faults gives loops (inside (spot_of self.old)) (raw_stmt_tree raw.now))) }
    {
        let condition = expr(self.alloc, &self.names, &mut self.least, condition)?;
        both(condition, self.body(gives, loops, raw))
    }

    // A body, which is a scope.
    #[cycle(statements)]
    fn body(&mut self, gives: bool, loops: bool, raw: &RawStmt) -> Result<Box<Stmt>, AllocError>
        ensures tree { IfOk result (λ s. stmt_tree s.value ≡ stmt_of (inside (spot_of self.old)) (raw_stmt_tree raw.now)) }
        ensures place { OnOk result (spot_of self.new ≡ left (spot_of self.old) (stmt_after (inside (spot_of self.old)) (raw_stmt_tree raw.now))) }
        ensures faults { OnOk result (self.new.least ≡ least_of self.old.least (stmt_faults gives loops (inside (spot_of self.old)) (raw_stmt_tree raw.now))) }
    {
        let scope = self.enter();
        let stmt = boxed(self.alloc, self.stmt(gives, loops, raw));
        self.leave(scope);
        stmt
    }

    // A block, which is a scope.
    #[cycle(statements)]
    fn block(&mut self, gives: bool, loops: bool, raw: &[RawStmt]) -> Result<Vec<Stmt>, AllocError>
        ensures tree { IfOk result (λ ss. stmt_trees ss.items ≡ stmts_of (inside (spot_of self.old)) (raw_stmt_trees raw.now)) }
        ensures place { OnOk result (spot_of self.new ≡ left (spot_of self.old) (stmts_after (inside (spot_of self.old)) (raw_stmt_trees raw.now))) }
        ensures faults { OnOk result (self.new.least ≡ least_of self.old.least (stmts_faults gives loops (inside (spot_of self.old)) (raw_stmt_trees raw.now))) }
    {
        let scope = self.enter();
        let stmts = self.stmts(gives, loops, raw);
        self.leave(scope);
        stmts
    }

    /// Resolves statements one after another, in a function that gives a result or not and in a loop
    /// or not.
    #[cycle(statements)]
    pub fn stmts(
        &mut self,
        gives: bool,
        loops: bool,
        raw: &[RawStmt],
    ) -> Result<Vec<Stmt>, AllocError>
        ensures tree { IfOk result (λ ss. stmt_trees ss.items ≡ stmts_of (spot_of self.old) (raw_stmt_trees raw.now)) }
        ensures place { OnOk result (spot_of self.new ≡ stmts_after (spot_of self.old) (raw_stmt_trees raw.now)) }
        ensures faults { OnOk result (self.new.least ≡ least_of self.old.least (stmts_faults gives loops (spot_of self.old) (raw_stmt_trees raw.now))) }
    {
        let mut stmts = Vec::with_capacity(self.alloc, raw.len())?;
        for stmt in raw {
            stmts = with_next(stmts, self.stmt(gives, loops, stmt))?;
        }
        Ok(stmts)
    }

    /// Resolves one more statement of a block. Beyond the limit of calls no statement is kept, since the source is
    /// refused.
    pub fn next_statement(
        &mut self,
        gives: bool,
        loops: bool,
        body: Vec<Stmt>,
        raw: &RawStmt,
    ) -> Result<Vec<Stmt>, AllocError>
        ensures tree { IfOk result (λ ss. map stmt_tree ss.items ≡ kept_with (stmt_after (spot_of self.old) (raw_stmt_tree raw.now)).site (map stmt_tree body.items) (stmt_of (spot_of self.old) (raw_stmt_tree raw.now))) }
        ensures place { OnOk result (spot_of self.new ≡ stmt_after (spot_of self.old) (raw_stmt_tree raw.now)) }
        ensures faults { OnOk result (self.new.least ≡ least_of self.old.least (stmt_faults gives loops (spot_of self.old) (raw_stmt_tree raw.now))) }
    {
        let stmt = self.stmt(gives, loops, raw)?;
        Ok(kept_with(self.alloc, self.site, body, stmt)?)
    }
}

/// Returns statements and one more, before the site with this number.
pub fn kept_with(
    alloc: Global,
    site: u32,
    mut body: Vec<Stmt>,
    stmt: Stmt,
) -> Result<Vec<Stmt>, AllocError>
    ensures { IfOk result (λ ss. map stmt_tree ss.items ≡ kept_with site (map stmt_tree body.items) (stmt_tree stmt)) }
{
    if site > 65_535 {
        drop(body);
        drop(stmt);
        Ok(Vec::new(alloc))
    } else {
        body.push(stmt)?;
        Ok(body)
    }
}
