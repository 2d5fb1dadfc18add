// One step of a source thread.
ghost use Rattle.std.specs.Prelude.{◌≡◌, Ok, Err, MatchResult, option_map};
ghost use Rattle.c_tree.specs.Views.{expr_tree, right_tree, simple_tree, stmt_tree};
ghost use Rattle.c_tree.specs.WellScoped.{IsExprScoped, IsReturnScoped, IsRightScoped, IsSimpleScoped};
ghost use Rattle.c_mean.specs.Steps.{assigns, branched, does, gives_back, on_value, performs, source_step, valued};
ghost use Rattle.c_mean.specs.ToDo as todo;
ghost use Rattle.source_items.specs.Items.{IsItem, IsLoop, IsScoped, IsWhole, item_of, loop_of, to_do, whole_item};
ghost use Rattle.source_runs.specs.Layouts.{InSomeScope, IsReady, context_at, tree_of};
ghost use Rattle.source_runs.specs.Steps.{HasStepped, else_tree};
ghost use Rattle.source_runs.specs.Threads.{IsPlace, IsThread, place_of, running_of};
ghost use Rattle.source_runs.specs.declared.frames.Next.TheVariants as next;
ghost use Rattle.source_runs.specs.declared.halts.Halt.TheVariants as halt;
ghost use Rattle.source_runs.specs.declared.interpreter.Move.TheVariants as move;

use crate::frames::{Next, Place, Thread};
use crate::halts::Halt;
use crate::interpreter::{Interpreter, Move};
use crate::spare::Spare;
use c_tree::{Expr, RightSide, Simple, Stmt};
use source_items::{
    Item, Part, condition_of, leave, push_body, push_stmt, push_turn, skip, start_of, step_of,
    take_item,
};
use std::alloc::AllocError;

/// Returns that a step continues, unless an allocation failed.
pub(crate) fn went(pushed: Result<(), AllocError>) -> Result<Move, Halt>
    ensures { MatchResult pushed (λ _. result ≡ Ok move.Goes) (λ _. result ≡ Err halt.Memory) }
{
    match pushed {
        Ok(()) => Ok(Move::Goes),
        Err(_) => Err(Halt::Memory),
    }
}

impl<'a> Interpreter<'a> {
    /// Executes one step. A function that reaches its end returns 0 if it is an `int` function.
    #[inline(always)]
    pub(crate) fn step(
        &self,
        thread: &mut Thread<'a>,
        globals: &mut Vec<u32>,
        spare: &mut Spare<'a>,
    ) -> Result<Move, Halt>
        requires ready { IsReady self.now }
        requires thread { IsThread (tree_of self.now) thread.old globals.old.items }
        ensures { HasStepped (tree_of self.now) (source_step (tree_of self.now) (running_of (tree_of self.now) thread.old globals.old.items)) thread.new globals.new.items result }
    {
        match thread.front.next {
            Next::Items => match take_item(&mut thread.front.items) {
                None => Ok(self.give_back(thread, globals, spare, 0)),
                Some(item) => self.perform(thread, globals, spare, item),
            },
            Next::GiveBack(word) => Ok(self.give_back(thread, globals, spare, word)),
            Next::Fail(kind) => Err(Halt::Trap(kind)),
        }
    }

    /// Executes an item, when the thread has only the items after it still to do.
    #[inline(always)]
    fn perform(
        &self,
        thread: &mut Thread<'a>,
        globals: &mut Vec<u32>,
        spare: &mut Spare<'a>,
        item: Item<'a>,
    ) -> Result<Move, Halt>
        requires ready { IsReady self.now }
        requires thread { IsThread (tree_of self.now) thread.old globals.old.items }
        requires next { thread.old.front.next ≡ next.Items }
        requires item { IsItem (context_at (tree_of self.now) thread.old.front.function) item }
        ensures { HasStepped (tree_of self.now) (performs (tree_of self.now) (running_of (tree_of self.now) thread.old globals.old.items) (item_of item.entry) (to_do thread.old.front.items.items)) thread.new globals.new.items result }
    {
        match item.part {
            Part::Whole => self.whole(thread, globals, spare, item.stmt),
            Part::Start(number) => match start_of(item.stmt, number) {
                Some(simple) => self.perform_simple(thread, globals, spare, simple),
                None => unreachable!(),
            },
            Part::Test => match condition_of(item.stmt) {
                Some(condition) => self.test(thread, globals, condition, item.stmt),
                None => unreachable!(),
            },
            Part::Enter => Ok(Move::Goes),
            Part::Step => match step_of(item.stmt) {
                Some(simple) => self.perform_simple(thread, globals, spare, simple),
                None => unreachable!(),
            },
            Part::Back => { went(push_turn(&mut thread.front.items, item.stmt)) }
        }
    }

    /// Executes a statement that is one item.
    #[inline(always)]
    fn whole(
        &self,
        thread: &mut Thread<'a>,
        globals: &mut Vec<u32>,
        spare: &mut Spare<'a>,
        stmt: &'a Stmt,
    ) -> Result<Move, Halt>
        requires ready { IsReady self.now }
        requires thread { IsThread (tree_of self.now) thread.old globals.old.items }
        requires next { thread.old.front.next ≡ next.Items }
        requires whole { IsWhole (stmt_tree stmt.now) }
        requires scoped { IsScoped (context_at (tree_of self.now) thread.old.front.function) (stmt_tree stmt.now) }
        ensures { HasStepped (tree_of self.now) (performs (tree_of self.now) (running_of (tree_of self.now) thread.old globals.old.items) (whole_item (stmt_tree stmt.now)) (to_do thread.old.front.items.items)) thread.new globals.new.items result }
    {
        match stmt {
            Stmt::Simple(simple) => self.perform_simple(thread, globals, spare, simple),
            Stmt::If { condition, then } => self.choose(thread, globals, condition, then, None),
            Stmt::IfElse {
                condition,
                then,
                otherwise,
            } => self.choose(thread, globals, condition, then, Some(otherwise)),
            Stmt::While { condition, .. } => self.test(thread, globals, condition, stmt),
            Stmt::Break => {
                leave(&mut thread.front.items);
                Ok(Move::Goes)
            }
            Stmt::Continue => { went(skip(&mut thread.front.items)) }
            Stmt::Return(value) => self.return_right(thread, globals, spare, value),
            Stmt::Empty => unreachable!(),
            Stmt::Block(_) => unreachable!(),
            Stmt::For { .. } => unreachable!(),
        }
    }

    /// Executes the test of a branch.
    #[inline(always)]
    fn choose(
        &self,
        thread: &mut Thread<'a>,
        globals: &mut Vec<u32>,
        condition: &Expr,
        then: &'a Stmt,
        otherwise: Option<&'a Stmt>,
    ) -> Result<Move, Halt>
        requires ready { IsReady self.now }
        requires thread { IsThread (tree_of self.now) thread.old globals.old.items }
        requires next { thread.old.front.next ≡ next.Items }
        requires condition { InSomeScope (λ scope. IsExprScoped (context_at (tree_of self.now) thread.old.front.function) scope (expr_tree condition.now)) }
        requires first { IsScoped (context_at (tree_of self.now) thread.old.front.function) (stmt_tree then.now) }
        requires second { IsScoped (context_at (tree_of self.now) thread.old.front.function) (else_tree otherwise) }
        ensures { HasStepped (tree_of self.now) (on_value (running_of (tree_of self.now) thread.old globals.old.items) (valued (running_of (tree_of self.now) thread.old globals.old.items) (expr_tree condition.now))
            (branched (running_of (tree_of self.now) thread.old globals.old.items) (todo.before (stmt_tree then.now) (to_do thread.old.front.items.items)) (todo.before (else_tree otherwise.entry) (to_do thread.old.front.items.items)))) thread.new globals.new.items result }
    {
        let word = self.value(thread, globals, condition)?;
        if word != 0 {
            return went(push_stmt(&mut thread.front.items, then));
        }
        match otherwise {
            Some(second) => { went(push_stmt(&mut thread.front.items, second)) }
            None => Ok(Move::Goes),
        }
    }

    /// Executes the test of a loop.
    #[inline(always)]
    fn test(
        &self,
        thread: &mut Thread<'a>,
        globals: &mut Vec<u32>,
        condition: &Expr,
        stmt: &'a Stmt,
    ) -> Result<Move, Halt>
        requires ready { IsReady self.now }
        requires thread { IsThread (tree_of self.now) thread.old globals.old.items }
        requires next { thread.old.front.next ≡ next.Items }
        requires condition { InSomeScope (λ scope. IsExprScoped (context_at (tree_of self.now) thread.old.front.function) scope (expr_tree condition.now)) }
        requires is_loop { IsLoop (stmt_tree stmt.now) }
        requires scoped { IsScoped (context_at (tree_of self.now) thread.old.front.function) (stmt_tree stmt.now) }
        ensures { HasStepped (tree_of self.now) (on_value (running_of (tree_of self.now) thread.old globals.old.items) (valued (running_of (tree_of self.now) thread.old globals.old.items) (expr_tree condition.now))
            (branched (running_of (tree_of self.now) thread.old globals.old.items) (todo.body_before (loop_of (stmt_tree stmt.now)) (to_do thread.old.front.items.items)) (to_do thread.old.front.items.items))) thread.new globals.new.items result }
    {
        let word = self.value(thread, globals, condition)?;
        if word != 0 {
            return went(push_body(&mut thread.front.items, stmt));
        }
        Ok(Move::Goes)
    }

    /// Executes a `return`, with an optional value.
    #[inline(always)]
    fn return_right(
        &self,
        thread: &mut Thread<'a>,
        globals: &mut Vec<u32>,
        spare: &mut Spare<'a>,
        value: &Option<RightSide>,
    ) -> Result<Move, Halt>
        requires ready { IsReady self.now }
        requires thread { IsThread (tree_of self.now) thread.old globals.old.items }
        requires scoped { InSomeScope (λ scope. IsReturnScoped (context_at (tree_of self.now) thread.old.front.function) scope (option_map right_tree value.now)) }
        ensures { HasStepped (tree_of self.now) (gives_back (tree_of self.now) (running_of (tree_of self.now) thread.old globals.old.items) (option_map right_tree value.now)) thread.new globals.new.items result }
    {
        match value {
            None => Ok(self.give_back(thread, globals, spare, 0)),
            Some(RightSide::Expr(expr)) => {
                let word = self.value(thread, globals, expr)?;
                Ok(self.give_back(thread, globals, spare, word))
            }
            Some(RightSide::Call(call)) => self.call(thread, globals, spare, Place::Returned, call),
        }
    }

    /// Executes a declaration of one name, an assignment or a call. In `a[i] = e` the index is evaluated before the
    /// right side, and tested after it.
    #[inline(always)]
    fn perform_simple(
        &self,
        thread: &mut Thread<'a>,
        globals: &mut Vec<u32>,
        spare: &mut Spare<'a>,
        simple: &Simple,
    ) -> Result<Move, Halt>
        requires ready { IsReady self.now }
        requires thread { IsThread (tree_of self.now) thread.old globals.old.items }
        requires scoped { InSomeScope (λ scope. IsSimpleScoped (context_at (tree_of self.now) thread.old.front.function) scope (simple_tree simple.now)) }
        ensures { HasStepped (tree_of self.now) (does (tree_of self.now) (running_of (tree_of self.now) thread.old globals.old.items) (simple_tree simple.now)) thread.new globals.new.items result }
    {
        match simple {
            Simple::DeclareScalar { variable } => {
                self.clear(thread, *variable);
                Ok(Move::Goes)
            }
            Simple::DeclareArray { variable, .. } => {
                self.clear(thread, *variable);
                Ok(Move::Goes)
            }
            Simple::DeclareWith { variable, value } => {
                self.assign(thread, globals, spare, Place::Local(*variable), value)
            }
            Simple::SetLocal { variable, value } => {
                self.assign(thread, globals, spare, Place::Local(*variable), value)
            }
            Simple::SetGlobal { global, value } => {
                self.assign(thread, globals, spare, Place::Global(*global), value)
            }
            Simple::SetLocalElement {
                array,
                index,
                value,
            } => {
                let array = *array;
                let index = self.value(thread, globals, index)?;
                self.assign(
                    thread,
                    globals,
                    spare,
                    Place::LocalElement { array, index },
                    value,
                )
            }
            Simple::SetGlobalElement {
                array,
                index,
                value,
            } => {
                let array = *array;
                let index = self.value(thread, globals, index)?;
                self.assign(
                    thread,
                    globals,
                    spare,
                    Place::GlobalElement { array, index },
                    value,
                )
            }
            Simple::Call(call) => self.call(thread, globals, spare, Place::Nowhere, call),
        }
    }

    /// Evaluates a right side; its value or result goes to a place.
    #[inline(always)]
    fn assign(
        &self,
        thread: &mut Thread<'a>,
        globals: &mut Vec<u32>,
        spare: &mut Spare<'a>,
        place: Place,
        value: &RightSide,
    ) -> Result<Move, Halt>
        requires ready { IsReady self.now }
        requires thread { IsThread (tree_of self.now) thread.old globals.old.items }
        requires place { IsPlace (tree_of self.now) thread.old.front.function place }
        requires scoped { InSomeScope (λ scope. IsRightScoped (context_at (tree_of self.now) thread.old.front.function) scope (right_tree value.now)) }
        ensures { HasStepped (tree_of self.now) (assigns (tree_of self.now) (running_of (tree_of self.now) thread.old globals.old.items) (place_of place) (right_tree value.now)) thread.new globals.new.items result }
    {
        match value {
            RightSide::Expr(expr) => {
                let word = self.value(thread, globals, expr)?;
                self.store(thread, globals, place, word)?;
                Ok(Move::Goes)
            }
            RightSide::Call(call) => self.call(thread, globals, spare, place, call),
        }
    }
}
