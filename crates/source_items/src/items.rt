// What a frame has still to do: a stack of items, the next one on top.

ghost use Rattle.std.specs.Prelude.{◌≡◌, ◌≢◌, ◌^◌, ℕ, ◌<◌, Bool, List, [], ◌∷◌, ◌++◌, length, map, option_map, Option, None, Some, OnOk, MatchOption, slice_get};
ghost use Rattle.c_tree.specs.Trees.{ExprTree, SimpleTree, StmtTree, For};
ghost use Rattle.c_tree.specs.Views.{expr_tree, simple_tree, stmt_tree, stmt_trees};
ghost use Rattle.source_items.specs.declared.items.Part.{Part};
ghost use Rattle.c_tree.specs.WellScoped.{AreStmtsScoped, Context};
ghost use Rattle.c_mean.specs.ToDo as todo;
ghost use Rattle.c_mean.specs.ToDo.{ForLoop};
ghost use Rattle.source_items.specs.Items as parts;
ghost use Rattle.source_items.specs.Items.{AreItems, HasPart, IsItem, IsLoop, IsScoped, IsTaken, entered, item_of, part_item, to_do, loop_of};

use c_tree::{Expr, Simple, Stmt};
use std::alloc::AllocError;

/// The part of a statement that is to be done.
#[derive(Clone, Copy, PartialEq, Eq)]
pub enum Part {
    /// All of it: a declaration, an assignment or a call; the test of a branch or of a `while`; a jump or a `return`.
    Whole,
    /// The part with this number of the first part of a `for`.
    Start(usize),
    /// The test of a `for`'s condition.
    Test,
    /// A turn of a `for` without a condition begins here; it isn't a step.
    Enter,
    /// The step of a `for`.
    Step,
    /// The jump back at the end of a loop's turn.
    Back,
}

/// One thing that is still to do: a part of a statement.
#[derive(Clone, Copy)]
pub struct Item<'a> {
    pub part: Part,
    pub stmt: &'a Stmt,
}

/// Pushes a part of a statement.
fn push<'a>(items: &mut Vec<Item<'a>>, part: Part, stmt: &'a Stmt) -> Result<(), AllocError>
    ensures next { OnOk result (to_do items.new.items ≡ part_item part (stmt_tree stmt.now) ∷ to_do items.old.items) }
    ensures fits { (c : Context) → AreItems c items.old.items → HasPart part (stmt_tree stmt.now) → IsScoped c (stmt_tree stmt.now) → OnOk result (AreItems c items.new.items) }
{
    items.push(Item { part, stmt })?;
    Ok(())
}

/// Pushes a statement, which is to be done next.
#[cycle(before)]
#[inline(always)]
pub fn push_stmt<'a>(items: &mut Vec<Item<'a>>, stmt: &'a Stmt) -> Result<(), AllocError>
    ensures next { OnOk result (to_do items.new.items ≡ todo.before (stmt_tree stmt.now) (to_do items.old.items)) }
    ensures fits { (c : Context) → AreItems c items.old.items → IsScoped c (stmt_tree stmt.now) → OnOk result (AreItems c items.new.items) }
{
    match stmt {
        Stmt::Empty => Ok(()),
        Stmt::Block(stmts) => push_stmts(items, stmts),
        Stmt::For { parts, body } => match &parts.condition {
            Some(_) => {
                push(items, Part::Test, stmt)?;
                push_start(items, stmt, &parts.init)
            }
            None => {
                push_end(items, stmt)?;
                push_stmt(items, body)?;
                push(items, Part::Enter, stmt)?;
                push_start(items, stmt, &parts.init)
            }
        },
        Stmt::Simple(_) => push(items, Part::Whole, stmt),
        Stmt::If { .. } => push(items, Part::Whole, stmt),
        Stmt::IfElse { .. } => push(items, Part::Whole, stmt),
        Stmt::While { .. } => push(items, Part::Whole, stmt),
        Stmt::Break => push(items, Part::Whole, stmt),
        Stmt::Continue => push(items, Part::Whole, stmt),
        Stmt::Return(_) => push(items, Part::Whole, stmt),
    }
}

/// Pushes statements, which are to be done next, in order.
#[cycle(before)]
#[inline(never)]
pub fn push_stmts<'a>(items: &mut Vec<Item<'a>>, stmts: &'a [Stmt]) -> Result<(), AllocError>
    ensures next { OnOk result (to_do items.new.items ≡ todo.all_before (stmt_trees stmts.now) (to_do items.old.items)) }
    ensures fits { (c : Context) (loop : Bool) (scope : List ℕ) → AreItems c items.old.items → AreStmtsScoped c loop scope (stmt_trees stmts.now) → OnOk result (AreItems c items.new.items) }
{
    let mut left = stmts.len();
    while left > 0 {
        left -= 1;
        push_stmt(items, &stmts[left])?;
    }
    Ok(())
}

/// Pushes the first part of a `for`.
fn push_start<'a>(
    items: &mut Vec<Item<'a>>,
    stmt: &'a Stmt,
    init: &[Simple],
) -> Result<(), AllocError>
    requires { parts.start_of (stmt_tree stmt.now) ≡ map simple_tree init.now }
    ensures next { OnOk result (to_do items.new.items ≡ map todo.Simply (map simple_tree init.now) ++ to_do items.old.items) }
    ensures fits { (c : Context) → AreItems c items.old.items → IsScoped c (stmt_tree stmt.now) → OnOk result (AreItems c items.new.items) }
{
    let mut left = init.len();
    while left > 0 {
        left -= 1;
        push(items, Part::Start(left), stmt)?;
    }
    Ok(())
}

/// Pushes the end of a loop's turn: the step of a `for`, if it has one, and the jump back.
#[inline(always)]
fn push_end<'a>(items: &mut Vec<Item<'a>>, stmt: &'a Stmt) -> Result<(), AllocError>
    ensures next { OnOk result (to_do items.new.items ≡ todo.step_item (parts.step_of (stmt_tree stmt.now)) ++ todo.Back (loop_of (stmt_tree stmt.now)) ∷ to_do items.old.items) }
    ensures fits { (c : Context) → AreItems c items.old.items → IsLoop (stmt_tree stmt.now) → IsScoped c (stmt_tree stmt.now) → OnOk result (AreItems c items.new.items) }
{
    push(items, Part::Back, stmt)?;
    match step_of(stmt) {
        Some(_) => push(items, Part::Step, stmt),
        None => Ok(()),
    }
}

/// Pushes the body of a loop and the end of its turn.
#[inline(always)]
pub fn push_body<'a>(items: &mut Vec<Item<'a>>, stmt: &'a Stmt) -> Result<(), AllocError>
    ensures next { OnOk result (to_do items.new.items ≡ todo.body_before (loop_of (stmt_tree stmt.now)) (to_do items.old.items)) }
    ensures fits { (c : Context) → AreItems c items.old.items → IsLoop (stmt_tree stmt.now) → IsScoped c (stmt_tree stmt.now) → OnOk result (AreItems c items.new.items) }
{
    push_end(items, stmt)?;
    match body_of(stmt) {
        Some(body) => push_stmt(items, body),
        None => Ok(()),
    }
}

/// Pushes a turn of a loop.
pub fn push_turn<'a>(items: &mut Vec<Item<'a>>, stmt: &'a Stmt) -> Result<(), AllocError>
    requires { IsLoop (stmt_tree stmt.now) }
    ensures next { OnOk result (to_do items.new.items ≡ todo.turn_before (loop_of (stmt_tree stmt.now)) (to_do items.old.items)) }
    ensures fits { (c : Context) → AreItems c items.old.items → IsScoped c (stmt_tree stmt.now) → OnOk result (AreItems c items.new.items) }
{
    match condition_of(stmt) {
        Some(_) => push(items, Part::Test, stmt),
        None => {
            if is_for(stmt) {
                push_body(items, stmt)?;
                push(items, Part::Enter, stmt)
            } else {
                push(items, Part::Whole, stmt)
            }
        }
    }
}

/// Removes the items up to and including the jump back of the innermost loop, and returns that loop. Loops without a
/// condition that haven't been entered yet are skipped.
fn take_to_back<'a>(items: &mut Vec<Item<'a>>) -> Option<&'a Stmt>
    ensures { (c : Context) → AreItems c items.old.items → MatchOption result
        ((todo.after_leave 0 (to_do items.old.items) ≡ []) × (todo.after_skip 0 (to_do items.old.items) ≡ []) × (items.new.items ≡ []))
        (λ stmt. IsTaken c items.old.items items.new.items (stmt_tree stmt.now)) }
{
    let mut begun: usize = 0;
    while let Some(item) = items.pop() {
        match item.part {
            Part::Enter => begun += 1,
            Part::Back => {
                if begun == 0 {
                    return Some(item.stmt);
                }
                begun -= 1;
            }
            Part::Whole => (),
            Part::Start(_) => (),
            Part::Test => (),
            Part::Step => (),
        }
    }
    None
}

/// Executes a `break`: what follows the innermost loop is to be done next.
pub fn leave(items: &mut Vec<Item>)
    ensures { (c : Context) → AreItems c items.old.items → (to_do items.new.items ≡ todo.after_leave 0 (to_do items.old.items)) × AreItems c items.new.items }
{
    let _stmt = take_to_back(items);
}

/// Executes a `continue`: the next turn of a `while`, or the step and the jump back of a `for`, is to be done next.
pub fn skip(items: &mut Vec<Item>) -> Result<(), AllocError>
    ensures { (c : Context) → AreItems c items.old.items → OnOk result ((to_do items.new.items ≡ todo.after_skip 0 (to_do items.old.items)) × AreItems c items.new.items) }
{
    match take_to_back(items) {
        None => Ok(()),
        Some(stmt) => {
            if is_for(stmt) {
                push_end(items, stmt)
            } else {
                push(items, Part::Whole, stmt)
            }
        }
    }
}

/// Removes the next item and returns it; marks of turns before it are skipped.
#[inline(always)]
pub fn take_item<'a>(items: &mut Vec<Item<'a>>) -> Option<Item<'a>>
    ensures { (c : Context) → AreItems c items.old.items → MatchOption result
        (entered (to_do items.old.items) ≡ [])
        (λ item. (entered (to_do items.old.items) ≡ item_of item ∷ to_do items.new.items) × IsItem c item × AreItems c items.new.items) }
{
    match items.pop() {
        None => None,
        Some(item) => match item.part {
            Part::Enter => take_entered(items),
            Part::Whole => Some(item),
            Part::Start(_) => Some(item),
            Part::Test => Some(item),
            Part::Step => Some(item),
            Part::Back => Some(item),
        },
    }
}

/// Removes the next item after a mark of a turn. Few loops have marks, so this isn't inlined into the callers of
/// `take_item`.
#[inline(never)]
fn take_entered<'a>(items: &mut Vec<Item<'a>>) -> Option<Item<'a>>
    ensures { (c : Context) → AreItems c items.old.items → MatchOption result
        (entered (to_do items.old.items) ≡ [])
        (λ item. (entered (to_do items.old.items) ≡ item_of item ∷ to_do items.new.items) × IsItem c item × AreItems c items.new.items) }
{
    while let Some(item) = items.pop() {
        match item.part {
            Part::Enter => (),
            Part::Whole => return Some(item),
            Part::Start(_) => return Some(item),
            Part::Test => return Some(item),
            Part::Step => return Some(item),
            Part::Back => return Some(item),
        }
    }
    None
}

/// Returns whether a statement is a `for`.
fn is_for(stmt: &Stmt) -> bool
    ensures { result ≡ parts.is_for (stmt_tree stmt.now) }
{
    match stmt {
        Stmt::For { .. } => true,
        Stmt::Simple(_) => false,
        Stmt::Empty => false,
        Stmt::Block(_) => false,
        Stmt::If { .. } => false,
        Stmt::IfElse { .. } => false,
        Stmt::While { .. } => false,
        Stmt::Break => false,
        Stmt::Continue => false,
        Stmt::Return(_) => false,
    }
}

/// Returns the body of a loop.
fn body_of(stmt: &Stmt) -> Option<&Stmt>
    ensures { option_map (λ s. stmt_tree s.now) result ≡ parts.body_of (stmt_tree stmt.now) }
{
    match stmt {
        Stmt::While { body, .. } => Some(body),
        Stmt::For { body, .. } => Some(body),
        Stmt::Simple(_) => None,
        Stmt::Empty => None,
        Stmt::Block(_) => None,
        Stmt::If { .. } => None,
        Stmt::IfElse { .. } => None,
        Stmt::Break => None,
        Stmt::Continue => None,
        Stmt::Return(_) => None,
    }
}

/// Returns the condition of a `for`.
pub fn condition_of(stmt: &Stmt) -> Option<&Expr>
    ensures { option_map (λ e. expr_tree e.now) result ≡ parts.condition_of (stmt_tree stmt.now) }
{
    match stmt {
        Stmt::For { parts, .. } => parts.condition.as_ref(),
        Stmt::Simple(_) => None,
        Stmt::Empty => None,
        Stmt::Block(_) => None,
        Stmt::If { .. } => None,
        Stmt::IfElse { .. } => None,
        Stmt::While { .. } => None,
        Stmt::Break => None,
        Stmt::Continue => None,
        Stmt::Return(_) => None,
    }
}

/// Returns a declaration or assignment of the first part of a `for`, by its number.
pub fn start_of(stmt: &Stmt, number: usize) -> Option<&Simple>
    ensures { option_map (λ s. simple_tree s.now) result ≡ slice_get (parts.start_of (stmt_tree stmt.now)) number }
{
    match stmt {
        Stmt::For { parts, .. } => parts.init.get(number),
        Stmt::Simple(_) => None,
        Stmt::Empty => None,
        Stmt::Block(_) => None,
        Stmt::If { .. } => None,
        Stmt::IfElse { .. } => None,
        Stmt::While { .. } => None,
        Stmt::Break => None,
        Stmt::Continue => None,
        Stmt::Return(_) => None,
    }
}

/// Returns the step of a `for`.
pub fn step_of(stmt: &Stmt) -> Option<&Simple>
    ensures { option_map (λ s. simple_tree s.now) result ≡ parts.step_of (stmt_tree stmt.now) }
{
    match stmt {
        Stmt::For { parts, .. } => parts.step.as_ref(),
        Stmt::Simple(_) => None,
        Stmt::Empty => None,
        Stmt::Block(_) => None,
        Stmt::If { .. } => None,
        Stmt::IfElse { .. } => None,
        Stmt::While { .. } => None,
        Stmt::Break => None,
        Stmt::Continue => None,
        Stmt::Return(_) => None,
    }
}
