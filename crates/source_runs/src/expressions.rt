// The words of expressions in the running frame.
//
// Most expressions are short: their value is computed without a call, and without keeping the rows
// in memory.
ghost use Rattle.std.specs.Prelude.{◌≡◌, ◌<◌, Ok, IfSome, length, sum};
ghost use Rattle.c_tree.specs.Views.{expr_tree};
ghost use Rattle.c_mean.specs.Layout.{IsInRange, rows_of, widths_of};
ghost use Rattle.c_mean.specs.Values.{value};
ghost use Rattle.source_items.specs.Rows.{or_index};
ghost use Rattle.source_runs.specs.Layouts.{IsReady, sizes_at, tree_of};
ghost use Rattle.source_runs.specs.Threads.{IsFrame, globals_of};

use crate::frames::Thread;
use crate::interpreter::Interpreter;
use c_tree::Expr;
use source_items::{composed, short_value};

impl<'a> Interpreter<'a> {
    /// Returns the value of an expression in the running frame, or `None` if an index is out of
    /// range.
    #[inline(never)]
    pub(crate) fn word(&self, thread: &Thread<'a>, globals: &Vec<u32>, expr: &Expr) -> Option<u32>
        requires ready { IsReady self.now }
        requires frame { IsFrame (tree_of self.now) thread.now.front }
        requires full { length globals.now.items ≡ sum (widths_of (tree_of self.now).globals) }
        requires in_range { IsInRange (sizes_at (tree_of self.now) thread.now.front.function) (widths_of (tree_of self.now).globals) (expr_tree expr.now) }
        ensures { or_index result ≡ value (rows_of (sizes_at (tree_of self.now) thread.now.front.function) thread.now.front.names.items) (globals_of (tree_of self.now) globals.now.items) (expr_tree expr.now) }
    {
        match self.short_word(thread, globals, expr) {
            Some(word) => Some(word),
            None => self.long_word(thread, globals, expr),
        }
    }

    /// Returns the value of a short expression, or `None` for any other form.
    #[inline(always)]
    fn short_word(&self, thread: &Thread<'a>, globals: &Vec<u32>, expr: &Expr) -> Option<u32>
        requires ready { IsReady self.now }
        requires frame { IsFrame (tree_of self.now) thread.now.front }
        requires full { length globals.now.items ≡ sum (widths_of (tree_of self.now).globals) }
        requires in_range { IsInRange (sizes_at (tree_of self.now) thread.now.front.function) (widths_of (tree_of self.now).globals) (expr_tree expr.now) }
        ensures { IfSome result (λ word. value (rows_of (sizes_at (tree_of self.now) thread.now.front.function) thread.now.front.names.items) (globals_of (tree_of self.now) globals.now.items) (expr_tree expr.now) ≡ Ok word) }
    {
        let names = self.name_rows(&thread.front);
        let globals = self.global_rows(globals);
        short_value(&names, &globals, expr)
    }

    /// Returns the value of an expression of any form, or `None` if an index is out of range.
    #[inline(never)]
    fn long_word(&self, thread: &Thread<'a>, globals: &Vec<u32>, expr: &Expr) -> Option<u32>
        requires ready { IsReady self.now }
        requires frame { IsFrame (tree_of self.now) thread.now.front }
        requires full { length globals.now.items ≡ sum (widths_of (tree_of self.now).globals) }
        requires in_range { IsInRange (sizes_at (tree_of self.now) thread.now.front.function) (widths_of (tree_of self.now).globals) (expr_tree expr.now) }
        ensures { or_index result ≡ value (rows_of (sizes_at (tree_of self.now) thread.now.front.function) thread.now.front.names.items) (globals_of (tree_of self.now) globals.now.items) (expr_tree expr.now) }
    {
        let names = self.name_rows(&thread.front);
        let globals = self.global_rows(globals);
        composed(&names, &globals, expr)
    }
}
