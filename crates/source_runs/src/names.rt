// The words of names, by their numbers, and the members of tables.
ghost use Rattle.std.specs.Prelude.{◌≡◌, ◌<◌, [], length, slice_index, slice_index_or, sum, take};
ghost use Rattle.c_mean.specs.Layout.{rows_of, widths_of};
ghost use Rattle.source_items.specs.Rows.{IsRows, rows_in};
ghost use Rattle.source_runs.specs.Layouts.{IsLayout, IsReady, sizes_at, tree_of};
ghost use Rattle.source_runs.specs.Threads.{IsFrame};

use crate::frames::Frame;
use crate::interpreter::Interpreter;
use crate::layout::Layout;
use source_items::Rows;

impl<'a> Interpreter<'a> {
    /// Returns the layout of a function's names.
    pub(crate) fn layout(&self, function: u32) -> &Layout
        requires ready { IsReady self.now }
        requires there { function < length (tree_of self.now).functions }
        ensures { IsLayout (sizes_at (tree_of self.now) function) result.now }
    {
        &self.layouts[function as usize]
    }

    /// Returns the number of words of each name of a function.
    pub(crate) fn sizes(&self, function: u32) -> &[u32]
        requires { function < length (tree_of self.now).functions }
        ensures { result.now ≡ sizes_at (tree_of self.now) function }
    {
        self.program.functions()[function as usize].sizes.as_slice()
    }

    /// Returns the members of a table.
    pub(crate) fn members(&self, table: u32) -> &[u32]
        requires { table < length (tree_of self.now).tables }
        ensures { result.now ≡ slice_index_or (tree_of self.now).tables table [] }
    {
        self.program.tables()[table as usize].members.as_slice()
    }

    /// Returns the index of the first word of a function's name in a frame.
    pub(crate) fn local_start(&self, function: u32, x: u32) -> usize
        requires ready { IsReady self.now }
        requires there { function < length (tree_of self.now).functions }
        requires named { x < length (sizes_at (tree_of self.now) function) }
        ensures { result ≡ sum (take x (sizes_at (tree_of self.now) function)) }
    {
        self.layout(function).starts[x as usize] as usize
    }

    /// Returns the index of the first word of a global.
    pub(crate) fn global_start(&self, g: u32) -> usize
        requires ready { IsReady self.now }
        requires named { g < length (widths_of (tree_of self.now).globals) }
        ensures { result ≡ sum (take g (widths_of (tree_of self.now).globals)) }
    {
        self.global_layout.starts[g as usize] as usize
    }

    /// Returns the words of the globals, by their numbers.
    pub(crate) fn global_rows<'s>(&'s self, globals: &'s [u32]) -> Rows<'s>
        requires ready { IsReady self.now }
        requires full { length globals.now ≡ sum (widths_of (tree_of self.now).globals) }
        ensures rows { IsRows result }
        ensures widths { result.widths.now ≡ widths_of (tree_of self.now).globals }
        ensures words { rows_in result ≡ rows_of (widths_of (tree_of self.now).globals) globals.now }
    {
        Rows {
            widths: self.global_widths.as_slice(),
            starts: self.global_layout.starts.as_slice(),
            words: globals,
        }
    }

    /// Returns the words of a frame's names, by their numbers.
    pub(crate) fn name_rows<'s>(&'s self, frame: &'s Frame<'a>) -> Rows<'s>
        requires ready { IsReady self.now }
        requires frame { IsFrame (tree_of self.now) frame.now }
        ensures rows { IsRows result }
        ensures widths { result.widths.now ≡ sizes_at (tree_of self.now) frame.now.function }
        ensures words { rows_in result ≡ rows_of (sizes_at (tree_of self.now) frame.now.function) frame.now.names.items }
    {
        Rows {
            widths: self.sizes(frame.function),
            starts: self.layout(frame.function).starts.as_slice(),
            words: frame.names.as_slice(),
        }
    }
}
