// Storing words.
ghost use Rattle.std.specs.Prelude.{◌≡◌, ◌+◌, ◌<◌, ◌≤◌, ℕ, List, Ok, Err, MatchResult, length, slice_index, sum, take};
ghost use Rattle.std.specs.List.{AllByRecursion};
ghost use Rattle.cap_word.specs.Rows.{with_zeros};
ghost use Rattle.c_mean.specs.Layout.{rows_of, widths_of};
ghost use Rattle.c_mean.specs.Steps.{delivered_or, returned, source_resume, stored, with_names};
ghost use Rattle.source_runs.specs.Layouts.{IsReady, sizes_at, tree_of};
ghost use Rattle.source_runs.specs.Steps.{HasStepped};
ghost use Rattle.source_runs.specs.Threads.{IsFrame, IsPlace, IsThread, IsWaitingFrame, below_of, globals_of, place_of, running_of, waiting_of};

use crate::frames::{Next, Place, Thread};
use crate::interpreter::{Interpreter, Move};
use crate::spare::Spare;
use cap_word::TrapKind;

/// Sets `width` words to 0, from `start` on.
fn clear_row(words: &mut [u32], start: usize, width: usize)
    requires { start + width ≤ length words.old }
    ensures rows { (ns : List ℕ) (x : ℕ) → x < length ns → start ≡ sum (take x ns) → width ≡ slice_index ns x → length words.old ≡ sum ns → rows_of ns words.new ≡ with_zeros (rows_of ns words.old) x }
    ensures count { length words.new ≡ length words.old }
{
    for i in 0..width {
        words[start + i] = 0;
    }
}

impl<'a> Interpreter<'a> {
    /// Stores a word at a place. An element's index, unsigned, has to be below the array's size. If the word is
    /// returned to the caller, nothing else is left to do.
    #[inline(always)]
    pub(crate) fn store(
        &self,
        thread: &mut Thread<'a>,
        globals: &mut Vec<u32>,
        place: Place,
        word: u32,
    ) -> Result<(), TrapKind>
        requires ready { IsReady self.now }
        requires thread { IsThread (tree_of self.now) thread.old globals.old.items }
        requires place { IsPlace (tree_of self.now) thread.old.front.function place }
        ensures stored { MatchResult result
            (λ _. stored (running_of (tree_of self.now) thread.old globals.old.items) (place_of place) word ≡ Ok (running_of (tree_of self.now) thread.new globals.new.items))
            (λ trap. stored (running_of (tree_of self.now) thread.old globals.old.items) (place_of place) word ≡ Err trap) }
        ensures thread { IsThread (tree_of self.now) thread.new globals.new.items }
        ensures kept { MatchResult result
            (λ _. Unit {0})
            (λ _. running_of (tree_of self.now) thread.new globals.new.items ≡ running_of (tree_of self.now) thread.old globals.old.items) }
    {
        match place {
            Place::Nowhere => Ok(()),
            Place::Local(x) => {
                let start = self.local_start(thread.front.function, x);
                thread.front.names[start] = word;
                Ok(())
            }
            Place::Global(g) => {
                let start = self.global_start(g);
                globals[start] = word;
                Ok(())
            }
            Place::LocalElement { array, index } => {
                let function = thread.front.function;
                if index >= self.sizes(function)[array as usize] {
                    return Err(TrapKind::Index);
                }
                let start = self.local_start(function, array);
                thread.front.names[start + index as usize] = word;
                Ok(())
            }
            Place::GlobalElement { array, index } => {
                if index >= self.global_widths[array as usize] {
                    return Err(TrapKind::Index);
                }
                let start = self.global_start(array);
                globals[start + index as usize] = word;
                Ok(())
            }
            Place::Returned => {
                thread.front.next = Next::GiveBack(word);
                Ok(())
            }
        }
    }

    /// Stores the result of a call; if it can't be stored, only the trap is left to do.
    pub(crate) fn deliver(
        &self,
        thread: &mut Thread<'a>,
        globals: &mut Vec<u32>,
        place: Place,
        word: u32,
    )
        requires ready { IsReady self.now }
        requires thread { IsThread (tree_of self.now) thread.old globals.old.items }
        requires place { IsPlace (tree_of self.now) thread.old.front.function place }
        ensures came { running_of (tree_of self.now) thread.new globals.new.items
            ≡ delivered_or (running_of (tree_of self.now) thread.old globals.old.items) (stored (running_of (tree_of self.now) thread.old globals.old.items) (place_of place) word) }
        ensures thread { IsThread (tree_of self.now) thread.new globals.new.items }
    {
        match self.store(thread, globals, place, word) {
            Ok(()) => (),
            Err(kind) => thread.front.next = Next::Fail(kind),
        }
    }

    /// Resumes a thread with the answer to its modelled call, which isn't a step.
    pub fn resume(&self, thread: &mut Thread<'a>, globals: &mut Vec<u32>, word: u32)
        requires ready { IsReady self.now }
        requires thread { IsThread (tree_of self.now) thread.old globals.old.items }
        ensures goes_on { running_of (tree_of self.now) thread.new globals.new.items ≡ source_resume (waiting_of (tree_of self.now) thread.old) (record { result = word; globals = globals_of (tree_of self.now) globals.old.items }) }
        ensures thread { IsThread (tree_of self.now) thread.new globals.new.items }
    {
        let place = thread.place;
        self.deliver(thread, globals, place, word);
    }

    /// Executes a declaration without a value: sets all words of its name to 0.
    pub(crate) fn clear(&self, thread: &mut Thread<'a>, x: u32)
        requires ready { IsReady self.now }
        requires frame { IsFrame (tree_of self.now) thread.old.front }
        requires named { x < length (sizes_at (tree_of self.now) thread.old.front.function) }
        ensures cleared { (words : List ℕ) → running_of (tree_of self.now) thread.new words
            ≡ with_names (running_of (tree_of self.now) thread.old words) (with_zeros (running_of (tree_of self.now) thread.old words).frame.names x) }
        ensures thread { (words : List ℕ) → IsThread (tree_of self.now) thread.old words → IsThread (tree_of self.now) thread.new words }
    {
        let function = thread.front.function;
        let start = self.local_start(function, x);
        let width = self.sizes(function)[x as usize] as usize;
        clear_row(&mut thread.front.names, start, width);
    }

    /// Returns to the frame below, with a word that is ignored if the function gives no result; or ends the thread.
    pub(crate) fn give_back(
        &self,
        thread: &mut Thread<'a>,
        globals: &mut Vec<u32>,
        spare: &mut Spare<'a>,
        word: u32,
    ) -> Move
        requires ready { IsReady self.now }
        requires below { AllByRecursion (IsWaitingFrame (tree_of self.now)) thread.old.below.items }
        requires full { length globals.old.items ≡ sum (widths_of (tree_of self.now).globals) }
        ensures { HasStepped (tree_of self.now) (returned (running_of (tree_of self.now) thread.old globals.old.items) (below_of (tree_of self.now) thread.old) word) thread.new globals.new.items (Ok result) }
    {
        match thread.below.pop() {
            None => Move::Ends,
            Some(waiting) => {
                spare.keep(&mut thread.front);
                thread.front = waiting.frame;
                thread.place = Place::Nowhere;
                self.deliver(thread, globals, waiting.place, word);
                Move::Goes
            }
        }
    }
}
