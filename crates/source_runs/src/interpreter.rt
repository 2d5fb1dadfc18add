// The interpreter: it starts threads, runs them to their next request, and resumes them with the answer.
ghost use Rattle.std.specs.Prelude.{◌≡◌, ◌∷◌, [], ℕ, ◌<◌, ◌≤◌, List, Option, None, Some, IfOk, length, option_to_list, sum};
ghost use Rattle.c_tree.specs.ProgramView.{program_tree};
ghost use Rattle.c_mean.specs.Frames.{pushed};
ghost use Rattle.c_mean.specs.Layout as rows;
ghost use Rattle.c_mean.specs.Steps.{started, start_globals};
ghost use Rattle.source_runs.specs.Layouts.{IsReady, params_at, tree_of};
ghost use Rattle.source_runs.specs.Steps.{HasCome};
ghost use Rattle.source_runs.specs.Threads.{IsFrame, IsThread, frame_of, globals_of, running_of};

use crate::frames::{Frame, Next, Place, Thread};
use crate::halts::Halt;
use crate::layout::{Layout, first_words, layout_of, layouts_of, widths_of};
use crate::spare::Spare;
use c_tree::Program;
use cap_word::{Ask, Block, TrapKind};
use source_items::push_stmts;
use std::alloc::{AllocError, Global};

/// Where a run of a thread stops.
#[derive(Clone, Copy)]
pub enum Coming {
    /// A modelled call that is answered at once.
    Asks(Ask),
    /// A modelled call that blocks, unless it is a trap.
    Blocks(Block),
    /// Its end.
    Ends,
    /// A trap by an index or a table.
    Traps(TrapKind),
    /// The maximum number of steps, without any of these.
    OutOfSteps,
}

/// The outcome of a step without a trap.
#[derive(Clone, Copy)]
pub(crate) enum Move {
    Goes,
    Asks(Ask),
    Blocks(Block),
    Ends,
}

/// A program, prepared for running: with the places of its names' words.
#[derive(Drop)]
pub struct Interpreter<'a> {
    pub(crate) alloc: Global,
    pub(crate) program: &'a Program,
    pub(crate) layouts: Vec<Layout>,
    pub(crate) global_widths: Vec<u32>,
    pub(crate) global_layout: Layout,
}

impl<'a> Interpreter<'a> {
    /// Returns an interpreter of a program.
    pub fn new(alloc: Global, program: &'a Program) -> Result<Interpreter<'a>, AllocError>
        ensures ready { IfOk result (λ interpreter. IsReady interpreter) }
        ensures program { IfOk result (λ interpreter. tree_of interpreter ≡ program_tree program.now) }
    {
        let layouts = layouts_of(alloc, program.functions())?;
        let global_widths = widths_of(alloc, program.globals())?;
        let global_layout = layout_of(alloc, global_widths.as_slice())?;
        Ok(Interpreter {
            alloc,
            program,
            layouts,
            global_widths,
            global_layout,
        })
    }

    /// Returns the words of the globals at the start of a run.
    pub fn start_globals(&self) -> Result<Vec<u32>, AllocError>
        requires { IsReady self.now }
        ensures rows { IfOk result (λ words. globals_of (tree_of self.now) words.items ≡ start_globals (tree_of self.now)) }
        ensures count { IfOk result (λ words. length words.items ≡ sum (rows.widths_of (tree_of self.now).globals)) }
    {
        first_words(self.alloc, self.program.globals())
    }

    /// Returns a thread at the start of a function, with an argument if there is one.
    pub fn start(&self, function: u32, argument: Option<u32>) -> Result<Thread<'a>, AllocError>
        requires ready { IsReady self.now }
        requires there { function < length (tree_of self.now).functions }
        requires fits { params_at (tree_of self.now) function ≡ length (option_to_list argument) }
        ensures started { (words : List ℕ) → IfOk result (λ thread. running_of (tree_of self.now) thread words ≡ started (tree_of self.now) function (option_to_list argument) (globals_of (tree_of self.now) words)) }
        ensures thread { (words : List ℕ) → length words ≡ sum (rows.widths_of (tree_of self.now).globals) → IfOk result (λ thread. IsThread (tree_of self.now) thread words) }
    {
        let names = self.given(argument)?;
        let mut spare = Spare::new(self.alloc);
        let front = self.frame(&mut spare, function, names)?;
        Ok(Thread {
            front,
            below: Vec::new(self.alloc),
            site: 0,
            place: Place::Nowhere,
        })
    }

    /// Returns the argument with which a thread starts, if there is one.
    fn given(&self, argument: Option<u32>) -> Result<Vec<u32>, AllocError>
        ensures { IfOk result (λ words. words.items ≡ option_to_list argument) }
    {
        let mut words = Vec::new(self.alloc);
        match argument {
            Some(word) => {
                words.push(word)?;
                Ok(words)
            }
            None => Ok(words),
        }
    }

    /// Returns a frame at its function's start: its parameters have the arguments, and every other name is 0.
    #[inline(always)]
    pub(crate) fn frame(
        &self,
        spare: &mut Spare<'a>,
        function: u32,
        mut names: Vec<u32>,
    ) -> Result<Frame<'a>, AllocError>
        requires ready { IsReady self.now }
        requires there { function < length (tree_of self.now).functions }
        requires fits { params_at (tree_of self.now) function ≡ length names.items }
        ensures pushed { IfOk result (λ frame. frame_of (tree_of self.now) frame ≡ pushed (tree_of self.now) function names.items) }
        ensures frame { IfOk result (λ frame. IsFrame (tree_of self.now) frame) }
        ensures function { IfOk result (λ frame. frame.function ≡ function) }
    {
        names.resize(self.layout(function).words, 0)?;
        let body = &self.program.functions()[function as usize].body;
        let mut items = spare.stack(body.len())?;
        push_stmts(&mut items, body)?;
        Ok(Frame {
            function,
            names,
            next: Next::Items,
            items,
        })
    }

    /// Runs a thread to its next request, its end or its trap, by at most `left` steps, and subtracts the steps taken
    /// from `left`.
    #[inline(never)]
    pub fn run(
        &self,
        thread: &mut Thread<'a>,
        globals: &mut Vec<u32>,
        left: &mut u64,
    ) -> Result<Coming, AllocError>
        requires ready { IsReady self.now }
        requires thread { IsThread (tree_of self.now) thread.old globals.old.items }
        ensures came { IfOk result (HasCome (tree_of self.now) thread.old globals.old.items left.old left.new thread.new globals.new.items) }
        ensures fewer { left.new ≤ left.old }
    {
        let mut spare = Spare::new(self.alloc);
        while *left > 0 {
            *left -= 1;
            match self.step(thread, globals, &mut spare) {
                Ok(Move::Goes) => (),
                Ok(Move::Asks(ask)) => return Ok(Coming::Asks(ask)),
                Ok(Move::Blocks(block)) => return Ok(Coming::Blocks(block)),
                Ok(Move::Ends) => return Ok(Coming::Ends),
                Err(Halt::Trap(kind)) => return Ok(Coming::Traps(kind)),
                Err(Halt::Memory) => return Err(AllocError),
            }
        }
        Ok(Coming::OutOfSteps)
    }
}
