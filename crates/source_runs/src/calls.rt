// Calls: of functions, of tables, and those that the thread package answers.
ghost use Rattle.std.specs.Prelude.{◌≡◌, ◌∷◌, [], ◌<◌, ℕ, List, Ok, Err, IfOk, MatchResult, OnOk, length, map, sum};
ghost use Rattle.std.specs.List.{AllByRecursion};
ghost use Rattle.cap_word.specs.Calls.{call_of};
ghost use Rattle.cap_word.specs.ModelledCalls.{number_of, parameters_of};
ghost use Rattle.c_tree.specs.Views.{call_tree, expr_tree};
ghost use Rattle.c_tree.specs.WellScoped.{IsCallScoped};
ghost use Rattle.c_mean.specs.Frames.{pushed};
ghost use Rattle.c_mean.specs.Layout.{IsInRange, rows_of, widths_of};
ghost use Rattle.c_mean.specs.Steps.{called, waits_at};
ghost use Rattle.c_mean.specs.Values.{value, values};
ghost use Rattle.source_items.specs.Rows.{IsRows, rows_in};
ghost use Rattle.source_runs.specs.Layouts.{InSomeScope, IsReady, context_at, params_at, sizes_at, tree_of};
ghost use Rattle.source_runs.specs.Steps.{HasHalted, HasStepped, IsCalling};
ghost use Rattle.source_runs.specs.Threads.{IsFrame, IsPlace, IsThread, below_of, globals_of, place_of, running_of};

use crate::frames::{Place, Thread, WaitingFrame, push};
use crate::halts::Halt;
use crate::interpreter::{Interpreter, Move};
use crate::spare::Spare;
use crate::steps::went;
use c_tree::{Call, Expr, ModelledCall};
use cap_word::{Ask, Block, TrapKind};
use source_items::{Rows, evaluate};
use std::alloc::AllocError;
use std::mem;

/// Evaluates a modelled call; its arguments are evaluated from left to right.
fn modelled(
    names: &Rows,
    globals: &Rows,
    call: ModelledCall,
    arguments: &[Expr],
) -> Result<Move, TrapKind>
    requires names { IsRows names.now }
    requires globals { IsRows globals.now }
    requires in_range { AllByRecursion (IsInRange names.now.widths.now globals.now.widths.now) (map expr_tree arguments.now) }
    requires count { length arguments.now ≡ parameters_of call }
    ensures { MatchResult result
        (λ made. (words : List ℕ) × (values (rows_in names.now) (rows_in globals.now) (map expr_tree arguments.now) ≡ Ok words) × IsCalling made (call_of (number_of call) words))
        (λ trap. values (rows_in names.now) (rows_in globals.now) (map expr_tree arguments.now) ≡ Err trap) }
{
    match call {
        ModelledCall::Accept => Ok(Move::Blocks(Block::Accept)),
        ModelledCall::Yield => Ok(Move::Blocks(Block::Yield)),
        ModelledCall::SelfNumber => Ok(Move::Asks(Ask::SelfNumber)),
        ModelledCall::Wait => {
            let channel = one(names, globals, arguments)?;
            Ok(Move::Blocks(Block::Wait { channel }))
        }
        ModelledCall::Sleep => {
            let ticks = one(names, globals, arguments)?;
            Ok(Move::Blocks(Block::Sleep { ticks }))
        }
        ModelledCall::Put => {
            let value = one(names, globals, arguments)?;
            Ok(Move::Asks(Ask::Put { value }))
        }
        ModelledCall::Take => {
            let (resource, amount) = two(names, globals, arguments)?;
            Ok(Move::Blocks(Block::Take { resource, amount }))
        }
        ModelledCall::WaitFor => {
            let (channel, ticks) = two(names, globals, arguments)?;
            Ok(Move::Blocks(Block::WaitFor { channel, ticks }))
        }
        ModelledCall::Give => {
            let (resource, amount) = two(names, globals, arguments)?;
            Ok(Move::Asks(Ask::Give { resource, amount }))
        }
    }
}

/// Returns the value of the only argument.
fn one(names: &Rows, globals: &Rows, arguments: &[Expr]) -> Result<u32, TrapKind>
    requires names { IsRows names.now }
    requires globals { IsRows globals.now }
    requires in_range { AllByRecursion (IsInRange names.now.widths.now globals.now.widths.now) (map expr_tree arguments.now) }
    requires count { length arguments.now ≡ 1 }
    ensures { MatchResult result
        (λ word. values (rows_in names.now) (rows_in globals.now) (map expr_tree arguments.now) ≡ Ok (word ∷ []))
        (λ trap. values (rows_in names.now) (rows_in globals.now) (map expr_tree arguments.now) ≡ Err trap) }
{
    evaluate(names, globals, &arguments[0])
}

/// Returns the values of both arguments, the first one first.
fn two(names: &Rows, globals: &Rows, arguments: &[Expr]) -> Result<(u32, u32), TrapKind>
    requires names { IsRows names.now }
    requires globals { IsRows globals.now }
    requires in_range { AllByRecursion (IsInRange names.now.widths.now globals.now.widths.now) (map expr_tree arguments.now) }
    requires count { length arguments.now ≡ 2 }
    ensures { MatchResult result
        (λ words. values (rows_in names.now) (rows_in globals.now) (map expr_tree arguments.now) ≡ Ok (words.0 ∷ words.1 ∷ []))
        (λ trap. values (rows_in names.now) (rows_in globals.now) (map expr_tree arguments.now) ≡ Err trap) }
{
    let first = evaluate(names, globals, &arguments[0])?;
    let second = evaluate(names, globals, &arguments[1])?;
    Ok((first, second))
}

impl<'a> Interpreter<'a> {
    /// Returns the value of an expression in the running frame.
    #[inline(always)]
    pub(crate) fn value(
        &self,
        thread: &Thread<'a>,
        globals: &Vec<u32>,
        expr: &Expr,
    ) -> Result<u32, TrapKind>
        requires ready { IsReady self.now }
        requires frame { IsFrame (tree_of self.now) thread.now.front }
        requires full { length globals.now.items ≡ sum (widths_of (tree_of self.now).globals) }
        requires in_range { IsInRange (sizes_at (tree_of self.now) thread.now.front.function) (widths_of (tree_of self.now).globals) (expr_tree expr.now) }
        ensures { result ≡ value (rows_of (sizes_at (tree_of self.now) thread.now.front.function) thread.now.front.names.items) (globals_of (tree_of self.now) globals.now.items) (expr_tree expr.now) }
    {
        match self.word(thread, globals, expr) {
            Some(word) => Ok(word),
            None => Err(TrapKind::Index),
        }
    }

    /// Executes a call whose result goes to a place. Arguments are evaluated from left to right, and a table's index
    /// before its argument.
    pub(crate) fn call(
        &self,
        thread: &mut Thread<'a>,
        globals: &Vec<u32>,
        spare: &mut Spare<'a>,
        place: Place,
        call: &Call,
    ) -> Result<Move, Halt>
        requires ready { IsReady self.now }
        requires thread { IsThread (tree_of self.now) thread.old globals.now.items }
        requires place { IsPlace (tree_of self.now) thread.old.front.function place }
        requires scoped { InSomeScope (λ scope. IsCallScoped (context_at (tree_of self.now) thread.old.front.function) scope (call_tree call.now)) }
        ensures { HasStepped (tree_of self.now) (called (tree_of self.now) (running_of (tree_of self.now) thread.old globals.now.items) (place_of place) (call_tree call.now)) thread.new globals.now.items result }
    {
        match call {
            Call::Function {
                site,
                function,
                arguments,
            } => {
                let words = self.arguments(thread, globals, spare, *function, arguments)?;
                went(self.enter(thread, spare, *site, place, *function, words))
            }
            Call::Table {
                site,
                table,
                index,
                argument,
            } => {
                let index = self.value(thread, globals, index)?;
                let argument = self.value(thread, globals, argument)?;
                let members = self.members(*table);
                if index as usize >= members.len() {
                    return Err(Halt::Trap(TrapKind::Table));
                }
                let function = members[index as usize];
                let words = self.one_word(spare, function, argument)?;
                went(self.enter(thread, spare, *site, place, function, words))
            }
            Call::Spawn {
                site,
                function,
                argument,
            } => {
                let argument = self.value(thread, globals, argument)?;
                thread.site = *site;
                thread.place = place;
                Ok(Move::Asks(Ask::Spawn {
                    function: *function,
                    argument,
                }))
            }
            Call::Modelled {
                site,
                call,
                arguments,
            } => {
                let asked = self.asked(thread, globals, *call, arguments)?;
                thread.site = *site;
                thread.place = place;
                Ok(asked)
            }
        }
    }

    /// Executes a modelled call of the running frame.
    fn asked(
        &self,
        thread: &Thread<'a>,
        globals: &Vec<u32>,
        call: ModelledCall,
        arguments: &[Expr],
    ) -> Result<Move, TrapKind>
        requires ready { IsReady self.now }
        requires frame { IsFrame (tree_of self.now) thread.now.front }
        requires full { length globals.now.items ≡ sum (widths_of (tree_of self.now).globals) }
        requires in_range { AllByRecursion (IsInRange (sizes_at (tree_of self.now) thread.now.front.function) (widths_of (tree_of self.now).globals)) (map expr_tree arguments.now) }
        requires count { length arguments.now ≡ parameters_of call }
        ensures { MatchResult result
            (λ made. (words : List ℕ) × (values (rows_of (sizes_at (tree_of self.now) thread.now.front.function) thread.now.front.names.items) (globals_of (tree_of self.now) globals.now.items) (map expr_tree arguments.now) ≡ Ok words) × IsCalling made (call_of (number_of call) words))
            (λ trap. values (rows_of (sizes_at (tree_of self.now) thread.now.front.function) thread.now.front.names.items) (globals_of (tree_of self.now) globals.now.items) (map expr_tree arguments.now) ≡ Err trap) }
    {
        let names = self.name_rows(&thread.front);
        let globals = self.global_rows(globals);
        modelled(&names, &globals, call, arguments)
    }

    /// Returns the values of a call's arguments, in memory for all words of the function's frame.
    fn arguments(
        &self,
        thread: &Thread<'a>,
        globals: &Vec<u32>,
        spare: &mut Spare<'a>,
        function: u32,
        arguments: &[Expr],
    ) -> Result<Vec<u32>, Halt>
        requires ready { IsReady self.now }
        requires frame { IsFrame (tree_of self.now) thread.now.front }
        requires full { length globals.now.items ≡ sum (widths_of (tree_of self.now).globals) }
        requires there { function < length (tree_of self.now).functions }
        requires in_range { AllByRecursion (IsInRange (sizes_at (tree_of self.now) thread.now.front.function) (widths_of (tree_of self.now).globals)) (map expr_tree arguments.now) }
        ensures { MatchResult result
            (λ words. values (rows_of (sizes_at (tree_of self.now) thread.now.front.function) thread.now.front.names.items) (globals_of (tree_of self.now) globals.now.items) (map expr_tree arguments.now) ≡ Ok words.items)
            (λ halt. HasHalted (values (rows_of (sizes_at (tree_of self.now) thread.now.front.function) thread.now.front.names.items) (globals_of (tree_of self.now) globals.now.items) (map expr_tree arguments.now)) halt) }
    {
        let mut words = spare.words(self.layout(function).words)?;
        for argument in arguments {
            let word = self.value(thread, globals, argument)?;
            push(&mut words, word)?;
        }
        Ok(words)
    }

    /// Evaluates one argument of a function.
    fn one_word(
        &self,
        spare: &mut Spare<'a>,
        function: u32,
        argument: u32,
    ) -> Result<Vec<u32>, AllocError>
        requires ready { IsReady self.now }
        requires there { function < length (tree_of self.now).functions }
        ensures { IfOk result (λ words. words.items ≡ argument ∷ []) }
    {
        let mut words = spare.words(self.layout(function).words)?;
        words.push(argument)?;
        Ok(words)
    }

    /// Calls a function: pushes its frame; the running frame waits at a site for a result that goes to a place.
    #[inline(always)]
    fn enter(
        &self,
        thread: &mut Thread<'a>,
        spare: &mut Spare<'a>,
        site: u32,
        place: Place,
        function: u32,
        words: Vec<u32>,
    ) -> Result<(), AllocError>
        requires ready { IsReady self.now }
        requires frame { IsFrame (tree_of self.now) thread.old.front }
        requires place { IsPlace (tree_of self.now) thread.old.front.function place }
        requires there { function < length (tree_of self.now).functions }
        requires fits { params_at (tree_of self.now) function ≡ length words.items }
        ensures entered { (globals : List ℕ) → OnOk result (running_of (tree_of self.now) thread.new globals
            ≡ record {
              frame = pushed (tree_of self.now) function words.items;
              below = waits_at (running_of (tree_of self.now) thread.old globals) site (place_of place) ∷ below_of (tree_of self.now) thread.old;
              globals = globals_of (tree_of self.now) globals;
            }) }
        ensures thread { (globals : List ℕ) → IsThread (tree_of self.now) thread.old globals → OnOk result (IsThread (tree_of self.now) thread.new globals) }
    {
        let pushed = self.frame(spare, function, words)?;
        let frame = mem::replace(&mut thread.front, pushed);
        thread.place = Place::Nowhere;
        push(&mut thread.below, WaitingFrame { frame, site, place })
    }
}
