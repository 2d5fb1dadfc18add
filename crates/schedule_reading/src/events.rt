// What the running thread does next, by the source's own run.
ghost use Rattle.std.specs.Prelude.{◌≡◌, ◌-◌, ◌<◌};
ghost use Rattle.cap_word.specs.declared.calls.Ask.TheVariants.{Spawn};
ghost use Rattle.c_mean.specs.Steps.{source_resume};
ghost use Rattle.c_mean.specs.World.{Segment};
ghost use Rattle.lawful_reading.specs.Given.{Given};
ghost use Rattle.lawful_reading.specs.State.{State};
ghost use Rattle.source_runs.specs.Layouts.{IsReady, tree_of};
ghost use Rattle.source_runs.specs.Threads.{IsThread, globals_of, running_of, waiting_of};

use crate::reading::{Reading, Under};
use crate::rulings::Failure;
use cap_word::{Ask, Block, TrapKind};
use ready_tree::Need;
use resource_monitor::Measure;
use source_runs::Coming;

/// The maximum number of live threads.
const MOST_LIVE: u32 = 65_535;

/// What the running thread does next.
#[derive(Clone, Copy)]
pub enum Happening {
    /// It puts a word.
    Puts(u32),
    /// It blocks.
    Blocks(Block),
    /// It ends.
    Ends,
    /// It traps.
    Traps(TrapKind),
    /// It asks to start a thread while the maximum number is live; only if the caller asks for this.
    IsCrowded,
    /// Nothing within the limit on steps.
    OutOfSteps,
}

impl<'a, C: Measure + Drop> Reading<'a, C> {
    ghost use Rattle.schedule_reading.specs.Coming.{Advances, Answers, AsksSomehow, CrowdsFirst, HasHappened, KeepsBut, MayAnswer, MayRun, RunsSomehow};

    /// Runs the thread of a segment up to what it does next, by at most `left` steps, and subtracts the steps taken. If
    /// `crowds` is set, it stops at a start of a thread while the maximum number is live.
    pub fn happen(
        &mut self,
        under: &mut Under<'a>,
        left: &mut u64,
        crowds: bool,
    ) -> Result<Happening, Failure>
        requires { RunsSomehow self.old.core under.old left.old }
        ensures happens { (g : Given) (state : State) (here : Segment) → MayRun g state here self.old.core under.old left.old → HasHappened g state here left.old left.new self.new.core under.new result }
        ensures crowds { (g : Given) (state : State) (here : Segment) → MayRun g state here self.old.core under.old left.old → CrowdsFirst g here crowds (left.old - left.new) result }
        ensures keeps { KeepsBut self.old.core under.old left.old self.new.core under.new left.new }
        ensures rest { self.new ≡ record self.old { core = self.new.core } }
    {
        while *left > 0 {
            if let Some(happening) = self.advance(under, left, crowds)? {
                return Ok(happening);
            }
        }
        Ok(Happening::OutOfSteps)
    }

    /// Runs the thread up to its next question, and answers a call that is answered at once. Returns `None` if the
    /// thread continues after that.
    fn advance(
        &mut self,
        under: &mut Under<'a>,
        left: &mut u64,
        crowds: bool,
    ) -> Result<Option<Happening>, Failure>
        requires runs { RunsSomehow self.old.core under.old left.old }
        requires some { 0 < left.old }
        ensures advances { (g : Given) (state : State) (here : Segment) → MayRun g state here self.old.core under.old left.old → Advances g state here crowds left.old left.new self.new.core under.new result }
        ensures keeps { KeepsBut self.old.core under.old left.old self.new.core under.new left.new }
        ensures rest { self.new ≡ record self.old { core = self.new.core } }
    {
        let coming = self
            .interpreter
            .run(&mut under.thread, &mut self.globals, left)?;
        match coming {
            Coming::Asks(ask) => self.answer(under, ask, crowds),
            Coming::Blocks(block) => match self.threads.trap_of(block) {
                None => Ok(Some(Happening::Blocks(block))),
                Some(kind) => Ok(Some(Happening::Traps(kind))),
            },
            Coming::Ends => Ok(Some(Happening::Ends)),
            Coming::Traps(kind) => Ok(Some(Happening::Traps(kind))),
            Coming::OutOfSteps => Ok(Some(Happening::OutOfSteps)),
        }
    }

    /// Answers a call at once: the thread continues with the result, or this is what it does next.
    fn answer(
        &mut self,
        under: &mut Under<'a>,
        ask: Ask,
        crowds: bool,
    ) -> Result<Option<Happening>, Failure>
        requires { AsksSomehow self.old.core under.old ask }
        ensures answers { (g : Given) (state : State) (last : Segment) → MayAnswer g state last self.old.core under.old ask → Answers g state last crowds self.new.core under.new result }
        ensures keeps { KeepsBut self.old.core under.old 1 self.new.core under.new 0 }
        ensures rest { self.new ≡ record self.old { core = self.new.core } }
    {
        match ask {
            Ask::Put { value } => {
                self.resume(under, 0);
                Ok(Some(Happening::Puts(value)))
            }
            Ask::SelfNumber => {
                let number = under.choice.thread.number;
                self.resume(under, number);
                Ok(None)
            }
            Ask::Give { resource, amount } => match self.threads.give(resource, amount) {
                None => {
                    self.resume(under, 0);
                    Ok(None)
                }
                Some(kind) => Ok(Some(Happening::Traps(kind))),
            },
            Ask::Spawn { function, argument } => self.spawn(under, function, argument, crowds),
        }
    }

    /// Starts a thread, which waits at node 0.
    fn spawn(
        &mut self,
        under: &mut Under<'a>,
        function: u32,
        argument: u32,
        crowds: bool,
    ) -> Result<Option<Happening>, Failure>
        requires { AsksSomehow self.old.core under.old (Spawn function argument) }
        ensures answers { (g : Given) (state : State) (last : Segment) → MayAnswer g state last self.old.core under.old (Spawn function argument) → Answers g state last crowds self.new.core under.new result }
        ensures keeps { KeepsBut self.old.core under.old 1 self.new.core under.new 0 }
        ensures rest { self.new ≡ record self.old { core = self.new.core } }
    {
        if crowds && self.threads.live() == MOST_LIVE {
            return Ok(Some(Happening::IsCrowded));
        }
        let started = self.threads.add(function, Some(argument))?;
        self.scheduler.enqueue_for(0, started, Need::Nothing)?;
        self.resume(under, started.number);
        Ok(None)
    }

    /// Continues the thread with the result of its call.
    fn resume(&mut self, under: &mut Under<'a>, word: u32)
        requires ready { IsReady self.old.core.interpreter }
        requires thread { IsThread (tree_of self.old.core.interpreter) under.old.thread self.old.core.words }
        ensures goes_on { running_of (tree_of self.old.core.interpreter) under.new.thread self.new.core.words ≡ source_resume (waiting_of (tree_of self.old.core.interpreter) under.old.thread) (record { result = word; globals = globals_of (tree_of self.old.core.interpreter) self.old.core.words }) }
        ensures thread { IsThread (tree_of self.old.core.interpreter) under.new.thread self.new.core.words }
        ensures rest { self.new ≡ record self.old { core = record self.old.core { words = self.new.core.words } } }
        ensures under { under.new ≡ record under.old { thread = under.new.thread } }
    {
        self.interpreter
            .resume(&mut under.thread, &mut self.globals, word);
    }
}
