// A segment, from call to call.
ghost use Rattle.std.specs.Prelude.{◌≡◌, ◌-◌, ◌<◌, ◌≤◌, None, Some, IfNone};
ghost use Rattle.cap_word.specs.Calls.{Blocking};
ghost use Rattle.machine_world.specs.Local.{Calls};
ghost use Rattle.machine_world.specs.Threads as machine;
ghost use Rattle.machine_world.specs.Threads.{step};
ghost use Rattle.segment_run.specs.Contexts.{checked_of, code_of};
ghost use Rattle.segment_run.specs.Segments.{IsAtModel, IsAtAsk};
ghost use Rattle.thread_core.specs.States.{machine_of, setting_of};
ghost use Rattle.thread_core.specs.Steps.{Runs, LocalIs, MayRun, Ran, Told, OnTold};

use crate::records::Record;
use crate::state::State;
use crate::turns::Turn;
use accepted_pairs::Accepted;
use cap_word::{Ask, Block, Stop, ThreadId};
use segment_run::{Context, Segment, reply, retire, run_segment, start, walk};
use thread_waits::Wait;

/// The maximum number of live threads.
pub const MOST_THREADS: u32 = 65535;

impl State {
    /// Runs the thread up to the next turn.
    pub(crate) fn run(&mut self, accepted: &Accepted, most: u64, thread: ThreadId) -> Turn
        requires { MayRun accepted.now most self.old thread }
        ensures { OnTold accepted.now most thread self.old (Some result) self.new }
    {
        loop {
            if let Some(turn) = self.run_on(accepted, most, thread) {
                return turn;
            }
        }
    }

    // Runs the thread up to its next call and makes it. Returns `None` if the call gives no turn.
    fn run_on(&mut self, accepted: &Accepted, most: u64, thread: ThreadId) -> Option<Turn>
        requires { MayRun accepted.now most self.old thread }
        ensures told { OnTold accepted.now most thread self.old result self.new }
        ensures fuel { IfNone result (self.new.fuel.left < self.old.fuel.left) }
    {
        match self.run_to_call(accepted, most, thread) {
            Segment::Blocks { block } => Some(self.block(accepted, most, thread, block)),
            Segment::Asks { ask } => self.answer(accepted, most, thread, ask),
            Segment::Ends => Some(Turn::Ended {
                cost: self.segment_cost(most),
            }),
            Segment::Traps { kind } => Some(self.cut(most, Stop::Trap(kind))),
            Segment::NoChunk => Some(self.cut(most, Stop::NoChunk)),
            Segment::OutOfFuel => Some(self.cut(most, Stop::Fuel)),
        }
    }

    // Runs the thread up to its next call. The clock advances by the retired instructions; a thread that has ended
    // leaves its record.
    fn run_to_call(&mut self, accepted: &Accepted, most: u64, thread: ThreadId) -> Segment
        requires { MayRun accepted.now most self.old thread }
        ensures { Ran accepted.now most thread self.old result self.new }
    {
        // A number of 64 bits, as the clause requires.
        let _most = most;
        let left = self.fuel.left;
        let mut context = self.context(thread);
        let segment = run_segment(accepted, &mut self.areas, &mut context, &mut self.fuel);
        let retired = left - self.fuel.left;
        match segment {
            Segment::Ends => self.leave(thread),
            _ => self.set_context(thread, context),
        }
        self.tick(retired);
        segment
    }

    // Makes a call that blocks: it retires, and the thread waits, unless the call is a trap.
    fn block(&mut self, accepted: &Accepted, most: u64, thread: ThreadId, block: Block) -> Turn
        requires runs { Runs accepted.now most self.old thread }
        requires fuel { 0 < self.old.fuel.left }
        requires at { LocalIs self.old thread
            (λ l. IsAtModel (checked_of accepted.now) (code_of accepted.now) l
            (Calls (Blocking block))) }
        ensures { Told accepted.now most thread self.old (Some result) self.new }
    {
        let _image = accepted.image();
        if let Some(kind) = self.exchange.trap_of(block) {
            return self.cut(most, Stop::Trap(kind));
        }
        let context = self.pass(thread, None);
        let key = walk(accepted, self.areas.pool(), &context);
        let since = self.waits.clock();
        self.waits
            .wait(thread.slot as usize, Wait::At { block, since });
        self.running = None;
        Turn::Blocked {
            key,
            cost: self.segment_cost(most),
        }
    }

    // Makes a call that is answered at once.
    fn answer(&mut self, accepted: &Accepted, most: u64, thread: ThreadId, ask: Ask) -> Option<Turn>
        requires runs { Runs accepted.now most self.old thread }
        requires fuel { 0 < self.old.fuel.left }
        requires at { LocalIs self.old thread
            (λ l. IsAtAsk (checked_of accepted.now) (code_of accepted.now) l ask) }
        ensures told { Told accepted.now most thread self.old result self.new }
        ensures fuel { IfNone result (self.new.fuel.left < self.old.fuel.left) }
    {
        // By the clause of `image`, the pair is valid.
        let _image = accepted.image();
        match ask {
            Ask::Put { value } => {
                let _passed = self.pass(thread, None);
                Some(Turn::Out { value })
            }
            Ask::Spawn { function, argument } => {
                Some(self.spawn(accepted, most, thread, function, argument))
            }
            Ask::Give { resource, amount } => {
                if let Some(kind) = self.exchange.give(resource, amount) {
                    return Some(self.cut(most, Stop::Trap(kind)));
                }
                let _passed = self.pass(thread, None);
                None
            }
            Ask::SelfNumber => {
                let _passed = self.pass(thread, Some(thread.number));
                None
            }
        }
    }

    // Starts a thread and returns the turn. A free chunk has to fit its function's bound, and a place for it is
    // reserved before anything changes.
    fn spawn(
        &mut self,
        accepted: &Accepted,
        most: u64,
        thread: ThreadId,
        function: u32,
        argument: u32,
    ) -> Turn
        requires runs { Runs accepted.now most self.old thread }
        requires fuel { 0 < self.old.fuel.left }
        requires at { LocalIs self.old thread
            (λ l. IsAtAsk (checked_of accepted.now) (code_of accepted.now) l
            (Ask.Spawn function argument)) }
        ensures { Told accepted.now most thread self.old (Some result) self.new }
    {
        // By the clause of `image`, the pair is valid.
        let _image = accepted.image();
        if self.live >= MOST_THREADS {
            return self.cut(most, Stop::Threads);
        }
        if !self.has_chunk_for(accepted, function) {
            return self.cut(most, Stop::NoChunk);
        }
        let Some(slot) = self.free_place() else {
            self.stopped = Some(Turn::Memory);
            return Turn::Memory;
        };
        match start(accepted, &mut self.areas, function, argument) {
            None => unreachable!(),
            Some(context) => {
                let number = self.next;
                self.add(Record { number, context });
                let _passed = self.pass(thread, Some(number));
                Turn::Spawned {
                    thread: ThreadId { slot, number },
                }
            }
        }
    }

    // Stops the run and returns the turn.
    fn cut(&mut self, most: u64, stop: Stop) -> Turn
        requires some { self.old.fuel.left ≤ most }
        requires begun { self.old.begun ≤ most - self.old.fuel.left }
        ensures turn { (result ≡ Turn.Cut stop (most - self.old.fuel.left - self.old.begun)) }
        ensures after { self.new ≡ record self.old { stopped = Some result } }
    {
        let cost = self.segment_cost(most);
        self.stopped = Some(Turn::Cut { stop, cost });
        Turn::Cut { stop, cost }
    }
}
