// The live threads of a log's run: what each waits for, and where it continues.

use cap_word::{Block, Ready, ThreadId, TrapKind};
use event_trace::EventKind;
use ready_tree::{Bounded, Bounds, Need};
use slab::Slab;
use source_runs::{Interpreter, Thread};
use std::alloc::{AllocError, Global};
use std::marker::Model;
use std::mem;
use thread_exchange::Exchange;
use thread_waits::{Wait, Waits};

/// The state of a thread at rest.
#[derive(Drop)]
pub enum Rest<'a> {
    /// It hasn't run: a function and an argument, if it takes one.
    Fresh {
        /// The function's number.
        function: u32,
        /// Its argument.
        argument: Option<u32>,
    },
    /// It is blocked at a call.
    Blocked {
        /// The call.
        block: Block,
        /// The thread, which waits for the call's result.
        thread: Thread<'a>,
    },
    /// It runs.
    Away,
}

/// A live thread.
#[derive(Drop)]
pub struct Slot<'a> {
    /// The thread's number.
    pub number: u32,
    /// Its state.
    pub rest: Rest<'a>,
}

/// The live threads at their places, what the waiting ones wait for, and the queues and uses. No call at which a thread
/// waits was a trap.
#[derive(Drop)]
pub struct Threads<'a> {
    alloc: Global,
    slots: Slab<Slot<'a>>,
    waits: Waits,
    exchange: Exchange,
    live: u32,
    next: u32,
}

impl<'a> Model for Threads<'a> {
    ghost use Rattle.c_tree.specs.contracts.statements.Stmt as stmt;
    ghost use Rattle.std.specs.Coded.{codes};
    ghost use Rattle.schedule_reading.specs.Told.{AreUntrapped, ThreadsState};

    ghost Value = { ThreadsState };

    ghost coded = { Prim.hlevel (codes, stmt.the_row.coded) };

    ghost view = { λ t. record { slots = t.slots; waits = t.waits; exchange = t.exchange; live = t.live; next = t.next } };

    ghost invariant = { λ t. AreUntrapped t.exchange t.waits };
}

impl<'a> Threads<'a> {
    ghost use Rattle.std.specs.Prelude.{◌≡◌, ◌≢◌, ℕ, ◌+◌, ◌-◌, ◌<◌, ◌≤◌, ◌^◌, not, Some, None, IfOk, IsSome, MatchResult, slice_set};
    ghost use Rattle.slab.specs.Slab.{get};
    ghost use Rattle.c_mean.specs.ModelledCalls as table;
    ghost use Rattle.c_mean.specs.ModelledCalls.{cap_of, immediate_row, use_of};
    ghost use Rattle.cap_word.specs.declared.calls.Ask.{Ask};
    ghost use Rattle.choice_rules.specs.Deliveries.{delivery_of};
    ghost use Rattle.event_trace.specs.Lines.{FitsKind};
    ghost use Rattle.source_runs.specs.Layouts.{IsReady, tree_of};
    ghost use Rattle.thread_exchange.specs.Exchanges.{after_ask, after_delivery, row_of};
    ghost use Rattle.thread_waits.specs.Waiting.{IsWake, latest, wait_at};
    ghost use Rattle.schedule_reading.specs.declared.threads.Rest.TheVariants.{Away};
    ghost use Rattle.schedule_reading.specs.declared.threads.Slot.{Slot};
    ghost use Rattle.schedule_reading.specs.Changes.{AreNone, AreVacant, HasAdded, HasBegun, HasBlocked, HasEnded, IsAway, KeepsAll, MayBegin};
    ghost use Rattle.schedule_reading.specs.Told.{Vouches, any_ready_in, waits_for};

    /// Returns threads without any thread yet.
    pub(crate) fn new(
        alloc: Global,
        backlog: u32,
        caps: [u32; 8],
    ) -> Result<Threads<'a>, AllocError>
        ensures { IfOk result (AreNone backlog caps) }
    {
        let waits = Waits::new(alloc)?;
        let exchange = Exchange::new(alloc, backlog, caps)?;
        Ok(Threads {
            alloc,
            slots: Slab::new(alloc),
            waits,
            exchange,
            live: 0,
            next: 0,
        })
    }

    /// Adds a thread that hasn't run.
    pub(crate) fn add(
        &mut self,
        function: u32,
        argument: Option<u32>,
    ) -> Result<ThreadId, AllocError>
        requires live { self.old.live < 2 ^ 32 - 1 }
        requires next { self.old.next < 2 ^ 32 - 1 }
        requires vacant { AreVacant self.old }
        ensures { MatchResult result (HasAdded self.old function argument self.new) (λ _. KeepsAll self.old self.new) }
    {
        let number = self.next;
        self.slots.reserve(1)?;
        let place = self.slots.vacant_key();
        let Ok(slot) = u32::try_from(place) else {
            return Err(AllocError);
        };
        self.waits.make_place(self.alloc, place)?;
        let _same = self.slots.insert_reserved(Slot {
            number,
            rest: Rest::Fresh { function, argument },
        });
        self.waits.wait(place, Wait::Fresh);
        self.live += 1;
        self.next += 1;
        Ok(ThreadId { slot, number })
    }

    /// Begins the segment of a chosen thread: it takes what it waited for.
    pub(crate) fn begin(
        &mut self,
        interpreter: &Interpreter<'a>,
        globals: &mut Vec<u32>,
        chosen: ThreadId,
    ) -> Result<Thread<'a>, AllocError>
        requires ready { IsReady interpreter.now }
        requires may { MayBegin (tree_of interpreter.now) self.old globals.old.items chosen }
        ensures { IfOk result (HasBegun (tree_of interpreter.now) self.old globals.old.items self.new globals.new.items chosen) }
    {
        // By the invariant, no call at which a thread waits was a trap.
        let _waits = &self.waits;
        match self.set_out(chosen) {
            Rest::Fresh { function, argument } => interpreter.start(function, argument),
            Rest::Blocked { block, mut thread } => {
                let word = self.exchange.resume(block);
                interpreter.resume(&mut thread, globals, word);
                Ok(thread)
            }
            Rest::Away => unreachable!(),
        }
    }

    /// Ends the wait of a thread, and takes its state at rest from its place.
    fn set_out(&mut self, chosen: ThreadId) -> Rest<'a>
        requires there { IsSome (get self.old.slots chosen.slot) }
        requires waits { IsSome (wait_at self.old.waits chosen.slot) }
        ensures rest { (slot : Slot) → get self.old.slots chosen.slot ≡ Some slot → result ≡ slot.rest }
        ensures away { (slot : Slot) → get self.old.slots chosen.slot ≡ Some slot → get self.new.slots chosen.slot ≡ Some (record slot { rest = Away }) }
        ensures others { (other : ℕ) → other ≢ chosen.slot → get self.new.slots other ≡ get self.old.slots other }
        ensures after { self.new ≡ record self.old { slots = self.new.slots; waits = record self.old.waits { places = slice_set self.old.waits.places chosen.slot None } } }
    {
        let rest = match self.slots.get_mut(chosen.slot as usize) {
            Some(slot) => mem::replace(&mut slot.rest, Rest::Away),
            None => unreachable!(),
        };
        self.waits.go(chosen.slot as usize);
        rest
    }

    /// Blocks the running thread.
    pub(crate) fn block(&mut self, running: ThreadId, block: Block, thread: Thread<'a>)
        requires away { IsAway self.old running }
        requires untrapped { (row_of self.old.exchange block).trap ≡ None }
        requires early { self.old.waits.clock ≤ latest }
        ensures { HasBlocked self.old running block thread.entry self.new }
    {
        // By the exchange's clause, there are eight caps.
        let _trap = self.exchange.trap_of(block);
        let since = self.waits.clock();
        match self.slots.get_mut(running.slot as usize) {
            Some(slot) => slot.rest = Rest::Blocked { block, thread },
            None => unreachable!(),
        }
        self.waits
            .wait(running.slot as usize, Wait::At { block, since });
    }

    /// Ends the running thread.
    pub fn end(&mut self, running: ThreadId)
        requires there { IsSome (get self.old.slots running.slot) }
        requires live { 0 < self.old.live }
        ensures { HasEnded self.old running self.new }
    {
        let _slot = self.slots.try_remove(running.slot as usize);
        self.live -= 1;
    }

    /// Delivers an event: it joins its queue, or is dropped. Returns whether it joined.
    pub(crate) fn deliver(&mut self, kind: EventKind) -> bool
        requires { FitsKind kind }
        ensures queued { result ≡ not (table.is_dropped self.old.exchange.backlog self.old.exchange.exchange (delivery_of kind)) }
        ensures after { self.new ≡ record self.old { exchange = after_delivery self.old.exchange (delivery_of kind) } }
    {
        match kind {
            EventKind::Arrive { value } => self.exchange.arrive(value),
            EventKind::Message { channel, value } => self.exchange.send(channel, value),
        }
    }

    /// Returns the live threads by their places.
    pub fn slots(&self) -> &Slab<Slot<'a>>
        ensures { result.now ≡ self.now.slots }
    {
        &self.slots
    }

    /// Returns what the thread at a place waits for, if it waits.
    pub fn wait_at(&self, place: usize) -> Option<Wait>
        ensures { result ≡ wait_at self.now.waits place }
    {
        self.waits.at(place)
    }

    /// Returns the queues and the uses of resources.
    pub fn exchange(&self) -> &Exchange
        ensures { result.now ≡ self.now.exchange }
    {
        &self.exchange
    }

    /// Returns the clock.
    pub fn clock(&self) -> u64
        ensures { result ≡ self.now.waits.clock }
    {
        self.waits.clock()
    }

    /// Advances the clock to a time.
    pub(crate) fn advance(&mut self, time: u64)
        requires later { self.old.waits.clock ≤ time }
        requires possible { time ≤ latest }
        ensures { self.new ≡ record self.old { waits = record self.old.waits { clock = time } } }
    {
        self.waits.advance(time);
    }

    /// Returns the number of live threads.
    pub(crate) fn live(&self) -> u32
        ensures { result ≡ self.now.live }
    {
        self.live
    }

    /// Returns the use of a resource.
    pub(crate) fn used(&self, resource: u32) -> u32
        requires { resource < 8 }
        ensures use_is { result ≡ use_of self.now.exchange.exchange resource }
        ensures within { result ≤ cap_of self.now.exchange.caps resource }
    {
        self.exchange.used(resource)
    }

    /// Returns the trap of a call that blocks, if it traps.
    pub(crate) fn trap_of(&self, block: Block) -> Option<TrapKind>
        ensures { result ≡ (row_of self.now.exchange block).trap }
    {
        self.exchange.trap_of(block)
    }

    /// Gives an amount of a resource back, or returns the trap of the call.
    pub(crate) fn give(&mut self, resource: u32, amount: u32) -> Option<TrapKind>
        ensures trap { result ≡ table.resource_trap self.old.exchange.caps resource amount (use_of self.old.exchange.exchange resource) }
        ensures after { self.new ≡ record self.old { exchange = after_ask self.old.exchange (immediate_row self.old.exchange.caps self.old.exchange.exchange 0 0 (Ask.Give resource amount)) } }
    {
        self.exchange.give(resource, amount)
    }

    /// Returns what a thread waits for, if it waits.
    fn wait_of(&self, thread: ThreadId) -> Option<Wait>
        ensures { result ≡ waits_for self.now thread }
    {
        let slot = self.slots.get(thread.slot as usize)?;
        if slot.number != thread.number {
            return None;
        }
        self.waits.at(thread.slot as usize)
    }

    /// Returns the need of a thread that waits.
    pub(crate) fn need_of(&self, thread: ThreadId) -> Need
        requires { IsSome (waits_for self.now thread) }
        ensures { Vouches self.now thread result }
    {
        // A thread that waits does so at its own place.
        let _wait = self.wait_of(thread);
        match self.waits.need_at(thread.slot as usize) {
            Some(need) => need,
            None => unreachable!(),
        }
    }

    /// Checks whether any thread is ready.
    pub(crate) fn any_ready(&self) -> bool
        ensures { result ≡ any_ready_in self.now }
    {
        self.waits.any_ready(&self.exchange)
    }

    /// Returns the least time at which a sleeping thread wakes, if there is one.
    pub(crate) fn wake(&self) -> Option<u64>
        ensures { IsWake self.now.exchange.caps self.now.exchange.exchange self.now.waits result }
    {
        self.waits.wake(&self.exchange)
    }
}

impl Ready for Threads<'_> {
    ghost use Rattle.schedule_reading.specs.Told.{is_ready_in, at_accept_in, any_elsewhere_in};

    ghost is_ready = { is_ready_in };

    ghost at_accept = { at_accept_in };

    ghost any_elsewhere = { any_elsewhere_in };

    fn is_ready(&self, thread: ThreadId) -> bool {
        // By the invariant, no call at which a thread waits was a trap.
        let _waits = &self.waits;
        match self.wait_of(thread) {
            None => false,
            Some(Wait::Fresh) => true,
            Some(Wait::At { block, since }) => {
                self.exchange.is_ready(block, since, self.waits.clock())
            }
        }
    }

    fn at_accept(&self, thread: ThreadId) -> bool {
        match self.wait_of(thread) {
            None | Some(Wait::Fresh) => false,
            Some(Wait::At { block, .. }) => match block {
                Block::Accept => true,
                Block::Wait { .. }
                | Block::Sleep { .. }
                | Block::Yield
                | Block::Take { .. }
                | Block::WaitFor { .. } => false,
            },
        }
    }

    fn any_elsewhere(&self) -> bool {
        self.waits.any_elsewhere(&self.exchange)
    }
}

impl Bounded for Threads<'_> {
    ghost use Rattle.schedule_reading.specs.Told.{Vouches};

    ghost vouches = { Vouches };

    fn bounds(&self) -> Bounds {
        self.waits.bounds(&self.exchange)
    }
}
