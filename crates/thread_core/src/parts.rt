// Parts of a call: the thread's record, its pc, the clock.
ghost use Rattle.std.specs.Prelude.{◌≡◌, ◌+◌, ◌-◌, ◌<◌, ◌≤◌, ◌^◌, ◌↔◌, false, None, Some, IsSome, IsTrue, IfSome, OnSome, length, slice_set};
ghost use Rattle.c_lower.specs.ProgramCode.{lowered};
ghost use Rattle.accepted_pairs.specs.Acceptance.{Acceptance};
ghost use Rattle.accepted_pairs.specs.Accepting.{accepted_tree};
ghost use Rattle.certificate_rules.specs.Validity.{IsValid};
ghost use Rattle.chunk_pool.specs.Pool.{FitsNone};
ghost use Rattle.machine_world.specs.Areas.{Areas};
ghost use Rattle.segment_run.specs.Contexts.{checked_of, code_of, local_of};
ghost use Rattle.segment_run.specs.Passing.{RestsBefore, RestsBehind};
ghost use Rattle.slab.specs.Slab.{get, Updates, HasRoomFor};
ghost use Rattle.stack_certificate.specs.Certificates.{fact_at};
ghost use Rattle.thread_waits.specs.Waiting.{wait_at, latest};
ghost use Rattle.machine_world.specs.Runs.{Pick, after_action};
ghost use Rattle.machine_meaning.specs.UnderWay.{IsSettled};
ghost use Rattle.thread_core.specs.Kept.{IsKept};
ghost use Rattle.thread_core.specs.Ready.{is_ready_in};
ghost use Rattle.thread_core.specs.States.{machine_of, setting_of};
ghost use Rattle.thread_core.specs.Steps.{held_in, MayRun, SamePlaces};
ghost use Rattle.thread_core.specs.Starts.{HasMorePlaces, HasPlaceFor, HasAdded};
ghost use Rattle.thread_core.specs.Parts.{ContextIs, HasContext, passed_context, answered_context};
ghost use Rattle.machine_world.specs.Threads.{result_on};
ghost use Rattle.thread_exchange.specs.Exchanges.{MayResume, row_of};

use crate::records::Record;
use crate::state::State;
use accepted_pairs::Accepted;
use cap_word::{Block, ThreadId};
use segment_run::{Context, reply, retire};
use thread_waits::Wait;

impl State {
    /// Resumes a thread at the beginning of its segment: it no longer waits, and its call takes what it waited for.
    pub(crate) fn resume(&mut self, accepted: &Accepted, most: u64, thread: ThreadId)
        requires kept { IsKept accepted.now most self.old }
        requires between { self.old.running ≡ None }
        requires going { self.old.stopped ≡ None }
        requires settled { IsSettled (checked_of accepted.now) (machine_of most self.old) }
        requires ready { IsTrue (is_ready_in (held_in accepted.now most self.old) thread) }
        ensures picks { after_action (setting_of accepted.now most self.old)
            (machine_of most self.old) (Pick thread.number) ≡ Some (machine_of most self.new) }
        ensures may { MayRun accepted.now most self.new thread }
        ensures begun { self.new.begun ≡ most - self.old.fuel.left }
        ensures fuel { self.new.fuel ≡ self.old.fuel }
        ensures caps { self.new.exchange.caps ≡ self.old.exchange.caps }
        ensures backlog { self.new.exchange.backlog ≡ self.old.exchange.backlog }
        ensures areas { self.new.areas ≡ self.old.areas }
        ensures same { SamePlaces self.old self.new }
    {
        // By the clause of `image`, the pair is valid.
        let _image = accepted.image();
        match self.waits.at(thread.slot as usize) {
            Some(Wait::At { block, .. }) => {
                self.take_result(thread, block);
                self.set_out(most, thread);
            }
            Some(Wait::Fresh) => self.set_out(most, thread),
            None => unreachable!(),
        }
    }

    /// Takes what the call waited for, and sets its result.
    pub(crate) fn take_result(&mut self, thread: ThreadId, block: Block)
        requires there { IsSome (get self.old.records thread.slot) }
        requires may { MayResume self.old.exchange block }
        ensures exchange { self.new.exchange ≡
            record self.old.exchange { exchange = (row_of self.old.exchange block).after } }
        ensures context { ContextIs self.old thread
            (λ context. HasContext self.old thread
            (answered_context context (result_on block (row_of self.old.exchange block).result))
            self.new) }
        ensures rest { self.new ≡ record self.old
            { exchange = self.new.exchange; records = self.new.records } }
    {
        let result = self.exchange.resume(block);
        match block {
            Block::Accept | Block::Wait { .. } | Block::WaitFor { .. } => {
                let mut context = self.context(thread);
                reply(&mut context, result);
                self.set_context(thread, context);
            }
            Block::Sleep { .. } | Block::Yield | Block::Take { .. } => (),
        }
    }

    /// Begins the segment of a thread, which no longer waits.
    pub(crate) fn set_out(&mut self, most: u64, thread: ThreadId)
        requires waits { IsSome (wait_at self.old.waits thread.slot) }
        requires fuel { self.old.fuel.left ≤ most }
        ensures { self.new ≡ record self.old {
          waits = record self.old.waits
              { places = slice_set self.old.waits.places thread.slot None };
          running = Some thread;
          begun = most - self.old.fuel.left;
        } }
    {
        self.waits.go(thread.slot as usize);
        self.running = Some(thread);
        self.begun = most - self.fuel.left;
    }

    /// Retires the ECALL at which the thread is, with the call's result if it gives one, and returns the context after
    /// it.
    pub(crate) fn pass(&mut self, thread: ThreadId, answer: Option<u32>) -> Context
        requires there { IsSome (get self.old.records thread.slot) }
        requires pc { ContextIs self.old thread (λ context. context.pc < 2 ^ 32 - 4) }
        requires fuel { 0 < self.old.fuel.left }
        requires clock { self.old.waits.clock + 1 ≤ latest }
        ensures record { HasContext self.old thread result self.new }
        ensures context { ContextIs self.old thread
            (λ context. result ≡ passed_context context answer) }
        ensures rest { self.new ≡ record self.old {
          records = self.new.records;
          fuel = self.new.fuel;
          waits = record self.old.waits
              { clock = self.old.waits.clock + 1 };
        } }
        ensures fuel { self.new.fuel.left + 1 ≡ self.old.fuel.left }
        ensures rests { (accepted : Acceptance) (areas : Areas) → IsValid (lowered (accepted_tree accepted)) accepted.image accepted.certificate →
            ContextIs self.old thread (λ context. RestsBefore (checked_of accepted) (local_of areas context)) → RestsBehind (checked_of accepted) (code_of accepted) (local_of areas result) }
    {
        let mut context = self.context(thread);
        retire(&mut context, &mut self.fuel);
        if let Some(value) = answer {
            reply(&mut context, value);
        }
        self.set_context(thread, context);
        self.tick(1);
        context
    }

    /// Checks whether a free chunk fits the bound of a function, so that a thread can start there.
    pub(crate) fn has_chunk_for(&self, accepted: &Accepted, function: u32) -> bool
        requires { function < length accepted.now.certificate.functions }
        ensures { (result ≡ false) ↔ FitsNone self.now.areas.pool
            (fact_at accepted.now.certificate function).bound }
    {
        let fact = &accepted.certificate().functions.as_slice()[function as usize];
        self.areas.pool().fits(fact.bound)
    }

    /// Returns a place for one more record, for which memory is reserved.
    pub(crate) fn free_place(&mut self) -> Option<u32>
        ensures more { HasMorePlaces self.old self.new }
        ensures place { IfSome result (HasPlaceFor self.new) }
    {
        let place = self.records.vacant_key();
        let slot = u32::try_from(place).ok()?;
        self.records.reserve(1).ok()?;
        self.waits.make_place(self.alloc, place).ok()?;
        Some(slot)
    }

    /// Adds a thread that hasn't run yet, at the place that was reserved for it.
    pub(crate) fn add(&mut self, made: Record)
        requires place { HasPlaceFor self.old self.old.records.vacant_key }
        requires empty { wait_at self.old.waits self.old.records.vacant_key ≡ None }
        requires live { self.old.live < 2 ^ 32 - 1 }
        requires next { self.old.next < 2 ^ 32 - 1 }
        ensures { HasAdded self.old self.old.records.vacant_key made self.new }
    {
        let place = self.records.insert_reserved(made);
        self.waits.wait(place, Wait::Fresh);
        self.live += 1;
        self.next += 1;
    }

    /// Removes the record of a thread that has ended.
    pub(crate) fn leave(&mut self, thread: ThreadId)
        requires there { IsSome (get self.old.records thread.slot) }
        requires live { 0 < self.old.live }
        ensures record { Updates self.old.records self.new.records thread.slot None }
        ensures rest { self.new ≡ record self.old
            { records = self.new.records; live = self.old.live - 1; running = None } }
    {
        let _ = self.records.try_remove(thread.slot as usize);
        self.live -= 1;
        self.running = None;
    }

    /// Counts `retired` instructions that have retired.
    pub(crate) fn tick(&mut self, retired: u64)
        requires { self.old.waits.clock + retired ≤ latest }
        ensures { self.new ≡ record self.old
            { waits = record self.old.waits { clock = self.old.waits.clock + retired } } }
    {
        let now = self.waits.clock() + retired;
        self.waits.advance(now);
    }

    /// Returns the cost of the segment so far.
    pub(crate) fn segment_cost(&self, most: u64) -> u64
        requires some { self.now.fuel.left ≤ most }
        requires begun { self.now.begun ≤ most - self.now.fuel.left }
        ensures { result ≡ most - self.now.fuel.left - self.now.begun }
    {
        most - self.fuel.left - self.begun
    }

    /// Returns the context of a live thread.
    pub(crate) fn context(&self, thread: ThreadId) -> Context
        requires { IsSome (get self.now.records thread.slot) }
        ensures { ContextIs self.now thread (λ context. result ≡ context) }
    {
        match self.records.get(thread.slot as usize) {
            None => unreachable!(),
            Some(record) => record.context,
        }
    }

    /// Sets the context of a live thread.
    pub(crate) fn set_context(&mut self, thread: ThreadId, context: Context)
        requires { IsSome (get self.old.records thread.slot) }
        ensures record { HasContext self.old thread context self.new }
        ensures rest { self.new ≡ record self.old { records = self.new.records } }
    {
        match self.records.get_mut(thread.slot as usize) {
            None => unreachable!(),
            Some(record) => record.context = context,
        }
    }
}
