ghost use Rattle.std.specs.Prelude.{◌≡◌, Bool, ◌≤◌, ◌<◌, ◌^◌, Some, None, IsTrue, IsSome, IfSome, OnOk, OnErr, ◌||◌, not};
ghost use Rattle.cap_word.specs.declared.threads.ThreadId.{ThreadId as ThreadIdOf};
ghost use Rattle.scheduler.specs.LawfulChoice.{is_eligible};
ghost use Rattle.stride_rule.specs.Tickets.{AreTickets};

use crate::choices::StrideChoice;
use crate::clients::Client;
use crate::levels::Levels;
use crate::places::{append, make_room};
use crate::rows::Row;
use crate::searching::search;
use crate::spreads::apart;
use crate::threads::{grow, take_out, tell};
use crate::tickets::stride_for;
use cap_word::{Ready, ThreadId};
use ready_tree::{Bounded, Bounds, Need};
use scheduler::bounds_at_gate;
use std::alloc::{AllocError, Global};
use std::marker::Model;

/// Returns whether some choice found a waiting thread that wasn't eligible: an earlier one, or the last.
fn is_held_back(before: bool, all: bool) -> bool
    ensures { result ≡ (before || not all) }
{
    before || !all
}

/// The threads that haven't left, with their strides and passes, and the state of the choices.
#[derive(Drop)]
pub struct StrideRule {
    tickets: Vec<(u32, u32)>,
    places: Vec<Option<Row>>,
    hints: Vec<usize>,
    levels: Levels,
    running: Option<u32>,
    latest: u64,
    noted: u64,
    held_back: bool,
    greatest: u32,
}

impl Model for StrideRule {
    ghost use Rattle.stride_rule.specs.Rows.{clients_of, needs_in};
    ghost use Rattle.stride_rule.specs.State.{StrideState};
    ghost use Rattle.stride_rule.specs.Whole.{IsWhole};

    ghost Value = { StrideState };

    ghost view = { λ s. record { tickets = s.tickets.items; clients = clients_of s.places.items; running = s.running; latest = s.latest; noted = s.noted; held_back = s.held_back; greatest = s.greatest; needs = needs_in s.places.items } };

    ghost invariant = { λ s. IsWhole s.levels s.places.items (record { tickets = s.tickets.items; clients = clients_of s.places.items; running = s.running; latest = s.latest; noted = s.noted; held_back = s.held_back; greatest = s.greatest; needs = needs_in s.places.items }) };
}

impl StrideRule {
    ghost use Rattle.stride_rule.specs.Choices.{IsLawfulStrideChoice, IsLawfulStrideThread, IsFirst, choice_among};
    ghost use Rattle.stride_rule.specs.Clients.{IsAbsent, client_of};
    ghost use Rattle.stride_rule.specs.Spread.{spread_of};
    ghost use Rattle.stride_rule.specs.State.{AreExact, AreKnown, IsNotedAsIf, new_rule, waiting_of, with_client, after_choice, after_segment, after_segment_for, after_leaving};

    /// Returns a rule without threads. The tickets are given by the numbers of threads, which strictly increase, and
    /// are from 1 to 1,024 each; every other thread has 1. It doesn't allocate.
    pub fn new(alloc: Global, tickets: Vec<(u32, u32)>) -> StrideRule
        requires { AreTickets tickets.items }
        ensures { result ≡ new_rule tickets.items }
    {
        StrideRule {
            tickets,
            places: Vec::new(alloc),
            hints: Vec::new(alloc),
            levels: Levels::new(alloc),
            running: None,
            latest: 0,
            noted: 0,
            held_back: false,
            greatest: 0,
        }
    }

    /// Adds a waiting thread without a need, at the pass of the thread chosen last, and allocates the room that later
    /// calls need for it.
    pub fn start(&mut self, thread: ThreadId) -> Result<(), AllocError>
        requires { IsAbsent thread.number self.old.clients }
        ensures ok { OnOk result (self.new ≡ with_client self.old thread) }
        ensures err { OnErr result (self.new ≡ self.old) }
    {
        make_room(&mut self.places, &mut self.hints, &mut self.levels)?;
        let stride = stride_for(self.tickets.as_slice(), thread.number);
        let row = Row {
            client: Client {
                thread,
                stride,
                pass: self.latest,
            },
            need: Need::Nothing,
        };
        append(&mut self.places, &mut self.hints, &mut self.levels, row)?;
        self.greatest = self.greatest.max(stride);
        Ok(())
    }

    /// Returns the thread that runs next, or `None` if no waiting thread is eligible. A thread is eligible if it is
    /// ready and, if it is at `accept`, the gate is open or no thread that isn't at `accept` is ready. Of the eligible
    /// threads it has the least pass; of those with that pass, the least number. The choice says whether every waiting
    /// thread is eligible, so each is asked. It doesn't allocate.
    pub fn choose<R: Ready>(&self, gate_open: bool, ready: &R) -> Option<StrideChoice>
        ensures { IsLawfulStrideChoice (waiting_of self.now) (is_eligible (R.is_ready ready.now) (R.at_accept ready.now) (R.any_elsewhere ready.now) gate_open) result }
    {
        let found = search(self.places.as_slice(), self.running, gate_open, ready);
        match found.best {
            Some(client) => Some(StrideChoice {
                thread: client.thread,
                all: found.all,
            }),
            None => None,
        }
    }

    /// Notes a choice, whose segment begins: the thread's pass grows by its stride. It doesn't allocate.
    pub fn note_choice(&mut self, choice: &StrideChoice)
        requires waits { IsSome (client_of choice.now.thread.number self.old.clients) }
        requires none_under_way { self.old.running ≡ None }
        requires first { IsTrue choice.now.all → IfSome (client_of choice.now.thread.number self.old.clients) (IsFirst self.old.clients) }
        requires room { self.old.noted < 2 ^ 40 }
        ensures { self.new ≡ after_choice self.old choice.now }
    {
        self.latest = grow(&mut self.places, &self.hints, choice.thread);
        self.running = Some(choice.thread.number);
        self.noted += 1;
        self.held_back = is_held_back(self.held_back, choice.all);
    }

    /// Returns the thread of the choice among those whose needs are met, if no segment is in progress. It asks no
    /// thread and doesn't allocate.
    fn first(&self, bounds: &Bounds) -> Option<ThreadId>
        requires { self.now.running ≡ None }
        ensures { (test : ThreadIdOf → Bool) → AreExact bounds.now test self.now → IsLawfulStrideThread (waiting_of self.now) test result }
    {
        match self.levels.first_met(self.places.as_slice(), bounds) {
            Some(client) => Some(client.thread),
            None => None,
        }
    }

    /// Returns the choice to be noted, by the needs. If some choice found a thread that wasn't eligible, it doesn't
    /// test this again, and asks no thread.
    fn choice_by_needs<W: Bounded>(&self, gate_open: bool, world: &W) -> Option<StrideChoice>
        requires none_under_way { self.now.running ≡ None }
        requires known { AreKnown (W.vouches world.now) self.now }
        ensures { IsNotedAsIf self.now (is_eligible (W.is_ready world.now) (W.at_accept world.now) (W.any_elsewhere world.now) gate_open) result }
    {
        if self.held_back {
            let bounds = bounds_at_gate(world, gate_open);
            match self.first(&bounds) {
                Some(thread) => Some(StrideChoice { thread, all: false }),
                None => None,
            }
        } else {
            self.choose(gate_open, world)
        }
    }

    /// Makes the same choice as `choose`, for a world that guarantees the needs, notes it, and returns its thread,
    /// whose segment begins. It asks each waiting thread until some choice finds one that isn't eligible. From then on
    /// it asks none: the needs determine which threads are eligible. It doesn't allocate.
    pub fn take_choice<W: Bounded>(&mut self, gate_open: bool, world: &W) -> Option<ThreadId>
        requires none_under_way { self.old.running ≡ None }
        requires known { AreKnown (W.vouches world.now) self.old }
        requires room { self.old.noted < 2 ^ 40 }
        ensures lawful { IsLawfulStrideThread (waiting_of self.old) (is_eligible (W.is_ready world.now) (W.at_accept world.now) (W.any_elsewhere world.now) gate_open) result }
        ensures noted { IfSome result (λ thread. self.new ≡ after_choice self.old (choice_among (waiting_of self.old) (is_eligible (W.is_ready world.now) (W.at_accept world.now) (W.any_elsewhere world.now) gate_open) thread)) }
        ensures none { result ≡ None → self.new ≡ self.old }
    {
        let Some(choice) = self.choice_by_needs(gate_open, world) else {
            return None;
        };
        self.note_choice(&choice);
        Some(choice.thread)
    }

    /// Ends the segment in progress: its thread waits again, with the same need. It doesn't allocate.
    pub fn rejoin(&mut self, thread: ThreadId)
        requires { self.old.running ≡ Some thread.number }
        ensures { self.new ≡ after_segment self.old }
    {
        self.running = None;
    }

    /// Ends the segment in progress: its thread waits with this need. It doesn't allocate.
    pub fn rejoin_for(&mut self, thread: ThreadId, need: Need)
        requires { self.old.running ≡ Some thread.number }
        ensures { self.new ≡ after_segment_for self.old thread.number need }
    {
        tell(
            &mut self.places,
            &self.hints,
            &mut self.levels,
            thread,
            need,
        );
        self.running = None;
    }

    /// Ends the segment in progress: its thread has ended. It doesn't allocate.
    pub fn leave(&mut self, thread: ThreadId)
        requires { self.old.running ≡ Some thread.number }
        ensures { self.new ≡ after_leaving self.old thread.number }
    {
        take_out(&mut self.places, &self.hints, &mut self.levels, thread);
        self.running = None;
    }

    /// Returns the difference between the greatest and the least pass of the threads that haven't left, 0 without
    /// threads; `None` if at some choice so far a waiting thread wasn't eligible. It is at most the greatest stride of
    /// any thread started so far. It doesn't allocate.
    pub fn spread(&self) -> Option<u64>
        ensures value { result ≡ spread_of self.now }
        ensures within { IfSome result (λ spread. spread ≤ self.now.greatest) }
    {
        if self.held_back {
            None
        } else {
            Some(apart(self.places.as_slice()))
        }
    }
}
