ghost use Rattle.std.specs.Prelude.{◌≡◌, option_map};

use crate::records::Record;
use crate::standing::Standing;
use crate::turns::Turn;
use cap_word::{Block, ThreadId};
use ready_tree::Need;
use segment_run::{Areas, Fuel};
use slab::Slab;
use std::alloc::Global;
use thread_exchange::Exchange;
use thread_waits::{Wait, Waits};

const SP: usize = 2;

const T0: usize = 5;

const T1: usize = 6;

/// The part of a world that changes.
#[derive(Drop)]
pub struct State {
    /// The allocator.
    pub alloc: Global,
    /// The memory of the threads.
    pub areas: Areas,
    /// The queues and the uses of the resources 1 to 7.
    pub exchange: Exchange,
    /// What each thread waits for, by place, and the clock.
    pub waits: Waits,
    /// The records of the live threads, at their places.
    pub records: Slab<Record>,
    /// The number of live threads.
    pub live: u32,
    /// The number of the next thread.
    pub next: u32,
    /// The number of instructions that may still retire.
    pub fuel: Fuel,
    /// The thread whose segment is in progress, if there is one.
    pub running: Option<ThreadId>,
    /// The number of instructions that had retired when the segment in progress, or the last one, began.
    pub begun: u64,
    /// The turn that stopped the run, if it has stopped.
    pub stopped: Option<Turn>,
}

impl State {
    ghost use Rattle.thread_core.specs.Standings.{standing_for};
    ghost use Rattle.thread_core.specs.Waiting.{waits_for_in};
    ghost use Rattle.thread_waits.specs.Needs.{need_for};
    ghost use Rattle.thread_waits.specs.Waiting.{is_ready_in, is_at_accept, IsUntrapped};

    /// Returns what a live thread waits for, unless it is the running one.
    pub(crate) fn waits_for(&self, thread: ThreadId) -> Option<Wait>
        ensures { result ≡ waits_for_in self.now thread }
    {
        let record = self.records.get(thread.slot as usize)?;
        if record.number != thread.number {
            return None;
        }
        self.waits.at(thread.slot as usize)
    }

    /// Returns the need of a live thread, unless it is the running one.
    pub(crate) fn need_of(&self, thread: ThreadId) -> Option<Need>
        ensures { result ≡ option_map need_for (waits_for_in self.now thread) }
    {
        let record = self.records.get(thread.slot as usize)?;
        if thread.number != record.number {
            return None;
        }
        self.waits.need_at(thread.slot as usize)
    }

    /// Returns pc and registers of a live thread.
    pub(crate) fn standing(&self, thread: ThreadId) -> Option<Standing>
        ensures { result ≡ standing_for self.now thread }
    {
        let record = self.records.get(thread.slot as usize)?;
        if thread.number != record.number {
            return None;
        }
        Some(Standing {
            pc: record.context.pc,
            sp: record.context.x[SP],
            t0: record.context.x[T0],
            t1: record.context.x[T1],
        })
    }

    /// Checks whether a live thread is ready.
    pub(crate) fn is_ready(&self, thread: ThreadId) -> bool
        requires { IsUntrapped self.now.exchange (waits_for_in self.now thread) }
        ensures { result ≡ is_ready_in self.now.exchange.caps self.now.exchange.exchange
            self.now.waits.clock (waits_for_in self.now thread) }
    {
        match self.waits_for(thread) {
            None => false,
            Some(Wait::Fresh) => true,
            Some(Wait::At { block, since }) => {
                self.exchange.is_ready(block, since, self.waits.clock())
            }
        }
    }

    /// Checks whether a live thread is blocked at `accept`.
    pub(crate) fn at_accept(&self, thread: ThreadId) -> bool
        ensures { result ≡ is_at_accept (waits_for_in self.now thread) }
    {
        match self.waits_for(thread) {
            None | Some(Wait::Fresh) => false,
            Some(Wait::At { block, .. }) => match block {
                Block::Accept => true,
                Block::Wait { .. }
                | Block::Sleep { .. }
                | Block::Yield
                | Block::Take { .. }
                | Block::WaitFor { .. } => false,
            },
        }
    }
}
