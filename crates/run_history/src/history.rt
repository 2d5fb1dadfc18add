ghost use Rattle.std.specs.Prelude.{◌≡◌, slice_index};

use crate::choices::{count_taken, is_at_accept, request_after, request_served, waiting_over};
use crate::happenings::{Happening, Segment};
use crate::threads::{Standing, Thread};
use cap_word::SiteKey;
use schedule_log::{Entry, StopLine};
use std::alloc::{AllocError, AllocFailed, Global};
use std::collections::BTreeMap;
use std::marker::Model;
use thiserror::Error;

/// Why a history can't continue.
#[derive(Clone, Copy, Debug, Error)]
pub enum HistoryError {
    /// A clock, a count or what a thread holds would exceed 64 bits, a request would be answered 2^32 times, or a wait
    /// would end before it began. This happens in no run.
    #[error("a clock, a count or a length of time is out of range")]
    Count,
    /// Out of memory.
    #[error("out of memory")]
    Memory,
}

impl From<AllocError> for HistoryError {
    ghost use Rattle.std.specs.Prelude.{◌≡◌};
    ghost use Rattle.run_history.specs.declared.history.HistoryError.{HistoryError};

    ghost from_gives = { λ _ error. error ≡ HistoryError.Memory };

    fn from(_error: AllocError) -> HistoryError {
        HistoryError::Memory
    }
}

impl<T: Drop> From<AllocFailed<T>> for HistoryError {
    ghost use Rattle.std.specs.Prelude.{◌≡◌};
    ghost use Rattle.run_history.specs.declared.history.HistoryError.{HistoryError};

    ghost from_gives = { λ _ error. error ≡ HistoryError.Memory };

    fn from(_error: AllocFailed<T>) -> HistoryError {
        HistoryError::Memory
    }
}

/// What is known of a run from the entries of its log so far. After an error the contents are unspecified.
#[derive(Drop)]
pub struct History {
    threads: BTreeMap<u32, Thread>,
    began: u64,
    puts: u64,
    taken: u64,
}

impl Model for History {
    ghost use Rattle.run_history.specs.Known.{Known};

    // Each thread that has run, by number; the clock of the latest choice, and the words put since; the number of
    // requests taken.
    ghost Value = { Known };

    ghost view = { λ history. record { threads = history.threads.entries; began = history.began; puts = history.puts; taken = history.taken } };
}

impl History {
    ghost use Rattle.std.specs.Prelude.{◌≡◌, ◌+◌, ◌^◌, ◌≤◌, ℕ, List, length, IfOk, OnOk, Err};
    ghost use Rattle.run_history.specs.Known.{nothing_known, thread_in, with_entry, happening, stop_tells, IsBeyond, IsBeyondStop, known_thread, chosen, waited, at_accept, segment_of, with_standing, blocked_at};
    ghost use Rattle.run_history.specs.declared.happenings.Happening.TheVariants.{Put, Ran};
    ghost use Rattle.run_history.specs.declared.history.HistoryError.TheVariants.{Count};

    /// Returns the history before the first entry. It doesn't allocate.
    pub fn new(alloc: Global) -> History
        ensures { result ≡ nothing_known }
    {
        let threads = BTreeMap::new(alloc);
        History {
            threads,
            began: 0,
            puts: 0,
            taken: 0,
        }
    }

    /// Adds the next entry and returns its happening. `accepts` has at each site's number whether its call is `accept`.
    ///
    /// # Errors
    ///
    /// `Count` only if a clock or a count would be 2^64 or more, which happens in no run's log; `Memory` if an
    /// allocation fails.
    #[inline(always)]
    pub fn tell(&mut self, entry: &Entry, accepts: &[bool]) -> Result<Happening, HistoryError>
        ensures known { OnOk result (self.new ≡ with_entry accepts.now entry.now self.old) }
        ensures told { IfOk result (λ told. told ≡ happening accepts.now entry.now self.old) }
        ensures count { result ≡ Err Count → IsBeyond entry.now self.old }
    {
        match entry {
            Entry::Event { clock, item } => Ok(Happening::Came {
                clock: *clock,
                item: *item,
            }),
            Entry::Dropped { clock, item } => Ok(Happening::Lost {
                clock: *clock,
                item: *item,
            }),
            Entry::Run { clock, thread, .. } => self.choose(*clock, *thread, accepts),
            Entry::Out { thread, value } => self.put(*thread, *value),
            Entry::Block {
                thread,
                node,
                key,
                cost,
                free,
            } => self.block(*thread, *node, key, *cost, *free),
            Entry::End { thread, cost, free } => self.end(*thread, *cost, *free),
            Entry::Edge { .. } => Ok(Happening::Nothing),
            Entry::Stop(stop) => self.stop(stop),
        }
    }

    /// Returns what is known of a thread, or `None` if it hasn't run.
    pub fn thread(&self, thread: u32) -> Option<Thread>
        ensures { result ≡ thread_in self.now thread }
    {
        self.threads.get(&thread).copied()
    }

    /// Takes up the choice of a thread.
    fn choose(
        &mut self,
        clock: u64,
        thread: u32,
        accepts: &[bool],
    ) -> Result<Happening, HistoryError>
        ensures known { OnOk result (self.new ≡ chosen accepts.now clock thread self.old) }
        ensures told { IfOk result (λ told. told ≡ waited (at_accept accepts.now (thread_in self.old thread)) self.old.taken thread clock (thread_in self.old thread)) }
        ensures count { result ≡ Err Count → 2 ^ 64 ≤ self.old.taken + 1 }
    {
        let known = self.thread(thread);
        let takes = is_at_accept(known, accepts);
        let taken = count_taken(self.taken, takes)?;
        let request = request_after(known, takes, self.taken);
        let told = waiting_over(known, thread, clock, takes, self.taken);
        self.keep(
            thread,
            Thread {
                standing: Standing::Runs,
                request,
            },
        )?;
        self.began = clock;
        self.puts = 0;
        self.taken = taken;
        Ok(told)
    }

    /// Takes up a word that was put.
    fn put(&mut self, thread: u32, value: i32) -> Result<Happening, HistoryError>
        ensures known { OnOk result (self.new ≡ record { threads = self.old.threads; began = self.old.began; puts = self.old.puts + 1; taken = self.old.taken }) }
        ensures told { IfOk result (λ told. told ≡ Put thread value) }
        ensures count { result ≡ Err Count → 2 ^ 64 ≤ self.old.puts + 1 }
    {
        match self.puts.checked_add(1) {
            Some(puts) => {
                self.puts = puts;
                Ok(Happening::Put { thread, value })
            }
            None => Err(HistoryError::Count),
        }
    }

    /// Takes up the block of a thread.
    #[inline(always)]
    fn block(
        &mut self,
        thread: u32,
        node: u32,
        key: &SiteKey,
        cost: u64,
        free: u32,
    ) -> Result<Happening, HistoryError>
        ensures known { OnOk result (self.new ≡ with_standing thread (blocked_at key.now node (self.old.began + cost)) self.old) }
        ensures told { IfOk result (λ told. told ≡ Ran (segment_of thread cost self.old) free) }
        ensures count { result ≡ Err Count → 2 ^ 64 ≤ self.old.began + cost }
    {
        let segment = self.segment(thread, cost)?;
        let standing = Standing::Waits {
            site: innermost(key),
            node,
            since: segment.ended,
        };
        self.keep(
            thread,
            Thread {
                standing,
                request: segment.request,
            },
        )?;
        Ok(Happening::Ran { segment, free })
    }

    /// Takes up the end of a thread.
    fn end(&mut self, thread: u32, cost: u64, free: u32) -> Result<Happening, HistoryError>
        ensures known { OnOk result (self.new ≡ with_standing thread Standing.Ended self.old) }
        ensures told { IfOk result (λ told. told ≡ Ran (segment_of thread cost self.old) free) }
        ensures count { result ≡ Err Count → 2 ^ 64 ≤ self.old.began + cost }
    {
        let segment = self.segment(thread, cost)?;
        self.keep(
            thread,
            Thread {
                standing: Standing::Ended,
                request: segment.request,
            },
        )?;
        Ok(Happening::Ran { segment, free })
    }

    /// Takes up the stop of the run.
    fn stop(&mut self, stop: &StopLine) -> Result<Happening, HistoryError>
        ensures known { OnOk result (self.new ≡ self.old) }
        ensures told { IfOk result (λ told. told ≡ stop_tells stop.now self.old) }
        ensures count { result ≡ Err Count → IsBeyondStop stop.now self.old }
    {
        match stop {
            StopLine::Done => Ok(Happening::Nothing),
            StopLine::Idle => Ok(Happening::Nothing),
            StopLine::Trace { .. } => Ok(Happening::Nothing),
            StopLine::Cut {
                thread,
                cost,
                free,
                ..
            } => {
                let segment = self.segment(*thread, *cost)?;
                Ok(Happening::Ran {
                    segment,
                    free: *free,
                })
            }
        }
    }

    /// Returns the segment in progress, of that thread, which ends at that cost.
    fn segment(&self, thread: u32, cost: u64) -> Result<Segment, HistoryError>
        ensures ok { IfOk result (λ segment. segment ≡ segment_of thread cost self.now) }
        ensures count { result ≡ Err Count → 2 ^ 64 ≤ self.now.began + cost }
    {
        match self.began.checked_add(cost) {
            Some(ended) => Ok(Segment {
                thread,
                began: self.began,
                ended,
                puts: self.puts,
                request: request_served(self.thread(thread)),
            }),
            None => Err(HistoryError::Count),
        }
    }

    /// Records what is known of a thread now. It fails only if an allocation does.
    fn keep(&mut self, thread: u32, known: Thread) -> Result<(), HistoryError>
        ensures known { OnOk result (self.new ≡ known_thread thread known self.old) }
        ensures memory { result ≡ Err Count → 2 ^ 64 ≤ 0 }
    {
        match self.threads.insert(thread, known) {
            Ok(_) => Ok(()),
            Err(_) => Err(HistoryError::Memory),
        }
    }
}

/// Returns the innermost site of a key.
fn innermost(key: &SiteKey) -> u32
    ensures { result ≡ slice_index key.now 0 }
{
    key.sites()[0]
}
