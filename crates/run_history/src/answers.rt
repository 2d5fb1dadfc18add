ghost use Rattle.std.specs.Prelude.{◌≡◌, ℕ, ◌<◌, OnOk, get_or, length, nat_eq, set, if◌then◌else◌};
ghost use Rattle.run_history.specs.Answers.{answers_of};
ghost use Rattle.report_figures.specs.Ticks.{ticks_in};

use crate::history::HistoryError;
use report_figures::TickList;
use std::alloc::{AllocError, Global};

/// The times of the answers to a request. The log has no clock of an `out`, so an answer's time is the end of the
/// segment that put it.
#[derive(Clone, Copy)]
pub struct Answers {
    /// The end of the first segment that put one.
    pub first: u64,
    /// The end of the last segment that put one.
    pub last: u64,
    /// The number of segments that put some.
    pub count: u64,
}

/// The times of the answers to requests, at the places of the requests' numbers from 0. There are no places after the
/// last request that was answered.
#[derive(Drop)]
pub struct AnswerList {
    /// The clocks of the first answers.
    pub firsts: TickList,
    /// The clocks of the last answers.
    pub lasts: TickList,
    /// The number of segments that put some: 0 if the request isn't answered.
    pub counts: Vec<u32>,
}

impl AnswerList {
    ghost use Rattle.std.specs.Prelude.{◌≡◌, ℕ, ◌<◌, None, OnOk, length};
    ghost use Rattle.run_history.specs.Answers.{answers_at, answers_from};
    ghost use Rattle.run_history.specs.Pairs.{clocks_for};
    ghost use Rattle.report_figures.specs.Ticks.{ticks_in};

    /// Returns an empty list. It doesn't allocate.
    pub fn new(alloc: Global) -> AnswerList
        ensures { (request : ℕ) → answers_at result request ≡ None }
    {
        AnswerList {
            firsts: TickList::new(alloc),
            lasts: TickList::new(alloc),
            counts: Vec::new(alloc),
        }
    }

    /// Returns the number of places.
    pub fn len(&self) -> usize
        ensures { result ≡ length self.now.counts.items }
    {
        self.counts.len()
    }

    /// Returns the answers to the request of that number.
    pub fn get(&self, request: usize) -> Option<Answers>
        ensures { result ≡ answers_at self.now request }
    {
        answers_of(
            self.firsts.at(request),
            self.lasts.at(request),
            u64::from(count_at(self.counts.as_slice(), request)),
        )
    }

    /// Adds an answer to a request at that clock.
    ///
    /// # Errors
    ///
    /// `Count` only if the request would be answered 2^32 times.
    pub(crate) fn add(&mut self, request: usize, at: u64) -> Result<(), HistoryError>
        ensures { (other : ℕ) → OnOk result (answers_at self.new other ≡ answers_from (answers_at self.old other) (clocks_for other at request)) }
    {
        self.reach(request)?;
        let count = self.counts[request];
        let Some(more) = count.checked_add(1) else {
            return Err(HistoryError::Count);
        };
        note_first(&mut self.firsts, request, at, count)?;
        self.lasts.set(request, at)?;
        self.counts[request] = more;
        Ok(())
    }

    /// Adds places for the answers to all requests up to this one.
    fn reach(&mut self, request: usize) -> Result<(), AllocError>
        ensures same { (other : ℕ) → OnOk result (answers_at self.new other ≡ answers_at self.old other) }
        ensures firsts { OnOk result (request < length (ticks_in self.new.firsts)) }
        ensures lasts { OnOk result (request < length (ticks_in self.new.lasts)) }
        ensures counts { OnOk result (request < length self.new.counts.items) }
    {
        self.firsts.reach(request)?;
        self.lasts.reach(request)?;
        reach(&mut self.counts, request)?;
        Ok(())
    }
}

/// Returns the answers from a first to a last one, if there are any.
fn answers_of(first: u64, last: u64, count: u64) -> Option<Answers>
    ensures { result ≡ answers_of first last count }
{
    if count == 0 {
        return None;
    }
    Some(Answers { first, last, count })
}

/// Returns the count at a place, or 0 after the last one.
fn count_at(counts: &[u32], place: usize) -> u32
    ensures { result ≡ get_or counts.now place 0 }
{
    counts.get(place).copied().unwrap_or(0)
}

/// Records the clock of a request's first answer; `count` is the number of answers before.
fn note_first(firsts: &mut TickList, request: usize, at: u64, count: u32) -> Result<(), AllocError>
    requires { request < length (ticks_in firsts.old) }
    ensures { OnOk result (ticks_in firsts.new ≡ if nat_eq count 0 then set (ticks_in firsts.old) request at else ticks_in firsts.old) }
{
    if count == 0 {
        firsts.set(request, at)?;
    }
    Ok(())
}

/// Adds places for the counts of all requests up to this one.
fn reach(counts: &mut Vec<u32>, request: usize) -> Result<(), AllocError>
    ensures same { (other : ℕ) → OnOk result (get_or counts.new.items other 0 ≡ get_or counts.old.items other 0) }
    ensures there { OnOk result (request < length counts.new.items) }
{
    while counts.len() <= request {
        counts.push(0)?;
    }
    Ok(())
}
