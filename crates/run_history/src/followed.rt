// Requests followed through `spawn`: a thread works for the request of the thread that started it, until it takes one
// itself.

use crate::answers::AnswerList;
use crate::happenings::{Happening, Segment};
use crate::history::HistoryError;
use std::alloc::Global;
use std::collections::BTreeMap;

/// A thread that a segment started.
#[derive(Clone, Copy)]
pub struct Spawned {
    /// The number of the segment, from 0.
    pub segment: u64,
    /// The number of the thread.
    pub thread: u32,
}

/// The answers to requests so far, including those of the threads that work for them.
#[derive(Drop)]
pub struct Followed<'a> {
    /// The threads that are yet to start, in order.
    pub left: &'a [Spawned],
    /// The number of finished segments.
    pub segments: u64,
    /// The request for which a thread works that has taken none.
    pub started: BTreeMap<u32, u64>,
    /// The answers to requests.
    pub answers: AnswerList,
}

impl<'a> Followed<'a> {
    ghost use Rattle.std.specs.Prelude.{◌≡◌, ℕ, List, [], ◌∷◌, ◌++◌, ◌+◌, None, OnOk};
    ghost use Rattle.run_history.specs.FollowedRuns.{IsFollowed};
    ghost use Rattle.run_history.specs.declared.happenings.Happening.{Happening};
    ghost use Rattle.run_history.specs.declared.followed.Spawned.{Spawned};
    ghost use Rattle.std.specs.BTreeMap.{get};
    ghost use Rattle.std.specs.Ordering.{nat_cmp};
    ghost use Rattle.run_history.specs.Answers.{answers_at, answers_from};
    ghost use Rattle.run_history.specs.Followed.{clocks_by, followed_with, inherits, left_after, left_with, named_by, segments_with, started_with, works_for};

    /// Returns the state before the first entry. It doesn't allocate.
    pub fn new(alloc: Global, spawned: &'a [Spawned]) -> Followed<'a>
        ensures left { result.left.now ≡ spawned.now }
        ensures segments { result.segments ≡ 0 }
        ensures followed { IsFollowed spawned.now [] result }
        ensures started { (thread : ℕ) → get nat_cmp result.started thread ≡ None }
    {
        Followed {
            left: spawned,
            segments: 0,
            started: BTreeMap::new(alloc),
            answers: AnswerList::new(alloc),
        }
    }

    /// Adds the happening of the next entry. After an error the contents are unspecified.
    pub fn add(&mut self, told: Happening) -> Result<(), HistoryError>
        ensures segments { OnOk result (self.new.segments ≡ segments_with told self.old.segments) }
        ensures left { OnOk result (self.new.left.now ≡ left_with told self.old.segments self.old.left.now) }
        ensures started { (thread : ℕ) → OnOk result (get nat_cmp self.new.started thread ≡ started_with told self.old.segments self.old.left.now (λ one. get nat_cmp self.old.started one) thread) }
        ensures answers { (request : ℕ) → OnOk result (answers_at self.new.answers request ≡ followed_with request told (λ one. get nat_cmp self.old.started one) (answers_at self.old.answers request)) }
        ensures followed { (spawned : List Spawned) → (before : List Happening) → IsFollowed spawned before self.old → OnOk result (IsFollowed spawned (before ++ told ∷ []) self.new) }
    {
        self.take(told)?;
        Ok(())
    }

    /// Adds the happening, as `add` does.
    fn take(&mut self, told: Happening) -> Result<(), HistoryError>
        ensures segments { OnOk result (self.new.segments ≡ segments_with told self.old.segments) }
        ensures left { OnOk result (self.new.left.now ≡ left_with told self.old.segments self.old.left.now) }
        ensures started { (thread : ℕ) → OnOk result (get nat_cmp self.new.started thread ≡ started_with told self.old.segments self.old.left.now (λ one. get nat_cmp self.old.started one) thread) }
        ensures answers { (request : ℕ) → OnOk result (answers_at self.new.answers request ≡ followed_with request told (λ one. get nat_cmp self.old.started one) (answers_at self.old.answers request)) }
    {
        match told {
            Happening::Came { .. } => Ok(()),
            Happening::Lost { .. } => Ok(()),
            Happening::Started { .. } => Ok(()),
            Happening::Waited(_) => Ok(()),
            Happening::Put { .. } => Ok(()),
            Happening::Ran { segment, .. } => self.run(segment),
            Happening::Nothing => Ok(()),
        }
    }

    /// Returns the happening with the request for which a segment's thread works as the one that it serves.
    pub fn named(&self, told: Happening) -> Happening
        ensures { result ≡ named_by (λ one. get nat_cmp self.now.started one) told }
    {
        match told {
            Happening::Ran { segment, free } => Happening::Ran {
                segment: Segment {
                    request: self.request_of(segment),
                    ..segment
                },
                free,
            },
            other => other,
        }
    }

    /// Returns the request that a segment serves, or for which its thread works.
    fn request_of(&self, segment: Segment) -> Option<u64>
        ensures { result ≡ works_for segment.request (get nat_cmp self.now.started segment.thread) }
    {
        match segment.request {
            Some(served) => Some(served),
            None => self.started.get(&segment.thread).copied(),
        }
    }

    /// Takes up a finished segment: its outputs answer the request of its thread, for which the threads work that it
    /// started.
    fn run(&mut self, segment: Segment) -> Result<(), HistoryError>
        ensures segments { OnOk result (self.new.segments ≡ self.old.segments + 1) }
        ensures left { OnOk result (self.new.left.now ≡ left_after self.old.segments self.old.left.now) }
        ensures started { (thread : ℕ) → OnOk result (get nat_cmp self.new.started thread ≡ inherits self.old.segments (works_for segment.request (get nat_cmp self.old.started segment.thread)) thread self.old.left.now (get nat_cmp self.old.started thread)) }
        ensures answers { (request : ℕ) → OnOk result (answers_at self.new.answers request ≡ answers_from (answers_at self.old.answers request) (clocks_by request (works_for segment.request (get nat_cmp self.old.started segment.thread)) segment)) }
    {
        let request = self.request_of(segment);
        self.start_all(request)?;
        let Some(segments) = self.segments.checked_add(1) else {
            return Err(HistoryError::Count);
        };
        self.segments = segments;
        match request {
            Some(number) if segment.puts > 0 => { self.answers.add(number as usize, segment.ended) }
            _ => Ok(()),
        }
    }

    /// Records that the threads which the segment in progress started work for that request.
    fn start_all(&mut self, request: Option<u64>) -> Result<(), HistoryError>
        ensures started { (thread : ℕ) → OnOk result (get nat_cmp self.new.started thread ≡ inherits self.old.segments request thread self.old.left.now (get nat_cmp self.old.started thread)) }
        ensures left { OnOk result (self.new.left.now ≡ left_after self.old.segments self.old.left.now) }
        ensures segments { self.new.segments ≡ self.old.segments }
        ensures answers { self.new.answers ≡ self.old.answers }
    {
        while let Some((one, rest)) = self.left.split_first() {
            if one.segment != self.segments {
                return Ok(());
            }
            if let Some(number) = request {
                let Ok(_) = self.started.insert(one.thread, number) else {
                    return Err(HistoryError::Memory);
                };
            }
            self.left = rest;
        }
        Ok(())
    }
}
