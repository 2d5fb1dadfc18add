// Which outputs are the answers to a request: those of the thread that took it, those that the user chooses, or also
// those of threads that work for it.

use crate::answers::AnswerList;
use crate::followed::{Followed, Spawned};
use crate::happenings::Happening;
use crate::history::HistoryError;
use crate::numbers::Numbers;
use crate::pairs::{Pairing, Pairs};
use std::alloc::Global;
use std::mem;

/// Which outputs are the answers to a request.
#[derive(Clone, Copy)]
pub enum Answering<'a> {
    /// Those of the thread that took it, until it takes the next.
    ByThread,
    /// As the user chooses, whichever thread puts them.
    ByPairing(Pairing),
    /// Those of the thread that took it, and of the threads that work for it. The list has the threads that segments
    /// started, in the order of the segments.
    BySpawn(&'a [Spawned]),
}

/// The data for the answers to requests, in addition to those of the threads that took them.
#[derive(Drop)]
pub(crate) enum Answerer<'a> {
    OfThreads,
    OfPairs(Pairs),
    OfSpawned(Followed<'a>),
}

impl<'a> Answerer<'a> {
    ghost use Rattle.std.specs.Prelude.{◌≡◌, ℕ, List, [], ◌∷◌, ◌++◌, OnOk, Option};
    ghost use Rattle.report_figures.specs.declared.windows.Window.{Window};
    ghost use Rattle.run_history.specs.declared.answering.Answering.{Answering};
    ghost use Rattle.run_history.specs.declared.answering.Answering.TheVariants.{ByThread};
    ghost use Rattle.run_history.specs.declared.happenings.Happening.{Happening};
    ghost use Rattle.run_history.specs.Answering.{Keeps, named_for};
    ghost use Rattle.run_history.specs.Numbers.{IsNumbersOf};

    /// Returns the state before the first entry. It doesn't allocate.
    pub(crate) fn new(alloc: Global, answering: Answering<'a>) -> Answerer<'a>
        ensures { Keeps answering.entry [] result }
    {
        match answering {
            Answering::ByThread => Answerer::OfThreads,
            Answering::ByPairing(pairing) => Answerer::OfPairs(Pairs::new(alloc, pairing)),
            Answering::BySpawn(spawned) => Answerer::OfSpawned(Followed::new(alloc, spawned)),
        }
    }

    /// Adds the happening of the next entry. After an error the contents are unspecified.
    pub(crate) fn add(&mut self, told: Happening) -> Result<(), HistoryError>
        ensures { (answering : Answering) → (before : List Happening) → Keeps answering before self.old → OnOk result (Keeps answering (before ++ told ∷ []) self.new) }
    {
        match self {
            Answerer::OfThreads => Ok(()),
            Answerer::OfPairs(pairs) => pairs.add(told),
            Answerer::OfSpawned(followed) => followed.add(told),
        }
    }

    /// Returns the happening with the request for which a segment's thread works as the one that it serves, if that is
    /// known.
    pub(crate) fn named(&self, told: Happening) -> Happening
        ensures { result ≡ named_for self.now told }
    {
        match self {
            Answerer::OfThreads => told,
            Answerer::OfPairs(_) => told,
            Answerer::OfSpawned(followed) => followed.named(told),
        }
    }

    /// Puts these answers into the numbers of a run, in place of those of the threads that took the requests.
    pub(crate) fn hand_over(&mut self, alloc: Global, numbers: &mut Numbers)
        ensures { (answering : Answering) → (window : Option Window) → (chunks : ℕ) → (told : List Happening) → Keeps answering told self.old → IsNumbersOf ByThread window chunks told numbers.old → IsNumbersOf answering window chunks told numbers.new }
    {
        match self {
            Answerer::OfThreads => (),
            Answerer::OfPairs(pairs) => {
                numbers.answers = mem::replace(&mut pairs.answers, AnswerList::new(alloc));
            }
            Answerer::OfSpawned(followed) => {
                numbers.answers = mem::replace(&mut followed.answers, AnswerList::new(alloc));
            }
        }
    }
}
