use crate::answers::AnswerList;
use crate::happenings::{Happening, Segment, Wait};
use crate::history::HistoryError;
use crate::waits::{WaitLength, WaitLists, is_told};
use report_figures::{TickList, Window};
use schedule_log::Item;
use std::alloc::Global;

/// The numbers of a run so far.
#[derive(Drop)]
pub struct Numbers {
    /// The number of events of the trace that came or were dropped.
    pub events: u64,
    /// The places in the trace, from 0, of the requests that came, in order. Request i in the order of takes is the one
    /// at place i here, since the oldest request is taken first.
    pub arrivals: TickList,
    /// The number of dropped requests.
    pub dropped: u64,
    /// The threads that took requests, in order.
    pub takers: Vec<u32>,
    /// The clocks at which requests were taken, in order.
    pub taken: TickList,
    /// The answers to requests.
    pub answers: AnswerList,
    /// The waits by site: those that ended in the window, if there is one.
    pub waits: WaitLists,
    /// The maximum number of chunks held after a segment.
    pub most_held: u32,
}

impl Numbers {
    ghost use Rattle.std.specs.Prelude.{◌≡◌, ℕ, ◌++◌, ◌∷◌, [], List, OnOk, Option};
    ghost use Rattle.report_figures.specs.declared.windows.Window.{Window};
    ghost use Rattle.run_history.specs.declared.answering.Answering.TheVariants.{ByThread};
    ghost use Rattle.run_history.specs.declared.happenings.Happening.{Happening};
    ghost use Rattle.run_history.specs.declared.happenings.Happening.TheVariants.{Came, Lost, Waited, Ran};
    ghost use Rattle.run_history.specs.Happenings.{clocks_in};
    ghost use Rattle.run_history.specs.Answers.{answers_from, answers_at};
    ghost use Rattle.run_history.specs.Numbers.{IsNumbersOf, IsOneMore, KeepsAllButTakes, KeepsOthers};
    ghost use Rattle.report_figures.specs.Ticks.{ticks_in};

    /// Returns the numbers before the first entry. It doesn't allocate.
    pub fn new(alloc: Global) -> Numbers
        ensures { (window : Option Window) → (chunks : ℕ) → IsNumbersOf ByThread window chunks [] result }
    {
        Numbers {
            events: 0,
            arrivals: TickList::new(alloc),
            dropped: 0,
            takers: Vec::new(alloc),
            taken: TickList::new(alloc),
            answers: AnswerList::new(alloc),
            waits: WaitLists::new(alloc),
            most_held: 0,
        }
    }

    /// Adds the happening of the next entry, of a run with this number of chunks; a wait counts if it ended in the
    /// window. After an error the contents are unspecified.
    pub fn add(
        &mut self,
        told: Happening,
        window: Option<Window>,
        chunks: u32,
    ) -> Result<(), HistoryError>
        ensures { OnOk result (IsOneMore window chunks told self.old self.new) }
    {
        match told {
            Happening::Came { item, .. } => self.come(item),
            Happening::Lost { item, .. } => self.lose(item),
            Happening::Started { .. } => Ok(()),
            Happening::Waited(wait) => self.wait(wait, window),
            Happening::Put { .. } => Ok(()),
            Happening::Ran { segment, free } => self.rest(segment, chunks, free),
            Happening::Nothing => Ok(()),
        }
    }

    /// Counts an event that came.
    fn come(&mut self, item: Item) -> Result<(), HistoryError>
        ensures { (window : Option Window) → (chunks clock : ℕ) → OnOk result (IsOneMore window chunks (Came clock item) self.old self.new) }
    {
        let line = self.events;
        let Some(events) = line.checked_add(1) else {
            return Err(HistoryError::Count);
        };
        self.events = events;
        match item {
            Item::Arrive { .. } => self.arrivals.push(line)?,
            Item::Data { .. } => (),
        }
        Ok(())
    }

    /// Counts an event that was dropped.
    fn lose(&mut self, item: Item) -> Result<(), HistoryError>
        ensures { (window : Option Window) → (chunks clock : ℕ) → OnOk result (IsOneMore window chunks (Lost clock item) self.old self.new) }
    {
        let Some(events) = self.events.checked_add(1) else {
            return Err(HistoryError::Count);
        };
        self.events = events;
        match item {
            Item::Arrive { .. } => match self.dropped.checked_add(1) {
                Some(dropped) => {
                    self.dropped = dropped;
                    Ok(())
                }
                None => Err(HistoryError::Count),
            },
            Item::Data { .. } => Ok(()),
        }
    }

    /// Adds a finished wait.
    fn wait(&mut self, wait: Wait, window: Option<Window>) -> Result<(), HistoryError>
        ensures { (chunks : ℕ) → OnOk result (IsOneMore window chunks (Waited wait) self.old self.new) }
    {
        let Some(ticks) = wait.until.checked_sub(wait.since) else {
            return Err(HistoryError::Count);
        };
        let length = WaitLength {
            site: wait.site,
            thread: wait.thread,
            ticks,
            until: wait.until,
        };
        if is_told(window, wait.until) {
            self.waits.add(length)?;
        }
        match wait.request {
            None => Ok(()),
            Some(_) => self.take(wait),
        }
    }

    /// Adds a finished wait that took a request.
    fn take(&mut self, wait: Wait) -> Result<(), HistoryError>
        ensures takers { OnOk result (self.new.takers.items ≡ self.old.takers.items ++ wait.thread ∷ []) }
        ensures taken { OnOk result (ticks_in self.new.taken ≡ ticks_in self.old.taken ++ wait.until ∷ []) }
        ensures others { OnOk result (KeepsAllButTakes self.old self.new) }
    {
        self.takers.push(wait.thread)?;
        self.taken.push(wait.until)?;
        Ok(())
    }

    /// Adds a finished segment, after which `free` chunks are free.
    fn rest(&mut self, segment: Segment, chunks: u32, free: u32) -> Result<(), HistoryError>
        ensures { (window : Option Window) → OnOk result (IsOneMore window chunks (Ran segment free) self.old self.new) }
    {
        self.answer(segment)?;
        self.most_held = self.most_held.max(chunks.saturating_sub(free));
        Ok(())
    }

    /// Adds the answers of a segment.
    fn answer(&mut self, segment: Segment) -> Result<(), HistoryError>
        ensures answers { (request : ℕ) → OnOk result (answers_at self.new.answers request ≡ answers_from (answers_at self.old.answers request) (clocks_in request segment)) }
        ensures others { OnOk result (KeepsOthers self.old self.new) }
    {
        if segment.puts == 0 {
            return Ok(());
        }
        let Some(request) = segment.request else {
            return Ok(());
        };
        self.answers.add(request as usize, segment.ended)
    }
}
