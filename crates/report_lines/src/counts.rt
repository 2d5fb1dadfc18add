use crate::scopes::Scope;
use report_figures::{TickList, Window};
use run_history::{Happening, Numbers, Spells};
use schedule_log::Item;

/// Counts over a window of a run, or over all of it.
#[derive(Clone, Copy)]
pub struct Counts {
    /// The window, or `None` for the whole run.
    pub window: Option<Window>,
    /// The number of dropped requests.
    dropped: u64,
    /// The maximum number of chunks held after a segment.
    most_held: u32,
    /// The number of choices.
    pub choices: u64,
    /// When the gate was closed, before the window and up to its end.
    before: Spells,
    within: Spells,
}

/// How often a gate was closed, for how many ticks, and whether it is closed at the end.
#[derive(Clone, Copy)]
pub struct Closed {
    /// How often the gate was closed.
    pub times: u64,
    /// The number of ticks for which it was closed.
    pub ticks: u64,
    /// Whether it is closed at the end.
    pub is_closed: bool,
}

impl Counts {
    /// Returns the counts before the first entry, with the gate as at the start.
    pub fn new(window: Option<Window>, start: Spells) -> Counts {
        let before = match window {
            Some(_) => start,
            None => Spells::new(),
        };
        Counts {
            window,
            dropped: 0,
            most_held: 0,
            choices: 0,
            before,
            within: start,
        }
    }

    /// Checks whether a clock is counted.
    pub fn has(&self, clock: u64) -> bool {
        match self.window {
            Some(window) => window.has(clock),
            None => true,
        }
    }

    /// Counts a choice at that clock.
    pub fn choose(&mut self, clock: u64) {
        if self.has(clock) {
            self.choices = self.choices.saturating_add(1);
        }
    }

    /// Adds the happening of the next entry, of a run with this number of chunks, given when the gate was closed up to
    /// then.
    pub fn add(&mut self, told: Happening, chunks: u32, spells: Spells) {
        match told {
            Happening::Lost {
                clock,
                item: Item::Arrive { .. },
            } if self.has(clock) => self.dropped = self.dropped.saturating_add(1),
            Happening::Ran { segment, free } => {
                if self.has(segment.ended) {
                    self.most_held = self.most_held.max(chunks.saturating_sub(free));
                }
                self.turn(segment.ended, spells)
            }
            _ => (),
        }
    }

    /// Updates the gate after a segment that ended at that clock.
    fn turn(&mut self, ended: u64, spells: Spells) {
        match self.window {
            None => self.within = spells,
            Some(window) => {
                if ended <= window.from {
                    self.before = spells;
                }
                if ended <= window.to {
                    self.within = spells;
                }
            }
        }
    }

    /// Returns how often and for how long the gate was closed in the window, in a run that ended at that clock.
    pub fn closed(&self, ended: u64) -> Closed {
        let (from, to) = match self.window {
            Some(window) => (window.from.min(ended), window.to.min(ended)),
            None => (0, ended),
        };
        let before = self.before.closed_until(from).unwrap_or(u64::MAX);
        let within = self.within.closed_until(to).unwrap_or(u64::MAX);
        Closed {
            times: self.within.times.saturating_sub(self.before.times),
            ticks: within.saturating_sub(before),
            is_closed: !self.within.is_open(),
        }
    }

    /// Returns the number of dropped requests, of the run with these numbers.
    pub fn dropped_in(&self, numbers: &Numbers) -> u64 {
        match self.window {
            Some(_) => self.dropped,
            None => numbers.dropped,
        }
    }

    /// Returns the maximum number of chunks held after a segment, of the run with these numbers.
    pub fn most_held_in(&self, numbers: &Numbers) -> u32 {
        match self.window {
            Some(_) => self.most_held,
            None => numbers.most_held,
        }
    }

    /// Returns the scope of these numbers.
    pub fn scope<'a>(&self, numbers: &'a Numbers, times: &'a TickList) -> Scope<'a> {
        Scope {
            numbers,
            times,
            window: self.window,
        }
    }
}
