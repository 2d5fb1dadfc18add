use report_figures::Window;
use run_history::Happening;
use std::alloc::{AllocError, Global};
use std::collections::{BTreeMap, BTreeSet};

/// What a thread does.
#[derive(Clone, Copy, PartialEq, Eq)]
pub enum Doing {
    /// It runs.
    Runs,
    /// It waits at the call of that site.
    Waits { site: u32 },
}

/// A part of a row: from one place to another, both included.
#[derive(Clone, Copy)]
pub struct Mark {
    /// The first place.
    pub from: u32,
    /// The last place.
    pub to: u32,
    /// The site at which the thread waits there, the first of several.
    pub site: Option<u32>,
    /// The number of ticks for which the thread runs there.
    pub ran: u64,
    /// The number of ticks for which it waits.
    pub waited: u64,
}

/// The rows of a timeline, by thread number.
#[derive(Drop)]
pub struct Rows {
    alloc: Global,
    /// The window of clocks that the picture shows.
    pub window: Window,
    /// The number of columns of a place, at least one.
    pub wide: u32,
    /// The threads that have a row, in the order of their numbers, with their marks in order of time.
    pub rows: BTreeMap<u32, Vec<Mark>>,
    /// The sites at which threads waited or still wait.
    pub sites: BTreeSet<u32>,
}

impl Rows {
    /// Returns the rows of a run between these clocks, before its first entry, with places of this number of columns,
    /// at least one. It doesn't allocate.
    pub fn new(alloc: Global, window: Window, wide: u32) -> Rows {
        Rows {
            alloc,
            window,
            wide: wide.max(1),
            rows: BTreeMap::new(alloc),
            sites: BTreeSet::new(alloc),
        }
    }

    /// Adds the happening of the next entry.
    pub fn add(&mut self, told: Happening) -> Result<(), AllocError> {
        match told {
            Happening::Waited(wait) => {
                let doing = Doing::Waits { site: wait.site };
                self.sites.insert(wait.site)?;
                self.mark(wait.thread, wait.since, wait.until, doing)
            }
            Happening::Ran { segment, .. } => {
                self.mark(segment.thread, segment.began, segment.ended, Doing::Runs)
            }
            _ => Ok(()),
        }
    }

    /// Returns the place of a clock.
    fn place_of(&self, clock: u64) -> u32 {
        self.window.column(clock) / self.wide.max(1)
    }

    /// Returns the first clock of a place.
    fn clock_of(&self, place: u32) -> u64 {
        self.window.clock(place.saturating_mul(self.wide))
    }

    /// Marks what a thread does from one clock to another, as far as that is in the window: its first place, the places
    /// in between, and its last place. The marks before and after may share the first and the last place.
    fn mark(&mut self, thread: u32, from: u64, to: u64, doing: Doing) -> Result<(), AllocError> {
        if to < self.window.from || self.window.to < from {
            return Ok(());
        }
        let begins = from.max(self.window.from);
        let ends = to.min(self.window.to);
        let first = self.place_of(begins);
        let last = self.place_of(ends);
        if first >= last {
            let ticks = shown_ticks(ends.saturating_sub(begins), doing);
            return self.share(thread, first, first, ticks, doing);
        }
        let second = self.clock_of(first.saturating_add(1));
        let end = self.clock_of(last);
        self.share(thread, first, first, second.saturating_sub(begins), doing)?;
        let between = end.saturating_sub(second);
        self.share(thread, first.saturating_add(1), last - 1, between, doing)?;
        self.share(thread, last, last, ends.saturating_sub(end), doing)
    }

    /// Adds ticks of what a thread does to the places from one to another, if there are any, or to its last mark, if
    /// that has the same place.
    fn share(
        &mut self,
        thread: u32,
        from: u32,
        to: u32,
        ticks: u64,
        doing: Doing,
    ) -> Result<(), AllocError> {
        if ticks == 0 || from > to {
            return Ok(());
        }
        let row = self.rows.entry(thread)?.or_insert(Vec::new(self.alloc));
        let is_shared = match row.last_mut() {
            Some(mark) => takes_in(mark, from, to, ticks, doing),
            None => false,
        };
        if !is_shared {
            row.push(mark_of(from, to, ticks, doing))?;
        }
        Ok(())
    }
}

/// Returns the number of ticks that are shown: at least one for a segment, and 0 for a wait that takes no time.
fn shown_ticks(ticks: u64, doing: Doing) -> u64 {
    match doing {
        Doing::Runs => ticks.max(1),
        Doing::Waits { .. } => ticks,
    }
}

/// Returns the mark of what a thread does at these places alone.
fn mark_of(from: u32, to: u32, ticks: u64, doing: Doing) -> Mark {
    match doing {
        Doing::Runs => Mark {
            from,
            to,
            site: None,
            ran: ticks,
            waited: 0,
        },
        Doing::Waits { site } => Mark {
            from,
            to,
            site: Some(site),
            ran: 0,
            waited: ticks,
        },
    }
}

/// Adds ticks to the last mark of a row, if they belong to its place. Returns whether they do.
fn takes_in(mark: &mut Mark, from: u32, to: u32, ticks: u64, doing: Doing) -> bool {
    let is_its_place = mark.from == mark.to && mark.from == from && from == to;
    if is_its_place {
        add_ticks(mark, ticks, doing);
    }
    is_its_place
}

/// Adds ticks of what a thread does to a mark.
fn add_ticks(mark: &mut Mark, ticks: u64, doing: Doing) {
    match doing {
        Doing::Runs => mark.ran = mark.ran.saturating_add(ticks),
        Doing::Waits { site } => {
            mark.waited = mark.waited.saturating_add(ticks);
            if mark.site.is_none() {
                mark.site = Some(site);
            }
        }
    }
}
