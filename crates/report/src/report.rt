// The text of a report on a run: requests and their latencies, waits by place, chunks, choices, the gate, which threads
// are left and where, and where the run stopped.
//
// `numbers_of` reads a log once for its numbers, and a `Course` observes it. The results of a repeated run (`Decided`)
// are in the lines on choices and the gate; the lines of `put_stop` have what only the world at the stop shows.
pub mod circles;
pub mod code;
pub mod left;
pub mod stacks;
pub mod stop;
pub mod values;

ghost use Rattle.std.specs.Prelude.{◌≤◌};

use crate::again::Decided;
use crate::failures::Failure;
use crate::report::left::put_left;
use cap_word::SiteKey;
use report_figures::{TickList, Window};
use report_lines::{
    Asked, ChunksLine, Closed, Counts, put_parts, put_queue, put_requests, put_unasked, put_waits,
};
use report_text::Text;
use run_history::{
    Answering, Happening, HistoryError, Marks, Numbers, Pairing, ReadError, Reading, Spells, Takes,
    Unasked, Watch, numbers_of,
};
use schedule_log::{Entry, Item};
use source_places::Places;
use std::alloc::{AllocError, Global};
use std::mem;
use thread_core::World;

/// The options of the run that a report uses.
#[derive(Clone, Copy)]
pub struct Options {
    /// The number of chunks, of both sizes, and the thresholds of the gate.
    pub marks: Marks,
    /// Whether the run has resources in addition to its chunks. A log doesn't have their use, so the gate isn't shown
    /// then.
    pub has_caps: bool,
}

/// What the report on a run found, for other output.
#[derive(Clone, Copy)]
pub struct Found {
    /// The number of threads that ran and are left.
    pub left: u64,
    /// The greatest number of a thread that ran, plus one.
    pub threads: u32,
    /// The number of threads that ran.
    pub started: u64,
    /// The clock at which the last segment ended.
    pub ended: u64,
}

/// What is read from a log in addition to its numbers.
#[derive(Drop)]
pub(crate) struct Course<'a> {
    /// For each site, whether its call is `accept`.
    pub(crate) accepts: &'a [bool],
    /// For each site, whether its call is `take`.
    at_take: &'a [bool],
    /// For each site, whether its call is one at which threads wait.
    waiting: &'a [bool],
    /// The times of the trace's events, in order, and the number of events that came or were dropped so far.
    times: &'a TickList,
    events: usize,
    /// Whether each event so far is in the trace, and each wait in the source.
    fits: bool,
    options: Options,
    /// The last wait at `take` of each thread, since it took its request.
    pub(crate) takes: Takes,
    /// The outputs of threads that served no request.
    pub(crate) unasked: Unasked,
    /// The greatest number of a thread that ran, plus one, and the number of threads that ran.
    pub(crate) threads: u32,
    started: u64,
    counts: Counts,
    spells: Spells,
    /// The clock at which the last segment ended.
    ended: u64,
    /// The number of waiting requests, and the number of threads at `accept`.
    requests: u64,
    at_accept: u64,
    /// The number of choices at which the closed gate held back a request for which a thread waited.
    held_back: u64,
}

impl<'a> Watch for Course<'a> {
    ghost use Rattle.std.specs.Prelude.{⊤};

    ghost has_seen = { λ _ _. ⊤ };

    #[inline(always)]
    fn see(
        &mut self,
        entry: &Entry,
        told: Happening,
        named: Happening,
    ) -> Result<(), HistoryError> {
        match self.takes.add(told, self.at_take) {
            Ok(()) => match self.unasked.add(named) {
                Ok(()) => match self.take(entry, told) {
                    Ok(()) => Ok(()),
                    Err(error) => Err(error),
                },
                Err(error) => Err(error),
            },
            Err(AllocError) => Err(HistoryError::Memory),
        }
    }
}

impl<'a> Course<'a> {
    /// Returns the state before the first entry.
    fn new(
        alloc: Global,
        accepts: &'a [bool],
        at_take: &'a [bool],
        waiting: &'a [bool],
        times: &'a TickList,
        options: Options,
        window: Option<Window>,
    ) -> Course<'a> {
        let spells = Spells::start(in_range(options.marks));
        Course {
            accepts,
            at_take,
            waiting,
            times,
            events: 0,
            fits: true,
            options,
            takes: Takes::new(alloc),
            unasked: Unasked::new(alloc),
            threads: 0,
            started: 0,
            counts: Counts::new(window, spells),
            spells,
            ended: 0,
            requests: 0,
            at_accept: 0,
            held_back: 0,
        }
    }

    /// Takes up the next entry and its happening; at a choice the gate is as it was before.
    #[inline(always)]
    fn take(&mut self, entry: &Entry, told: Happening) -> Result<(), HistoryError> {
        match entry {
            Entry::Run { thread, clock, .. } => {
                self.threads = self.threads.max(thread.saturating_add(1));
                self.counts.choose(*clock);
                self.choose(told, *clock);
            }
            Entry::Event { clock, .. } => self.come(*clock),
            Entry::Dropped { clock, .. } => self.come(*clock),
            Entry::Block { key, .. } => {
                self.fits = self.fits && is_innermost_in(self.waiting, key);
                if is_innermost_in(self.accepts, key) {
                    self.at_accept = self.at_accept.saturating_add(1);
                }
            }
            _ => (),
        }
        match told {
            Happening::Came {
                item: Item::Arrive { .. },
                ..
            } => self.requests = self.requests.saturating_add(1),
            Happening::Started { .. } => self.started = self.started.saturating_add(1),
            Happening::Lost { .. } => {
                let chunks = self.options.marks.chunks;
                self.counts.add(told, chunks, self.spells);
            }
            Happening::Ran { segment, .. } => {
                self.ended = segment.ended;
                return self.rest(told);
            }
            _ => (),
        }
        Ok(())
    }

    /// Takes up a finished segment: the gate changes only then.
    fn rest(&mut self, told: Happening) -> Result<(), HistoryError> {
        match self.spells.with(in_range(self.options.marks), told) {
            Some(spells) => {
                self.spells = spells;
                let chunks = self.options.marks.chunks;
                self.counts.add(told, chunks, spells);
                Ok(())
            }
            None => Err(HistoryError::Count),
        }
    }

    /// Takes up an event that came or was dropped at that clock: the next one of the trace, whose time isn't later.
    fn come(&mut self, clock: u64) {
        let is_next = match self.times.get(self.events) {
            Some(time) => time <= clock,
            None => false,
        };
        self.fits = self.fits && is_next;
        self.events = self.events.saturating_add(1);
    }

    /// Takes up a choice at that clock, by its happening.
    fn choose(&mut self, told: Happening, clock: u64) {
        if let Happening::Waited(wait) = told {
            if wait.request.is_some() {
                self.requests = self.requests.saturating_sub(1);
                self.at_accept = self.at_accept.saturating_sub(1);
                return;
            }
        }
        let is_held_back = !self.spells.is_open() && self.requests > 0 && self.at_accept > 0;
        if is_held_back && self.counts.has(clock) {
            self.held_back = self.held_back.saturating_add(1);
        }
    }
}

/// Returns the thresholds of a gate, with a knee of at most 999 as in every run.
fn in_range(marks: Marks) -> Marks
    ensures { result.knee ≤ 999 }
{
    let knee = marks.knee.min(999);
    Marks { knee, ..marks }
}

/// Checks whether the innermost call of a key is at one of these sites.
fn is_innermost_in(sites: &[bool], key: &SiteKey) -> bool {
    match key.sites().first() {
        Some(site) => is_one(sites, *site),
        None => false,
    }
}

/// Checks whether a site is one of these.
pub(crate) fn is_one(sites: &[bool], site: u32) -> bool {
    match sites.get(site as usize) {
        Some(is_one) => *is_one,
        None => false,
    }
}

/// The input of a report in addition to its source: the run's log and its options, the times of the trace's events in
/// order, the world at the stop if the run was made, the results of the repeated run if there is one, and the request
/// that the user asks for.
#[derive(Clone, Copy)]
pub struct RunLog<'a> {
    /// The log.
    pub log: &'a [u8],
    /// The options of the run.
    pub options: Options,
    /// The times of the trace's events, in order.
    pub times: &'a TickList,
    /// The world at the stop, if the run was made.
    pub world: Option<&'a World>,
    /// The reasons for choices, if the run was repeated under the priority rule.
    pub decided: Option<Decided>,
    /// The request whose parts are shown, if the user asks for one.
    pub request: Option<u64>,
    /// Which outputs are the answers to requests.
    pub answering: Answering<'a>,
    /// The window of clocks that is shown, unless all are.
    pub window: Option<Window>,
}

/// Appends the report on a run, up to what is left at its end. The text records whether it is complete.
///
/// # Errors
///
/// `Log` if the log has no numbers (`numbers_of`); `Memory` if an allocation fails.
pub fn put_report(
    alloc: Global,
    text: &mut Text,
    places: &Places,
    run: RunLog,
) -> Result<Found, Failure> {
    let accepts = places.sites_of(alloc, b"accept")?;
    let at_take = places.sites_of(alloc, b"take")?;
    let waiting = places.waiting_sites(alloc)?;
    let course = Course::new(
        alloc,
        accepts.as_slice(),
        at_take.as_slice(),
        waiting.as_slice(),
        run.times,
        run.options,
        run.window,
    );
    put_course(alloc, text, places, run, course)
}

/// Appends the report on the run with this log, from its numbers and from what was read in addition. It fails as
/// `put_report` does.
fn put_course(
    alloc: Global,
    text: &mut Text,
    places: &Places,
    run: RunLog,
    mut course: Course,
) -> Result<Found, Failure> {
    let accepts = course.accepts;
    let chunks = course.options.marks.chunks;
    match numbers_of(
        alloc,
        run.log,
        accepts,
        run.window,
        chunks,
        run.answering,
        &mut course,
    ) {
        Ok(mut reading) => {
            let put = put_numbers(alloc, text, places, run, &course, &mut reading);
            drop(reading);
            match put {
                Ok(left) => Ok(Found {
                    left,
                    threads: course.threads,
                    started: course.started,
                    ended: course.ended,
                }),
                Err(failure) => Err(failure),
            }
        }
        Err(ReadError::Memory) => Err(Failure::Memory),
        Err(_) => Err(Failure::Log),
    }
}

/// Appends how outputs answer requests, if the user chooses that.
fn put_pairing(text: &mut Text, answering: Answering) {
    match answering {
        Answering::ByPairing(Pairing::First) => text.words(
            "answers: the N-th output is that to the N-th request\n",
        ),
        Answering::ByPairing(Pairing::Value) => text.words(
            "answers: an output is that to the first request of its value that has none\n",
        ),
        Answering::ByThread => (),
        Answering::BySpawn(_) => (),
    }
}

/// The first line on a log of another source or trace.
const FOREIGN: &str = "this log is not of this source and trace: the numbers below mix two runs\n";

/// Appends the numbers of a log. Returns how many threads are left.
fn put_numbers(
    alloc: Global,
    text: &mut Text,
    places: &Places,
    run: RunLog,
    course: &Course,
    reading: &mut Reading,
) -> Result<u64, Failure> {
    let empty = TickList::new(alloc);
    let mut firsts = mem::replace(&mut reading.numbers.answers.firsts, empty);
    let numbers = &reading.numbers;
    if !course.fits {
        text.words(FOREIGN);
    }
    put_window(text, run.window);
    put_pairing(text, run.answering);
    let scope = course.counts.scope(numbers, run.times);
    let dropped = course.counts.dropped_in(numbers);
    let slowest = put_requests(text, scope, &mut firsts, dropped)?;
    put_unasked(text, &course.unasked);
    let asked = match run.request {
        Some(number) => Some(Asked::of(numbers, number)),
        None => slowest,
    };
    if let Some(request) = asked {
        put_parts(alloc, text, places, scope, run.log, course.accepts, request)?;
    }
    text.words("waits by place: count, total, median, 99th, greatest\n");
    put_queue(text, scope, &mut firsts);
    drop(firsts);
    put_waits(text, places, &mut reading.numbers.waits);
    put_choices(text, &reading.numbers, course, run.decided);
    Ok(put_left(alloc, text, places, &reading.history, course, run.world))
}

/// Appends the window of clocks that is shown, unless all are.
fn put_window(text: &mut Text, window: Option<Window>) {
    if let Some(Window { from, to }) = window {
        text.form("window: the requests that arrived from $ ", &[from]);
        if to < u64::MAX {
            text.form("to $", &[to])
        } else {
            text.words("on")
        }
        text.words(", and the waits, choices and segments that ended then\n")
    }
}

/// Appends the lines on chunks, choices and the gate. The reasons for choices are known only for all of them together.
fn put_choices(text: &mut Text, numbers: &Numbers, course: &Course, decided: Option<Decided>) {
    text.line(&ChunksLine {
        most_held: course.counts.most_held_in(numbers),
        chunks: course.options.marks.chunks,
    });
    text.form("\nchoices: $", &[course.counts.choices]);
    if let (Some(Decided { choices, .. }), None) = (decided, course.counts.window) {
        text.form(
            ", by score $, by the gate $, by turn $",
            &[choices.by_score, choices.by_gate, choices.by_turn],
        )
    }
    text.words("\n");
    if !course.options.has_caps {
        let ended = course.ended;
        let closed = course.counts.closed(ended);
        put_gate(text, closed, Some(course.held_back))
    } else if let (Some(known), None) = (decided, course.counts.window) {
        let counts = Counts::new(None, known.spells);
        put_gate(text, counts.closed(known.ended), None)
    }
}

/// Appends the line on the gate. The number of choices at which it held a request back isn't always known.
fn put_gate(text: &mut Text, closed: Closed, held_back: Option<u64>) {
    text.words("gate: closed ");
    text.counted(closed.times, "time", "times");
    text.words(", for ");
    text.counted(closed.ticks, "tick", "ticks");
    text.words(" in all");
    if let Some(choices) = held_back {
        text.words(", held a request back at ");
        text.counted(choices, "choice", "choices")
    }
    text.words(if closed.is_closed {
        ", closed at the end\n"
    } else {
        "\n"
    })
}

/// Returns the last line of a log, by a search from the end back to the line feed before it.
pub fn last_line(log: &[u8]) -> &[u8] {
    let Some((last, body)) = log.split_last() else {
        return log;
    };
    let whole = if *last == b'\n' { body } else { log };
    for at in (0..whole.len()).rev() {
        if whole[at] == b'\n' {
            return &whole[at + 1..];
        }
    }
    whole
}
