use crate::again::holders::Holders;
use crate::again::starting::make_once_more;
use crate::again::{Decided, Told};
use crate::analysis::{is_analysis, show_analysis};
use crate::failures::Failure;
use crate::help::HELP;
use crate::inputs::{load, store};
use crate::pictures::{put_blocking, put_times};
use crate::report::circles::put_circles;
use crate::report::stop::{cut_in, is_in_use, put_stop};
use crate::report::{Found, RunLog, last_line, put_report};
use crate::run::make_run;
use crate::subject::{Subject, subject_of};
use crate::trace::Trace;
use crate::wanted::Wanted;
use cap_io::{CleanSink, CleanSource, Shelf, Sink, Source, put_all};
use capriccio_commands::let_go;
use report_figures::{TickList, Window};
use report_text::Text;
use run_history::Answering;
use schedule_log::read_entry;
use source_places::Places;
use std::alloc::{AllocError, Global};
use thread_core::World;

/// The last line of the log of a run in which no thread is ready.
const IDLE: &[u8] = b"stop idle";

/// The maximum size of a source in bytes.
pub(crate) const MOST_BYTES: u32 = 1_048_576;

/// Shows what the words ask for, and returns the status: that of the run, or 0 if a stored log is read.
pub fn show<F: Shelf, S: Source, K: Sink, E: Sink>(
    alloc: Global,
    words: Vec<String>,
    shelf: &mut F,
    input: &mut S,
    out: &mut K,
    err: &mut E,
) -> Result<u8, Failure> {
    match Wanted::read(alloc, words) {
        Ok(wanted) => {
            let shown = if wanted.help {
                show_help(out)
            } else {
                show_wanted(alloc, &wanted, shelf, input, out, err)
            };
            drop(wanted);
            shown
        }
        Err(failure) => Err(failure),
    }
}

/// Shows the usage.
fn show_help<K: Sink>(out: &mut K) -> Result<u8, Failure> {
    put(out, HELP.as_bytes())?;
    Ok(0)
}

/// Shows what the words ask for, with the trace that is read; `graph` and `budget` read none. Words of no command are
/// refused before.
fn show_wanted<F: Shelf, S: Source, K: Sink, E: Sink>(
    alloc: Global,
    wanted: &Wanted,
    shelf: &mut F,
    input: &mut S,
    out: &mut K,
    err: &mut E,
) -> Result<u8, Failure> {
    let _subject = subject_of(alloc, &wanted.words)?;
    if wanted.log.is_none() && is_analysis(alloc, &wanted.words) {
        return show_analysis(alloc, &wanted.words, shelf, out, err);
    }
    let trace = Trace::read(alloc, input)?;
    show_trace(alloc, wanted, trace, shelf, out, err)
}

/// Shows what the words ask for, with that trace.
fn show_trace<F: Shelf, K: Sink, E: Sink>(
    alloc: Global,
    wanted: &Wanted,
    trace: Trace,
    shelf: &mut F,
    out: &mut K,
    err: &mut E,
) -> Result<u8, Failure> {
    let Trace { bytes, times } = trace;
    let shown = match &wanted.log {
        Some(name) => {
            drop(bytes);
            show_stored(alloc, wanted, name.as_str(), &times, shelf, out)
        }
        None => show_run(alloc, wanted, bytes, &times, shelf, out, err),
    };
    drop(times);
    shown
}

/// Shows the run of a stored log.
fn show_stored<F: Shelf, K: Sink>(
    alloc: Global,
    wanted: &Wanted,
    name: &str,
    times: &TickList,
    shelf: &mut F,
    out: &mut K,
) -> Result<u8, Failure> {
    let log = load(alloc, shelf, name, u32::MAX, Failure::NoLog)?;
    let shown = show_kept(alloc, wanted, times, log.as_slice(), shelf, out);
    drop(log);
    shown
}

/// Shows a run from its log alone.
fn show_kept<'a, F: Shelf, K: Sink>(
    alloc: Global,
    wanted: &'a Wanted,
    times: &'a TickList,
    log: &'a [u8],
    shelf: &mut F,
    out: &mut K,
) -> Result<u8, Failure> {
    let Some(subject) = subject_of(alloc, &wanted.words)? else {
        return Err(Failure::Words);
    };
    let run = Run {
        subject,
        times,
        log,
        world: None,
        told: None,
    };
    show_log(alloc, wanted, run, shelf, out)?;
    Ok(0)
}

/// Makes the run that the words ask for and shows it. If they ask for something else, or if the run reaches no stop,
/// its output is passed on unchanged.
fn show_run<F: Shelf, K: Sink, E: Sink>(
    alloc: Global,
    wanted: &Wanted,
    trace: Vec<u8>,
    times: &TickList,
    shelf: &mut F,
    out: &mut K,
    err: &mut E,
) -> Result<u8, Failure> {
    let mut source = CleanSource::new(trace);
    let mut log = CleanSink::new(alloc);
    let mut last = None;
    let status = make_run(
        alloc,
        &wanted.words,
        shelf,
        &mut source,
        &mut log,
        err,
        &mut last,
    );
    drop(source);
    let shown = show_made(alloc, wanted, times, log.bytes(), &last, shelf, out);
    drop(log);
    if let Some(world) = last {
        let_go(world);
    }
    shown?;
    Ok(status)
}

/// Shows a run from its log and the world at its stop.
fn show_made<'a, F: Shelf, K: Sink>(
    alloc: Global,
    wanted: &'a Wanted,
    times: &'a TickList,
    log: &'a [u8],
    last: &'a Option<World>,
    shelf: &mut F,
    out: &mut K,
) -> Result<(), Failure> {
    match (subject_of(alloc, &wanted.words)?, last) {
        (Some(subject), Some(world)) => {
            let told = told_of(alloc, wanted, shelf, log, world)?;
            let run = Run {
                subject,
                times,
                log,
                world: Some(world),
                told: told.as_ref(),
            };
            let shown = show_log(alloc, wanted, run, shelf, out);
            drop(told);
            shown
        }
        _ => put(out, log),
    }
}

/// Repeats the run if that is needed: with `--why`, and for the holders of resources if no thread is ready while some
/// resource is in use. It fails if a file can't be read again.
fn told_of<F: Shelf>(
    alloc: Global,
    wanted: &Wanted,
    shelf: &mut F,
    log: &[u8],
    world: &World,
) -> Result<Option<Told>, Failure> {
    if !wanted.why && (last_line(log) != IDLE || !is_in_use(world)) {
        return Ok(None);
    }
    match make_once_more(alloc, &wanted.words, shelf, log) {
        Ok(Some(mut told)) => {
            if !wanted.why {
                told.decided = None;
            }
            Ok(Some(told))
        }
        other => other,
    }
}

/// A run to be shown: what its words say, the times of its trace, its log, and, in addition to the log, the world at
/// its stop and the results of the repeated run.
#[derive(Clone, Copy)]
struct Run<'a> {
    subject: Subject<'a>,
    times: &'a TickList,
    log: &'a [u8],
    world: Option<&'a World>,
    told: Option<&'a Told>,
}

/// Shows a run from its log and, if available, the world at its stop and the results of the repeated run.
fn show_log<F: Shelf, K: Sink>(
    alloc: Global,
    wanted: &Wanted,
    run: Run,
    shelf: &mut F,
    out: &mut K,
) -> Result<(), Failure> {
    let name = run.subject.source;
    let source = load(alloc, shelf, name, MOST_BYTES, Failure::NoSource)?;
    let places = Places::read(alloc, name, source)?;
    let shown = show_placed(alloc, wanted, &places, run, shelf, out);
    drop(places);
    shown
}

/// Shows a run, given the places of its source: the report, and the pictures that the words ask for. The blocking graph
/// is stored as DOT if the file's name ends with that, and otherwise as SVG.
fn show_placed<F: Shelf, K: Sink>(
    alloc: Global,
    wanted: &Wanted,
    places: &Places,
    run: Run,
    shelf: &mut F,
    out: &mut K,
) -> Result<(), Failure> {
    let found = put_text(alloc, places, run, wanted, out)?;
    if let Some(name) = &wanted.timeline {
        let mut text = Text::new(alloc);
        let asked = (wanted.from, wanted.to);
        let written = put_times(alloc, &mut text, places, run.log, found, asked);
        store_whole(alloc, shelf, name.as_str(), written, text)?;
    }
    match &wanted.graph {
        Some(name) => {
            let mut text = Text::new(alloc);
            let is_dot = name.as_str().ends_with(".dot");
            let written = put_blocking(alloc, &mut text, places, run.log, is_dot);
            store_whole(alloc, shelf, name.as_str(), written, text)
        }
        None => Ok(()),
    }
}

/// Returns the window of clocks that the report covers, unless it covers all.
fn window_of(wanted: &Wanted) -> Option<Window> {
    match (wanted.from, wanted.to) {
        (None, None) => None,
        (from, to) => Some(Window {
            from: from.unwrap_or(0),
            to: to.unwrap_or(u64::MAX),
        }),
    }
}

/// Writes all bytes.
pub(crate) fn put<K: Sink>(out: &mut K, bytes: &[u8]) -> Result<(), Failure> {
    match put_all(out, bytes) {
        Ok(()) => Ok(()),
        Err(_) => Err(Failure::Write),
    }
}

/// Writes the report.
fn put_text<K: Sink>(
    alloc: Global,
    places: &Places,
    run: Run,
    wanted: &Wanted,
    out: &mut K,
) -> Result<Found, Failure> {
    let mut text = Text::new(alloc);
    let shown = match write_text(alloc, &mut text, places, run, wanted) {
        Ok(found) => match text.whole() {
            Ok(report) => match put(out, report.as_bytes()) {
                Ok(()) => Ok(found),
                Err(failure) => Err(failure),
            },
            Err(AllocError) => Err(Failure::Memory),
        },
        Err(failure) => Err(failure),
    };
    drop(text);
    shown
}

/// Appends the report: the numbers from the log, where the run stopped, and the last line of its log.
fn write_text(
    alloc: Global,
    text: &mut Text,
    places: &Places,
    run: Run,
    wanted: &Wanted,
) -> Result<Found, Failure> {
    let (decided, holders): (Option<Decided>, &[Holders]) = match run.told {
        Some(told) => (told.decided, told.holders.as_slice()),
        None => (None, &[]),
    };
    let line = last_line(run.log);
    if let (Some(world), Some(told)) = (run.world, run.told) {
        put_circles(alloc, text, world, told, cut_in(line));
    }
    let whole = RunLog {
        log: run.log,
        options: run.subject.options,
        times: run.times,
        world: run.world,
        decided,
        request: wanted.request,
        answering: answering_of(run.told, wanted),
        window: window_of(wanted),
    };
    let found = put_report(alloc, text, places, whole)?;
    if let Some(world) = run.world {
        if let Ok(last) = read_entry(line) {
            put_stop(alloc, text, places, world, found.left, &last, holders);
        }
    }
    text.bytes(line);
    text.words("\n");
    Ok(found)
}

/// Returns which outputs are the answers to requests: those that the user chooses, or otherwise with `--why` also those
/// of threads that work for a request.
fn answering_of<'a>(told: Option<&'a Told>, wanted: &Wanted) -> Answering<'a> {
    match (wanted.answers, told) {
        (Some(pairing), _) => Answering::ByPairing(pairing),
        (None, Some(known)) if wanted.why => Answering::BySpawn(known.spawned.as_slice()),
        _ => Answering::ByThread,
    }
}

/// Stores a picture, if it is complete.
fn store_whole<F: Shelf>(
    alloc: Global,
    shelf: &mut F,
    name: &str,
    written: Result<(), Failure>,
    text: Text,
) -> Result<(), Failure> {
    let stored = match written {
        Ok(()) => match text.whole() {
            Ok(picture) => store(alloc, shelf, name, picture),
            Err(AllocError) => Err(Failure::Memory),
        },
        Err(failure) => Err(failure),
    };
    drop(text);
    stored
}
