// The output of `graph` and `budget`, shown with the places in the source.

use crate::failures::Failure;
use crate::inputs::load;
use crate::outcome::{MOST_BYTES, put};
use crate::run::make_run;
use cap_io::{CleanSink, CleanSource, Shelf, Sink};
use capriccio_commands::let_go;
use command_words::{Command, read_words};
use placed_analysis::{put_analysis, put_budget};
use report_text::Text;
use source_places::Places;
use std::alloc::{AllocError, Global};

/// Checks whether the words ask for `graph` or `budget`.
pub(crate) fn is_analysis(alloc: Global, words: &Vec<String>) -> bool {
    match read_words(alloc, words) {
        Ok(Command::Graph { .. }) => true,
        Ok(Command::Budget { .. }) => true,
        _ => false,
    }
}

/// Does the command of these words, and shows its output with the places in the source if it succeeded. Returns its
/// status.
pub(crate) fn show_analysis<F: Shelf, K: Sink, E: Sink>(
    alloc: Global,
    words: &Vec<String>,
    shelf: &mut F,
    out: &mut K,
    err: &mut E,
) -> Result<u8, Failure> {
    let mut trace = CleanSource::new(Vec::new(alloc));
    let mut printed = CleanSink::new(alloc);
    let mut last = None;
    let status = make_run(
        alloc,
        words,
        shelf,
        &mut trace,
        &mut printed,
        err,
        &mut last,
    );
    drop(trace);
    let shown = if status == 0 {
        show_printed(alloc, words, printed.bytes(), shelf, out)
    } else {
        put(out, printed.bytes())
    };
    drop(printed);
    if let Some(world) = last {
        let_go(world);
    }
    shown?;
    Ok(status)
}

/// Shows the output of the command of these words; that of a command other than `graph` and `budget` is unchanged.
fn show_printed<F: Shelf, K: Sink>(
    alloc: Global,
    words: &Vec<String>,
    printed: &[u8],
    shelf: &mut F,
    out: &mut K,
) -> Result<(), Failure> {
    match read_words(alloc, words) {
        Ok(Command::Graph { source, placement }) => {
            show_beside(alloc, source, printed, Some(placement.max_path), shelf, out)
        }
        Ok(Command::Budget { source, .. }) => {
            show_beside(alloc, source, printed, None, shelf, out)
        }
        _ => put(out, printed),
    }
}

/// Shows the lines of `graph`, given the maximum path between two checkpoints in bytes, or else those of `budget`, with
/// the places in the source, in the file of that name.
fn show_beside<F: Shelf, K: Sink>(
    alloc: Global,
    name: &str,
    printed: &[u8],
    max_path: Option<u32>,
    shelf: &mut F,
    out: &mut K,
) -> Result<(), Failure> {
    let source = load(alloc, shelf, name, MOST_BYTES, Failure::NoSource)?;
    let places = Places::read(alloc, name, source)?;
    let shown = show_placed(alloc, &places, printed, max_path, out);
    drop(places);
    shown
}

/// Shows the same, given the places of the source.
fn show_placed<K: Sink>(
    alloc: Global,
    places: &Places,
    printed: &[u8],
    max_path: Option<u32>,
    out: &mut K,
) -> Result<(), Failure> {
    let mut text = Text::new(alloc);
    match max_path {
        Some(most) => put_analysis(alloc, &mut text, places, printed, most),
        None => put_budget(&mut text, places, printed),
    }
    let shown = match text.whole() {
        Ok(lines) => put(out, lines.as_bytes()),
        Err(AllocError) => Err(Failure::Memory),
    };
    drop(text);
    shown
}
