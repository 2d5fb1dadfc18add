use crate::measures::{Measure, measures_in};
use cap_text::{Fields, Lines};
use report_text::Text;
use source_places::Places;
use std::alloc::{AllocError, Global};

/// Appends the lines that `graph` printed, each with its place; for a call also its text, its callees, and why it is
/// checkpointed. A path between two checkpoints has at most this many bytes.
pub fn put_analysis(
    alloc: Global,
    text: &mut Text,
    places: &Places,
    analysis: &[u8],
    max_path: u32,
) {
    match measures_in(alloc, analysis) {
        Ok(measures) => {
            let functions = measures.as_slice();
            for line in Lines::new(analysis) {
                text.bytes(line);
                put_note(alloc, text, places, functions, line, max_path);
                text.words("\n");
            }
            drop(measures)
        }
        Err(AllocError) => text.lack(),
    }
}

/// Appends the place of the line `function I ..`, or the call of the line `site S CALLER KIND` with its details.
fn put_note(
    alloc: Global,
    text: &mut Text,
    places: &Places,
    functions: &[Measure],
    line: &[u8],
    max_path: u32,
) {
    let mut fields = Fields::new(line, b' ');
    let (Some(kind), Some(number)) = (fields.next(), fields.word()) else {
        return;
    };
    text.words(": ");
    if kind == b"function".as_slice() {
        places.put_function_place(text, number)
    } else {
        places.put_site_text(text, number);
        put_reason(alloc, text, places, functions, number, fields, max_path)
    }
}

/// Appends the possible callees of a call through a table, and why a site is checkpointed, from the remaining fields of
/// its line.
fn put_reason(
    alloc: Global,
    text: &mut Text,
    places: &Places,
    functions: &[Measure],
    site: u32,
    mut fields: Fields,
    max_path: u32,
) {
    let Ok(callees) = places.callees(alloc, site) else {
        text.lack();
        return;
    };
    put_callees(text, places, callees.as_slice());
    fields.next();
    match fields.next() {
        Some(b"back") => text.words(", checkpointed: it closes a cycle of calls"),
        Some(b"over") => {
            let caller = places.caller(site);
            put_over(text, functions, caller, callees.as_slice(), max_path)
        }
        _ => (),
    }
    drop(callees)
}

/// Appends the functions that a call through a table may call.
fn put_callees(text: &mut Text, places: &Places, callees: &[u32]) {
    if callees.len() < 2 {
        return;
    }
    let mut is_first = true;
    for callee in callees {
        text.words(if is_first { ", calls " } else { " or " });
        places.put_function(text, *callee);
        is_first = false;
    }
}

/// Appends why a call is checkpointed that closes no cycle: without a test the path would be too long.
fn put_over(
    text: &mut Text,
    functions: &[Measure],
    caller: Option<u32>,
    callees: &[u32],
    max_path: u32,
) {
    let Some(number) = caller else {
        return;
    };
    let frame = match functions.get(number as usize) {
        Some(measure) => measure.frame,
        None => 0,
    };
    text.form(
        ", checkpointed: the caller's frame of $ bytes and the callee's bound of $ exceed the $ of a path",
        &[frame, greatest_of(functions, callees), u64::from(max_path)],
    )
}

/// Returns the greatest bound of these functions.
fn greatest_of(functions: &[Measure], callees: &[u32]) -> u64 {
    let mut greatest: u64 = 0;
    for callee in callees {
        if let Some(measure) = functions.get(*callee as usize) {
            greatest = greatest.max(measure.bound);
        }
    }
    greatest
}
