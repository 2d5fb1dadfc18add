// Calls of the program over objects in memory, and their results.
ghost use Rattle.std.specs.Prelude.{◌≤◌};

use cap_io::{MemShelf, MemSink, MemSource, Shelf, Sink, Source};
use capriccio_call::capriccio;
use std::alloc::{AllocError, Global};
use thread_core::World;

pub(crate) const NONE: &[u8] = b"";

/// The command line, the file `P`, the trace, the status, the output, and the line on standard error.
pub(crate) type Row<'a> = (&'a str, &'a [u8], &'a [u8], u8, &'a [u8], &'a [u8]);

/// The calls of the shelf, the trace, the output and standard error that fail; 0 for none.
pub(crate) type Fails = [u64; 4];

pub(crate) const NO_FAULT: Fails = [0, 0, 0, 0];

/// The input of a call.
#[derive(Clone, Copy)]
pub(crate) struct Given<'a> {
    /// The words after the program's name, with a space between two of them.
    pub(crate) words: &'a str,
    /// The files, each with its name.
    pub(crate) files: &'a [(&'a str, &'a [u8])],
    /// The trace.
    pub(crate) trace: &'a [u8],
    /// The calls that fail.
    pub(crate) fails: Fails,
    /// The number of bytes that a failing store writes.
    pub(crate) stored: u32,
    /// The number of bytes that the output takes a call, at least 1.
    pub(crate) taken: u32,
}

/// The expected result of a call.
#[derive(Clone, Copy)]
pub(crate) struct Wanted<'a> {
    /// The status.
    pub(crate) status: u8,
    /// The expected output.
    pub(crate) out: &'a [u8],
    /// If given, the output takes a prefix of it of at most this length, and all of it only if the status is 0.
    pub(crate) most: Option<usize>,
    /// The expected line on standard error.
    pub(crate) err: &'a [u8],
    /// The expected contents of these files.
    pub(crate) files: &'a [(&'a str, &'a [u8])],
}

/// Returns the status of a call. It has no clauses, so that proof search in its callers doesn't try those of
/// `capriccio`.
pub(crate) fn status_of<F: Shelf, S: Source, K: Sink, E: Sink>(
    alloc: Global,
    words: &Vec<String>,
    shelf: &mut F,
    trace: &mut S,
    out: &mut K,
    err: &mut E,
    last: &mut Option<World>,
) -> u8 {
    capriccio(alloc, words, shelf, trace, out, err, last)
}

/// Returns the words of a command line, which are between its blanks.
pub(crate) fn words_of(alloc: Global, line: &str) -> Result<Vec<String>, AllocError> {
    let mut all = Vec::new(alloc);
    for word in line.split_whitespace() {
        all.push(String::from_str(alloc, word)?)?;
    }
    Ok(all)
}

/// Returns a file with its name.
fn file_of(alloc: Global, name: &str, bytes: &[u8]) -> Result<(String, Vec<u8>), AllocError> {
    let name = String::from_str(alloc, name)?;
    Ok((name, bytes.to_vec(alloc)?))
}

/// Returns files, each with its name.
pub(crate) fn files_of(
    alloc: Global,
    files: &[(&str, &[u8])],
) -> Result<Vec<(String, Vec<u8>)>, AllocError> {
    let mut all = Vec::new(alloc);
    for (name, bytes) in files {
        all.push(file_of(alloc, name, bytes)?)?;
    }
    Ok(all)
}

/// Returns the calls of a stream that fail.
fn failing(alloc: Global, call: u64) -> Result<Vec<u64>, AllocError> {
    let mut calls = Vec::new(alloc);
    if call > 0 {
        calls.push(call)?;
    }
    Ok(calls)
}

/// Returns the calls of a shelf that fail, each with the number of bytes that a store writes.
fn failing_stores(alloc: Global, call: u64, bytes: u32) -> Result<Vec<(u64, u32)>, AllocError> {
    let mut calls = Vec::new(alloc);
    if call > 0 {
        calls.push((call, bytes))?;
    }
    Ok(calls)
}

fn shelf_of(alloc: Global, given: &Given) -> Result<MemShelf, AllocError> {
    let fails = failing_stores(alloc, given.fails[0], given.stored)?;
    let files = files_of(alloc, given.files)?;
    Ok(MemShelf::new(alloc, files, fails))
}

fn trace_of(alloc: Global, given: &Given) -> Result<MemSource, AllocError> {
    let fails = failing(alloc, given.fails[1])?;
    let bytes = given.trace.to_vec(alloc)?;
    Ok(MemSource::new(bytes, 16, fails))
}

/// Returns a sink that takes `taken` bytes a call, at least one.
fn sink_of(alloc: Global, taken: u32, call: u64) -> Result<MemSink, AllocError> {
    let fails = failing(alloc, call)?;
    Ok(MemSink::new(alloc, taken.max(1), fails))
}

/// Checks whether the output took what is expected.
fn is_taken(wanted: &Wanted, status: u8, bytes: &[u8]) -> bool {
    match wanted.most {
        None => bytes == wanted.out,
        Some(most) => {
            wanted.out.starts_with(bytes)
                && bytes.len() <= most
                && (bytes.len() == wanted.out.len()) == (status == 0)
        }
    }
}

/// Checks whether a file has these bytes; a file that can't be loaded hasn't.
pub(crate) fn holds<F: Shelf>(alloc: Global, shelf: &mut F, name: &str, bytes: &[u8]) -> bool {
    match shelf.load(alloc, name, u32::MAX) {
        Ok(given) => {
            let is_so = given.as_slice() == bytes;
            drop(given);
            is_so
        }
        Err(_) => bytes.is_empty(),
    }
}

/// Checks whether the files have these bytes.
pub(crate) fn hold_files<F: Shelf>(alloc: Global, shelf: &mut F, files: &[(&str, &[u8])]) -> bool {
    for (name, bytes) in files {
        if !holds(alloc, shelf, name, bytes) {
            return false;
        }
    }
    true
}

/// Returns the status of a call and drops its world.
fn status_alone(
    alloc: Global,
    words: &str,
    shelf: &mut MemShelf,
    trace: &mut MemSource,
    out: &mut MemSink,
    err: &mut MemSink,
) -> Result<u8, AllocError> {
    let words = words_of(alloc, words)?;
    let mut last = None;
    let status = status_of(alloc, &words, shelf, trace, out, err, &mut last);
    drop(last);
    drop(words);
    Ok(status)
}

/// Checks whether a call over these objects has its expected result, except for the files.
fn is_answer(
    alloc: Global,
    given: &Given,
    wanted: &Wanted,
    shelf: &mut MemShelf,
    trace: &mut MemSource,
    out: &mut MemSink,
) -> Result<bool, AllocError> {
    let mut err = sink_of(alloc, 100, given.fails[3])?;
    let answer = status_alone(alloc, given.words, shelf, trace, out, &mut err);
    let is_told = err.bytes() == wanted.err;
    drop(err);
    let status = answer?;
    Ok(status == wanted.status && is_told && is_taken(wanted, status, out.bytes()))
}

/// Does the same with an output.
fn with_out(
    alloc: Global,
    given: &Given,
    wanted: &Wanted,
    shelf: &mut MemShelf,
    trace: &mut MemSource,
) -> Result<bool, AllocError> {
    let mut out = sink_of(alloc, given.taken, given.fails[2])?;
    let is_so = is_answer(alloc, given, wanted, shelf, trace, &mut out);
    drop(out);
    is_so
}

/// Does the same with a trace.
fn with_trace(
    alloc: Global,
    given: &Given,
    wanted: &Wanted,
    shelf: &mut MemShelf,
) -> Result<bool, AllocError> {
    let mut trace = trace_of(alloc, given)?;
    let is_so = with_out(alloc, given, wanted, shelf, &mut trace);
    drop(trace);
    is_so
}

/// Checks whether a call has its expected result.
fn leaves(alloc: Global, given: &Given, wanted: &Wanted) -> Result<bool, AllocError> {
    let mut shelf = shelf_of(alloc, given)?;
    let answer = with_trace(alloc, given, wanted, &mut shelf);
    let is_held = hold_files(alloc, &mut shelf, wanted.files);
    drop(shelf);
    Ok(answer? && is_held)
}

/// Checks whether a call has its expected result; if memory runs out, it hasn't.
pub(crate) fn is_so(alloc: Global, given: &Given, wanted: &Wanted) -> bool {
    matches!(leaves(alloc, given, wanted), Ok(true))
}

/// Checks whether a call returns and writes what the row says.
pub(crate) fn is_row(alloc: Global, row: &Row) -> bool {
    let (words, source, trace, status, out, err) = *row;
    let given = Given {
        words,
        files: &[("P", source)],
        trace,
        fails: NO_FAULT,
        stored: 0,
        taken: 10_000,
    };
    let wanted = Wanted {
        status,
        out,
        most: None,
        err,
        files: &[],
    };
    is_so(alloc, &given, &wanted)
}

/// Checks whether each row holds.
pub(crate) fn all_hold(alloc: Global, rows: &[Row]) -> bool {
    for row in rows {
        if !is_row(alloc, row) {
            return false;
        }
    }
    true
}
