// One shelf that never fails: a program is served, built, checked and run, and the returned world is examined. Two more
// are built for their budgets: one gets a budget; the other calls itself, so it has none.
use crate::calls::{NONE, files_of, hold_files, status_of, words_of};
use crate::checks::{CERTIFICATE_OF_SEVEN, PUT_SEVEN};
use crate::images::IMAGE_OF_SEVEN;
use crate::serving::LOG_OF_SEVEN;
use cap_io::{CleanShelf, CleanSink, CleanSource};
use std::alloc::{AllocError, Global};
use thread_core::World;

/// The log of a program that puts 7, over 1,025 chunks.
const LOG_OF_SEVEN_AND_ONE: &[u8] =
    b"run 0 0 0\nout 0 7\nend 0 17 1025\nedge 0 1 1 4352 -256\nstop done\n";

/// The name of a file and its contents.
type Held<'a> = (&'a str, &'a [u8]);

/// The world at the end of the log: the number of free chunks, all of the pool's, and words of chunks, each as its
/// chunk, its place in that and its value.
#[derive(Clone, Copy)]
struct AtEnd {
    free: u32,
    words: &'static [(u32, u32, u32)],
}

/// The thread ran on chunk 0 of 4,096 bytes: the return address was saved in its last word, and its first word links chunk 1.
const ON_FIRST: AtEnd = AtEnd {
    free: 1024,
    words: &[(0, 1023, 4096), (0, 0, 1), (1, 1023, 0)],
};

/// It ran on chunk 1,024, the one of 32 bytes, whose first word is the count.
const ON_EXTRA: AtEnd = AtEnd {
    free: 1025,
    words: &[(1024, 7, 4096), (1024, 0, 1025), (0, 1023, 0)],
};

/// Words, the status, the output, the line on standard error, the returned world, and the files that exist then.
type Row<'a> = (
    &'a str,
    u8,
    &'a [u8],
    &'a [u8],
    Option<AtEnd>,
    &'a [Held<'a>],
);

const SEQUENCE: [Row<'static>; 9] = [
    ("serve P", 0, LOG_OF_SEVEN, NONE, Some(ON_FIRST), &[]),
    // a second size that fits and is smaller, and one that is equal to the first
    (
        "serve P --extra 1 --extra-size 32",
        0,
        LOG_OF_SEVEN_AND_ONE,
        NONE,
        Some(ON_EXTRA),
        &[],
    ),
    (
        "serve P --extra 1 --extra-size 4096",
        0,
        LOG_OF_SEVEN_AND_ONE,
        NONE,
        Some(AtEnd {
            free: 1025,
            words: &[(0, 1023, 4096), (0, 0, 1), (1024, 1023, 0)],
        }),
        &[],
    ),
    (
        "build P I C",
        0,
        b"built code 24 globals 0 tables 0\n",
        NONE,
        None,
        &[("I", IMAGE_OF_SEVEN), ("C", CERTIFICATE_OF_SEVEN)],
    ),
    ("check P I C", 0, b"accepted\n", NONE, None, &[]),
    ("run P I C", 0, LOG_OF_SEVEN, NONE, Some(ON_FIRST), &[]),
    (
        "run P I C --chunks 65536",
        5,
        NONE,
        b"limit: pool is 268435456 bytes\n",
        None,
        &[],
    ),
    (
        "run P I C --extra 61441 --extra-size 1024",
        5,
        NONE,
        b"limit: pool is 67109888 bytes\n",
        None,
        &[],
    ),
    ("run P I D", 9, NONE, b"absent: certificate\n", None, &[]),
];

/// Checks whether the world is that at the end of the log: 17 instructions, all chunks free again, no thread, and these
/// words.
fn is_at_end(last: &Option<World>, wanted: &AtEnd) -> bool {
    match last {
        None => false,
        Some(world) => {
            world.cost() == 17
                && world.free() == wanted.free
                && world.cap(0) == wanted.free
                && world.live() == 0
                && has_words(world, wanted.words)
        }
    }
}

/// Checks whether words of chunks have these values.
fn has_words(world: &World, wanted: &[(u32, u32, u32)]) -> bool {
    for &(chunk, word, value) in wanted {
        if !has_word(world, chunk, word, value) {
            return false;
        }
    }
    true
}

/// Checks whether a word of a chunk has this value.
fn has_word(world: &World, chunk: u32, word: u32, value: u32) -> bool {
    chunk < world.cap(0) && word < world.chunk_words(chunk) && world.word_at(chunk, word) == value
}

/// Checks whether the returned world, or its absence, is as expected.
fn is_left(last: &Option<World>, wanted: &Option<AtEnd>) -> bool {
    match wanted {
        None => last.is_none(),
        Some(wanted) => is_at_end(last, wanted),
    }
}

/// Checks whether a call without a trace ends with this status, writes this, and returns the world at the end of the
/// log or none.
fn leaves(alloc: Global, words: &Vec<String>, shelf: &mut CleanShelf, row: &Row) -> bool {
    let mut trace = CleanSource::new(Vec::new(alloc));
    let mut out = CleanSink::new(alloc);
    let mut err = CleanSink::new(alloc);
    let mut last = None;
    let status = status_of(
        alloc, words, shelf, &mut trace, &mut out, &mut err, &mut last,
    );
    let is_world = is_left(&last, &row.4);
    let is_so = status == row.1 && out.bytes() == row.2 && err.bytes() == row.3 && is_world;
    drop(last);
    drop(err);
    drop(out);
    drop(trace);
    is_so
}

/// Checks whether a call has the result of the row, including files.
fn is_row(alloc: Global, shelf: &mut CleanShelf, row: &Row) -> Result<bool, AllocError> {
    let words = words_of(alloc, row.0)?;
    let is_so = leaves(alloc, &words, shelf, row);
    drop(words);
    Ok(is_so && hold_files(alloc, shelf, row.5))
}

const SMALL: &str = "build P I C --chunk 64 --max-path 32";

/// A program whose only call is at a checkpoint if the longest path is 32 bytes: the frames of `g` and `main` take 16
/// and 32.
const LINKED: &[u8] =
    b"int g(int x) { return x; } int main() { int a; int b; int c; a = g(1); return a; }";

const BUDGETED: [Row<'static>; 2] = [
    (
        SMALL,
        0,
        b"built code 58 globals 0 tables 0\n",
        NONE,
        None,
        &[],
    ),
    (
        "budget P I C",
        0,
        b"chunks 2\nheight 0 0\nheight 1 1\n",
        NONE,
        None,
        &[],
    ),
];

/// A program whose function calls itself.
const RECURSIVE: &[u8] =
    b"int f(int n) { int r; if (n < 1) return 0; r = f(n - 1); return r + 1; } int main() { int r; r = f(100); put(r); return 0; }";

const CYCLE: [Row<'static>; 2] = [
    (
        "build P I C --chunk 64 --max-path 48",
        0,
        b"built code 99 globals 0 tables 0\n",
        NONE,
        None,
        &[],
    ),
    ("budget P I C", 17, NONE, b"budget: cycle at f\n", None, &[]),
];

/// Checks whether the rows hold, one after another.
fn all_hold(alloc: Global, shelf: &mut CleanShelf, rows: &[Row]) -> Result<bool, AllocError> {
    for row in rows {
        if !is_row(alloc, shelf, row)? {
            return Ok(false);
        }
    }
    Ok(true)
}

/// Does the same for a shelf that has only the source.
fn all_hold_of_source(alloc: Global, source: &[u8], rows: &[Row]) -> Result<bool, AllocError> {
    let mut shelf = CleanShelf::new(alloc, files_of(alloc, &[("P", source)])?);
    let is_so = all_hold(alloc, &mut shelf, rows);
    drop(shelf);
    is_so
}

#[test]
fn serves_builds_checks_and_runs(rt: HostRuntime) {
    assert!(rt;
        matches!(
            all_hold_of_source(rt.alloc(), PUT_SEVEN, &SEQUENCE),
            Ok(true)
        )
    );
}

#[test]
fn builds_and_makes_a_budget(rt: HostRuntime) {
    assert!(rt; matches!(all_hold_of_source(rt.alloc(), LINKED, &BUDGETED), Ok(true)));
}

#[test]
fn builds_and_finds_a_cycle(rt: HostRuntime) {
    assert!(rt; matches!(all_hold_of_source(rt.alloc(), RECURSIVE, &CYCLE), Ok(true)));
}
