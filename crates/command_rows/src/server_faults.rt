// The server's run with objects that fail, a trace that is cut, a pool of one chunk, and twenty thousand threads.
use crate::calls::{
    Fails, Given, NONE, Row, Wanted, all_hold, files_of, is_row, is_so, status_of, words_of,
};
use crate::faults::{READ, WRITE};
use crate::serving::{LOG_OF_SERVER, SERVER, SERVER_TRACE};
use cap_io::{CleanShelf, CleanSink, CleanSource};
use std::alloc::{AllocError, Global};

const SERVES: &str = "serve P --caps 1=1";

/// The number of bytes that the output takes a call.
const TAKEN: usize = 64;

/// Checks whether the server returns and writes this with these failing calls. The trace returns 16 bytes a read.
fn is_served(alloc: Global, fails: Fails, status: u8, out: &[u8], err: &[u8]) -> bool {
    let given = Given {
        words: SERVES,
        files: &[("P", SERVER)],
        trace: SERVER_TRACE,
        fails,
        stored: 0,
        taken: TAKEN as u32,
    };
    let wanted = Wanted {
        status,
        out,
        most: None,
        err,
        files: &[],
    };
    is_so(alloc, &given, &wanted)
}

/// Checks whether the failure of a read is reported, with standard error working and failing. The log is buffered up to
/// the stop, so none of it has been written.
fn read_is_told(alloc: Global, call: u64) -> bool {
    is_served(alloc, [0, call, 0, 0], 6, NONE, READ)
        && is_served(alloc, [0, call, 0, 1], 6, NONE, NONE)
}

/// Does the same for each read: the trace has 78 bytes, which are five reads, and one at its end.
fn each_read_is_told(alloc: Global) -> bool {
    for call in 1..=6u64 {
        if !read_is_told(alloc, call) {
            return false;
        }
    }
    true
}

#[test]
fn each_read_fails(rt: HostRuntime) {
    let alloc = rt.alloc();
    assert!(rt;
        each_read_is_told(alloc) && is_served(alloc, [0, 7, 0, 0], 10, LOG_OF_SERVER, NONE)
    );
}

/// Checks whether the failure of a write is reported, with standard error working and failing, and exactly this part
/// was written.
fn write_is_told(alloc: Global, call: u64, part: &[u8]) -> bool {
    is_served(alloc, [0, 0, call, 0], 7, part, WRITE)
        && is_served(alloc, [0, 0, call, 1], 7, part, NONE)
}

/// Checks whether exactly the bytes of `writes` writes have been written if the next one fails.
fn write_fails_after(alloc: Global, writes: u32) -> bool {
    match LOG_OF_SERVER.get(..TAKEN * writes as usize) {
        Some(part) => write_is_told(alloc, u64::from(writes) + 1, part),
        None => false,
    }
}

/// Does the same for each write: the log has 632 bytes, which are ten writes.
fn each_write_is_told(alloc: Global) -> bool {
    for writes in 0..10 {
        if !write_fails_after(alloc, writes) {
            return false;
        }
    }
    true
}

#[test]
fn each_write_fails(rt: HostRuntime) {
    let alloc = rt.alloc();
    assert!(rt;
        each_write_is_told(alloc) && is_served(alloc, [0, 0, 11, 0], 10, LOG_OF_SERVER, NONE)
    );
}

/// The least and the greatest place at which the trace is cut, the status, and the log: up to the line that is cut,
/// which is refused when it is examined, unless only its line feed is missing.
type CutRow = (usize, usize, u8, &'static [u8]);

const CUT_TRACES: [CutRow; 13] = [
    (
        0,
        0,
        10,
        b"run 0 0 0\nend 0 31 1022\nrun 31 1 0\nblock 1 2 0 16 1022\nrun 47 2 0\nblock 2 2 0 16 1022\nedge 0 1 1 7936 256 0\nedge 0 2 2 4096 0 0\nstop idle\n",
    ),
    (1, 11, 4, b"stop trace 1\n"),
    (
        12,
        13,
        10,
        b"run 0 0 0\nend 0 31 1022\nrun 31 1 0\nblock 1 2 0 16 1022\nrun 47 2 0\nblock 2 2 0 16 1022\nevent 100 arrive 0\nrun 100 1 2\nblock 1 3 1 11 1022\nrun 111 1 3\nblock 1 4 2 5 1022\nedge 0 1 1 7936 256 0\nedge 0 2 2 4096 0 0\nedge 2 3 1 2816 0 0\nedge 3 4 1 1280 0 256\nstop idle\n",
    ),
    (
        14,
        24,
        4,
        b"run 0 0 0\nend 0 31 1022\nrun 31 1 0\nblock 1 2 0 16 1022\nrun 47 2 0\nblock 2 2 0 16 1022\nevent 100 arrive 0\nedge 0 1 1 7936 256 0\nedge 0 2 2 4096 0 0\nstop trace 2\n",
    ),
    (
        25,
        26,
        10,
        b"run 0 0 0\nend 0 31 1022\nrun 31 1 0\nblock 1 2 0 16 1022\nrun 47 2 0\nblock 2 2 0 16 1022\nevent 100 arrive 0\nrun 100 1 2\nblock 1 3 1 11 1022\nrun 111 1 3\nblock 1 4 2 5 1022\nevent 150 data 0 7\nrun 150 1 4\nout 1 107\nblock 1 2 0 30 1022\nedge 0 1 1 7936 256 0\nedge 0 2 2 4096 0 0\nedge 2 3 1 2816 0 0\nedge 3 4 1 1280 0 256\nedge 4 2 1 7680 0 -256\nstop idle\n",
    ),
    (
        27,
        37,
        4,
        b"run 0 0 0\nend 0 31 1022\nrun 31 1 0\nblock 1 2 0 16 1022\nrun 47 2 0\nblock 2 2 0 16 1022\nevent 100 arrive 0\nrun 100 1 2\nblock 1 3 1 11 1022\nrun 111 1 3\nblock 1 4 2 5 1022\nevent 150 data 0 7\nedge 0 1 1 7936 256 0\nedge 0 2 2 4096 0 0\nedge 2 3 1 2816 0 0\nedge 3 4 1 1280 0 256\nstop trace 3\n",
    ),
    (
        38,
        39,
        10,
        b"run 0 0 0\nend 0 31 1022\nrun 31 1 0\nblock 1 2 0 16 1022\nrun 47 2 0\nblock 2 2 0 16 1022\nevent 100 arrive 0\nrun 100 1 2\nblock 1 3 1 11 1022\nrun 111 1 3\nblock 1 4 2 5 1022\nevent 150 data 0 7\nrun 150 1 4\nout 1 107\nblock 1 2 0 30 1022\nevent 200 arrive 1\nrun 200 2 2\nblock 2 3 1 11 1022\nrun 211 2 3\nblock 2 4 2 5 1022\nedge 0 1 1 7936 256 0\nedge 0 2 2 4096 0 0\nedge 2 3 2 2816 0 0\nedge 3 4 2 1280 0 256\nedge 4 2 1 7680 0 -256\nstop idle\n",
    ),
    (
        40,
        50,
        4,
        b"run 0 0 0\nend 0 31 1022\nrun 31 1 0\nblock 1 2 0 16 1022\nrun 47 2 0\nblock 2 2 0 16 1022\nevent 100 arrive 0\nrun 100 1 2\nblock 1 3 1 11 1022\nrun 111 1 3\nblock 1 4 2 5 1022\nevent 150 data 0 7\nrun 150 1 4\nout 1 107\nblock 1 2 0 30 1022\nevent 200 arrive 1\nedge 0 1 1 7936 256 0\nedge 0 2 2 4096 0 0\nedge 2 3 1 2816 0 0\nedge 3 4 1 1280 0 256\nedge 4 2 1 7680 0 -256\nstop trace 4\n",
    ),
    (
        51,
        52,
        10,
        b"run 0 0 0\nend 0 31 1022\nrun 31 1 0\nblock 1 2 0 16 1022\nrun 47 2 0\nblock 2 2 0 16 1022\nevent 100 arrive 0\nrun 100 1 2\nblock 1 3 1 11 1022\nrun 111 1 3\nblock 1 4 2 5 1022\nevent 150 data 0 7\nrun 150 1 4\nout 1 107\nblock 1 2 0 30 1022\nevent 200 arrive 1\nrun 200 2 2\nblock 2 3 1 11 1022\nevent 211 arrive 2\nrun 211 2 3\nblock 2 4 2 5 1022\nrun 216 1 2\nblock 1 3 1 11 1022\nedge 0 1 1 7936 256 0\nedge 0 2 2 4096 0 0\nedge 2 3 3 2816 0 0\nedge 3 4 2 1280 0 256\nedge 4 2 1 7680 0 -256\nstop idle\n",
    ),
    (
        53,
        63,
        4,
        b"run 0 0 0\nend 0 31 1022\nrun 31 1 0\nblock 1 2 0 16 1022\nrun 47 2 0\nblock 2 2 0 16 1022\nevent 100 arrive 0\nrun 100 1 2\nblock 1 3 1 11 1022\nrun 111 1 3\nblock 1 4 2 5 1022\nevent 150 data 0 7\nrun 150 1 4\nout 1 107\nblock 1 2 0 30 1022\nevent 200 arrive 1\nrun 200 2 2\nblock 2 3 1 11 1022\nevent 211 arrive 2\nedge 0 1 1 7936 256 0\nedge 0 2 2 4096 0 0\nedge 2 3 2 2816 0 0\nedge 3 4 1 1280 0 256\nedge 4 2 1 7680 0 -256\nstop trace 5\n",
    ),
    (
        64,
        65,
        10,
        b"run 0 0 0\nend 0 31 1022\nrun 31 1 0\nblock 1 2 0 16 1022\nrun 47 2 0\nblock 2 2 0 16 1022\nevent 100 arrive 0\nrun 100 1 2\nblock 1 3 1 11 1022\nrun 111 1 3\nblock 1 4 2 5 1022\nevent 150 data 0 7\nrun 150 1 4\nout 1 107\nblock 1 2 0 30 1022\nevent 200 arrive 1\nrun 200 2 2\nblock 2 3 1 11 1022\nevent 211 arrive 2\nrun 211 2 3\nblock 2 4 2 5 1022\nrun 216 1 2\nblock 1 3 1 11 1022\nevent 400 data 1 8\nrun 400 2 4\nout 2 208\nblock 2 2 0 30 1022\nrun 430 1 3\nblock 1 4 2 5 1022\nedge 0 1 1 7936 256 0\nedge 0 2 2 4096 0 0\nedge 2 3 3 2816 0 0\nedge 3 4 3 1280 0 256\nedge 4 2 2 7680 0 -256\nstop idle\n",
    ),
    (
        66,
        76,
        4,
        b"run 0 0 0\nend 0 31 1022\nrun 31 1 0\nblock 1 2 0 16 1022\nrun 47 2 0\nblock 2 2 0 16 1022\nevent 100 arrive 0\nrun 100 1 2\nblock 1 3 1 11 1022\nrun 111 1 3\nblock 1 4 2 5 1022\nevent 150 data 0 7\nrun 150 1 4\nout 1 107\nblock 1 2 0 30 1022\nevent 200 arrive 1\nrun 200 2 2\nblock 2 3 1 11 1022\nevent 211 arrive 2\nrun 211 2 3\nblock 2 4 2 5 1022\nrun 216 1 2\nblock 1 3 1 11 1022\nevent 400 data 1 8\nedge 0 1 1 7936 256 0\nedge 0 2 2 4096 0 0\nedge 2 3 3 2816 0 0\nedge 3 4 2 1280 0 256\nedge 4 2 1 7680 0 -256\nstop trace 6\n",
    ),
    (77, 78, 10, LOG_OF_SERVER),
];

/// Checks whether a run on the first `cut` bytes of the trace is as the row says.
fn is_cut(alloc: Global, cut: usize, row: &CutRow) -> bool {
    match SERVER_TRACE.get(..cut) {
        Some(trace) => is_row(alloc, &(SERVES, SERVER, trace, row.2, row.3, NONE)),
        None => false,
    }
}

/// Does the same for each cut of a row.
fn are_cut(alloc: Global, row: &CutRow) -> bool {
    for cut in row.0..=row.1 {
        if !is_cut(alloc, cut, row) {
            return false;
        }
    }
    true
}

/// Checks whether each row holds.
fn all_are_cut(alloc: Global, rows: &[CutRow]) -> bool {
    for row in rows {
        if !are_cut(alloc, row) {
            return false;
        }
    }
    true
}

#[test]
fn cut_traces(rt: HostRuntime) {
    assert!(rt; all_are_cut(rt.alloc(), &CUT_TRACES));
}

/// The pool has the one chunk of the first thread, which starts another.
const ONE_CHUNK: [Row<'static>; 1] = [(
    "serve P --chunks 1",
    b"void w(int n) { } int main() { spawn(w, 1); return 0; }",
    NONE,
    12,
    b"run 0 0 0\nstop nochunk 0 11 0\n",
    NONE,
)];

#[test]
fn a_pool_of_one_chunk(rt: HostRuntime) {
    assert!(rt; all_hold(rt.alloc(), &ONE_CHUNK));
}

/// Twenty thousand threads that wait forever.
const CROWD: &[u8] =
    b"void w(int n) { int v; v = wait(n); } int main() { int i; for (i = 0; i < 20000; i = i + 1) spawn(w, 0); return 0; }";

const FIRST_LINES: &[u8] = b"run 0 0 0\nend 0 660031 1\n";

const LAST_LINES: &[u8] = b"\nedge 0 1 1 168967936 5119744\nedge 0 2 20000 2816 0\nstop idle\n";

/// Checks whether a call of these words ends as idle, with the log's first and last lines.
fn waits(alloc: Global, words: &Vec<String>, shelf: &mut CleanShelf) -> bool {
    let mut trace = CleanSource::new(Vec::new(alloc));
    let mut out = CleanSink::new(alloc);
    let mut err = CleanSink::new(alloc);
    let mut last = None;
    let status = status_of(
        alloc, words, shelf, &mut trace, &mut out, &mut err, &mut last,
    );
    let is_so = status == 10
        && err.bytes() == NONE
        && out.bytes().starts_with(FIRST_LINES)
        && out.bytes().ends_with(LAST_LINES);
    drop(last);
    drop(err);
    drop(out);
    drop(trace);
    is_so
}

/// Does the same with the words that give each thread a chunk of 64 bytes.
fn serves_crowd(alloc: Global, shelf: &mut CleanShelf) -> Result<bool, AllocError> {
    let words = words_of(alloc, "serve P --chunk 64 --chunks 20001")?;
    let is_so = waits(alloc, &words, shelf);
    drop(words);
    Ok(is_so)
}

/// Does the same for a shelf that has only the source.
fn crowd_is_served(alloc: Global) -> Result<bool, AllocError> {
    let mut shelf = CleanShelf::new(alloc, files_of(alloc, &[("P", CROWD)])?);
    let is_so = serves_crowd(alloc, &mut shelf);
    drop(shelf);
    is_so
}

#[test]
fn twenty_thousand_threads(rt: HostRuntime) {
    assert!(rt; matches!(crowd_is_served(rt.alloc()), Ok(true)));
}
