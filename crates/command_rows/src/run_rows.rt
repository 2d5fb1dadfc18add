// Rows of whole runs: a source, its setup, its trace, the end of its run, and its log.

use crate::building::Setup;
use crate::checks::PUT_SEVEN;
use crate::logs::{ENDLESS_LOG, FALLING_LOG, FALLING_TRACE, LITTLE_FUEL_LOG};
use crate::runs::{Given, Share, ends};
use crate::serving::{ENDLESS, LOG_OF_SERVER, LOG_OF_SEVEN, SERVER, SERVER_TRACE};
use cap_word::ThreadId;
use runner::RunEnd;
use std::alloc::Global;

/// A source, its setup, its trace, the end of its run, and its log.
type Row = (&'static [u8], Setup, &'static [u8], RunEnd, &'static [u8]);

const MAIN: ThreadId = ThreadId { slot: 0, number: 0 };

/// The default options.
const USUAL: Setup = Setup {
    chunk: 4096,
    max_path: 2032,
    chunks: 1024,
    fuel: 10_000_000,
    backlog: 64,
    cap: 0,
};

/// One unit of resource 1.
pub(crate) const ONE_UNIT: Setup = Setup {
    chunk: 4096,
    max_path: 2032,
    chunks: 1024,
    fuel: 10_000_000,
    backlog: 64,
    cap: 1,
};

/// One place in each queue.
const ONE_PLACE: Setup = Setup {
    chunk: 4096,
    max_path: 2032,
    chunks: 1024,
    fuel: 10_000_000,
    backlog: 1,
    cap: 0,
};

const LITTLE_FUEL: Setup = Setup {
    chunk: 4096,
    max_path: 2032,
    chunks: 1024,
    fuel: 16,
    backlog: 64,
    cap: 0,
};

const TWO_CHUNKS: Setup = Setup {
    chunk: 64,
    max_path: 48,
    chunks: 2,
    fuel: 10_000_000,
    backlog: 64,
    cap: 0,
};

// One row for each way in which a run ends here: the trace ends while threads wait; a line of it is refused; every
// thread has ended before a refused line; no fuel; no chunk. The rows of the program's call (`serving.rt`) have whole
// runs of many sources; here the answer of `run` is tested, which distinguishes two causes with the same text.
const ROWS: [Row; 5] = [
    (SERVER, ONE_UNIT, SERVER_TRACE, RunEnd::Idle, LOG_OF_SERVER),
    (
        SERVER,
        ONE_PLACE,
        FALLING_TRACE,
        RunEnd::BadTrace { line: 5 },
        FALLING_LOG,
    ),
    (
        PUT_SEVEN,
        USUAL,
        b"arrive 1000 1\narrive x 1\n",
        RunEnd::Done,
        LOG_OF_SEVEN,
    ),
    (
        PUT_SEVEN,
        LITTLE_FUEL,
        b"",
        RunEnd::Fuel { thread: MAIN },
        LITTLE_FUEL_LOG,
    ),
    (
        ENDLESS,
        TWO_CHUNKS,
        b"",
        RunEnd::NoChunk { thread: MAIN },
        ENDLESS_LOG,
    ),
];

// Checks whether a run ends in this way, with that log.
fn holds(alloc: Global, row: &Row) -> bool {
    let (source, setup, trace, end, log) = *row;
    let given = Given {
        source,
        setup,
        trace,
        read: 0,
        write: 0,
        bytes: 16,
    };
    ends(alloc, &given, end, Share::Whole, log)
}

fn all_hold(alloc: Global, rows: &[Row]) -> bool {
    for row in rows {
        if !holds(alloc, row) {
            return false;
        }
    }
    true
}

#[test]
fn runs(rt: HostRuntime) {
    assert!(rt; all_hold(rt.alloc(), &ROWS));
}
