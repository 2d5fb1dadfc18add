// The server's run with each read of the trace and each write of the log failing in turn.

use crate::run_rows::ONE_UNIT;
use crate::runs::{Given, Share, ends};
use crate::serving::{LOG_OF_SERVER, SERVER, SERVER_TRACE};
use runner::RunEnd;
use std::alloc::Global;

// Checks whether the server's run ends in this way and writes this share of its log, with this failing read and this
// failing write, 0 for none, and this number of bytes a call.
fn serves(alloc: Global, read: u64, write: u64, bytes: u32, end: RunEnd, share: Share) -> bool {
    let given = Given {
        source: SERVER,
        setup: ONE_UNIT,
        trace: SERVER_TRACE,
        read,
        write,
        bytes,
    };
    ends(alloc, &given, end, share, LOG_OF_SERVER)
}

/// The first and the last call that fails, the number of bytes a call, the end of the run, and the share of the log
/// that is written.
type Row = (u64, u64, u32, RunEnd, Share);

// A run ends with the failure, and what was written is a prefix of the log; if there is no such read or write, the run
// succeeds. The log has 632 bytes, which are buffered up to its end: if a read fails, none of them has been written.
//
// The trace has 78 bytes, which are read one by one, followed by one read of its end. In blocks of at most 64 bytes
// they are two reads, followed by the end. The last four have no failing read: the trace returns its bytes one by one,
// by two, by three and all at once, and the log is the same.
const READS: [Row; 8] = [
    (1, 79, 1, RunEnd::ReadFault, Share::Nothing),
    (80, 80, 1, RunEnd::Idle, Share::Whole),
    (1, 3, 64, RunEnd::ReadFault, Share::Nothing),
    (4, 4, 64, RunEnd::Idle, Share::Whole),
    (0, 0, 1, RunEnd::Idle, Share::Whole),
    (0, 0, 2, RunEnd::Idle, Share::Whole),
    (0, 0, 3, RunEnd::Idle, Share::Whole),
    (0, 0, 100, RunEnd::Idle, Share::Whole),
];

// At the stop the log is written in ten pieces of at most 64.
const WRITES: [Row; 3] = [
    (1, 1, 64, RunEnd::WriteFault, Share::Nothing),
    (2, 10, 64, RunEnd::WriteFault, Share::Beginning),
    (11, 11, 64, RunEnd::Idle, Share::Whole),
];

/// Which calls fail.
#[derive(Clone, Copy)]
enum Failing {
    Reads,
    Writes,
}

fn serves_where(alloc: Global, failing: Failing, call: u64, row: &Row) -> bool {
    match failing {
        Failing::Reads => serves(alloc, call, 0, row.2, row.3, row.4),
        Failing::Writes => serves(alloc, 0, call, row.2, row.3, row.4),
    }
}

fn is_row(alloc: Global, failing: Failing, row: &Row) -> bool {
    for call in row.0..=row.1 {
        if !serves_where(alloc, failing, call, row) {
            return false;
        }
    }
    true
}

fn all_hold(alloc: Global, failing: Failing, rows: &[Row]) -> bool {
    for row in rows {
        if !is_row(alloc, failing, row) {
            return false;
        }
    }
    true
}

#[test]
fn each_read_and_each_write_fails(rt: HostRuntime) {
    let alloc = rt.alloc();
    assert!(rt;
        all_hold(alloc, Failing::Reads, &READS) && all_hold(alloc, Failing::Writes, &WRITES)
    );
}
