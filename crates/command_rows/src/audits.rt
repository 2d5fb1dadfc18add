// The command `audit`.
use crate::calls::{Fails, Given, NO_FAULT, NONE, Row, Wanted, all_hold, is_so};
use crate::checks::PUT_SEVEN;
use crate::example_rows::{
    BOUNDED, LIMITER, LOG_OF_BOUNDED, LOG_OF_LIMITER, LOG_OF_PIECES, LOG_OF_POOL, LOG_OF_RECURSION,
    LOG_OF_STORE, LOG_OF_TIMERS, PIECES, POOL, RECURSION, STORE, TIMERS, TRACE_OF_BOUNDED,
    TRACE_OF_LIMITER, TRACE_OF_PIECES, TRACE_OF_POOL, TRACE_OF_RECURSION, TRACE_OF_STORE,
    TRACE_OF_TIMERS,
};
use crate::logs::ENDLESS_LOG;
use crate::serving::{ENDLESS, LOG_OF_SERVER, LOG_OF_SEVEN, SERVER, SERVER_TRACE};
use std::alloc::Global;

const AUDIT: &str = "audit P L";

const AUDIT_OF_SERVER: &str = "audit P L --caps 1=1";

/// The words, the source and the log that they name, the trace, the status, and the output.
type AuditRow<'a> = (&'a str, &'a [u8], &'a [u8], &'a [u8], u8, &'a [u8]);

const AUDITS: [AuditRow<'static>; 9] = [
    (AUDIT, PUT_SEVEN, LOG_OF_SEVEN, NONE, 0, b"lawful\n"),
    (
        AUDIT_OF_SERVER,
        SERVER,
        LOG_OF_SERVER,
        SERVER_TRACE,
        0,
        b"lawful\n",
    ),
    // Another number is put than by the source.
    (
        AUDIT_OF_SERVER,
        SERVER,
        b"run 0 0 0\nend 0 31 1022\nrun 31 1 0\nblock 1 2 0 16 1022\nrun 47 2 0\nblock 2 2 0 16 1022\nevent 100 arrive 0\nrun 100 1 2\nblock 1 3 1 11 1022\nrun 111 1 3\nblock 1 4 2 5 1022\nevent 150 data 0 7\nrun 150 1 4\nout 1 106\n",
        SERVER_TRACE,
        15,
        b"unlawful 14\n",
    ),
    // A thread is chosen that waits at a node from which a thread was taken later.
    (
        AUDIT_OF_SERVER,
        SERVER,
        b"run 0 0 0\nend 0 31 1022\nrun 31 1 0\nblock 1 2 0 16 1022\nrun 47 2 0\nblock 2 2 0 16 1022\nevent 100 arrive 0\nrun 100 1 2\nblock 1 3 1 11 1022\nrun 111 1 3\nblock 1 4 2 5 1022\nevent 150 data 0 7\nrun 150 1 4\nout 1 107\nblock 1 2 0 30 1022\nevent 200 arrive 1\nrun 200 2 2\nblock 2 3 1 11 1022\nevent 211 arrive 2\nrun 211 1 2\n",
        SERVER_TRACE,
        15,
        b"unlawful 20\n",
    ),
    // Another cost is possible, but the clock depends on it.
    (
        AUDIT_OF_SERVER,
        SERVER,
        b"run 0 0 0\nend 0 31 1022\nrun 31 1 0\nblock 1 2 0 16 1022\nrun 47 2 0\nblock 2 2 0 16 1022\nevent 100 arrive 0\nrun 100 1 2\nblock 1 3 1 12 1022\nrun 111 1 3\n",
        SERVER_TRACE,
        15,
        b"unlawful 10\n",
    ),
    (
        "audit P L --steps 0",
        PUT_SEVEN,
        LOG_OF_SEVEN,
        NONE,
        16,
        b"steps 2\n",
    ),
    // A run that stops because no free chunk fits, which the source alone doesn't do.
    (
        "audit P L --chunks 2",
        ENDLESS,
        ENDLESS_LOG,
        NONE,
        0,
        b"lawful\n",
    ),
    (AUDIT, PUT_SEVEN, NONE, NONE, 15, b"unlawful 1\n"),
    // The last line has no line feed.
    (
        AUDIT,
        PUT_SEVEN,
        b"run 0 0 0\nout 0 7",
        NONE,
        15,
        b"unlawful 2\n",
    ),
];

/// The logs of servers of examples/.
const EXAMPLES: [AuditRow<'static>; 5] = [
    (AUDIT, POOL, LOG_OF_POOL, TRACE_OF_POOL, 0, b"lawful\n"),
    (
        AUDIT,
        PIECES,
        LOG_OF_PIECES,
        TRACE_OF_PIECES,
        0,
        b"lawful\n",
    ),
    (
        "audit P L --caps 1=10",
        BOUNDED,
        LOG_OF_BOUNDED,
        TRACE_OF_BOUNDED,
        0,
        b"lawful\n",
    ),
    (
        "audit P L --chunks 256",
        RECURSION,
        LOG_OF_RECURSION,
        TRACE_OF_RECURSION,
        0,
        b"lawful\n",
    ),
    (
        AUDIT,
        TIMERS,
        LOG_OF_TIMERS,
        TRACE_OF_TIMERS,
        0,
        b"lawful\n",
    ),
];

const EXAMPLES_OF_SERVERS: [AuditRow<'static>; 2] = [
    (AUDIT, STORE, LOG_OF_STORE, TRACE_OF_STORE, 0, b"lawful\n"),
    (
        "audit P L --caps 1=2",
        LIMITER,
        LOG_OF_LIMITER,
        TRACE_OF_LIMITER,
        0,
        b"lawful\n",
    ),
];

const REFUSED: [Row<'static>; 2] = [
    (AUDIT, PUT_SEVEN, NONE, 9, NONE, b"absent: log\n"),
    // Both files are loaded before either of them is read.
    (AUDIT, NONE, NONE, 9, NONE, b"absent: log\n"),
];

/// Checks whether the command gives this answer on a log of a source, with these failing calls and this line on
/// standard error.
fn is_audited(alloc: Global, row: &AuditRow, fails: Fails, err: &[u8]) -> bool {
    let (words, source, log, trace, status, out) = *row;
    let given = Given {
        words,
        files: &[("P", source), ("L", log)],
        trace,
        fails,
        stored: 0,
        taken: 10_000,
    };
    let wanted = Wanted {
        status,
        out,
        most: None,
        err,
        files: &[],
    };
    is_so(alloc, &given, &wanted)
}

/// Checks whether each row holds.
fn all_are_audited(alloc: Global, rows: &[AuditRow]) -> bool {
    for row in rows {
        if !is_audited(alloc, row, NO_FAULT, NONE) {
            return false;
        }
    }
    true
}

#[test]
fn audits(rt: HostRuntime) {
    assert!(rt; all_are_audited(rt.alloc(), &AUDITS));
}

#[test]
fn logs_of_examples_are_lawful(rt: HostRuntime) {
    assert!(rt; all_are_audited(rt.alloc(), &EXAMPLES));
}

#[test]
fn logs_of_servers_are_lawful(rt: HostRuntime) {
    assert!(rt; all_are_audited(rt.alloc(), &EXAMPLES_OF_SERVERS));
}

#[test]
fn logs_that_are_not_loaded(rt: HostRuntime) {
    assert!(rt; all_hold(rt.alloc(), &REFUSED));
}

/// The trace fails at its first read.
#[test]
fn a_trace_that_fails(rt: HostRuntime) {
    let row: AuditRow = (AUDIT, PUT_SEVEN, LOG_OF_SEVEN, NONE, 6, NONE);
    assert!(rt; is_audited(rt.alloc(), &row, [0, 1, 0, 0], b"fault: read\n"));
}
