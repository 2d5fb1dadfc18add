// Objects that fail: the results of `serve`, `check` and `build` of `put(7)`.
use crate::builds::OLD;
use crate::calls::{Fails, Given, NONE, Wanted, is_so};
use crate::checks::{CERTIFICATE_OF_SEVEN, PUT_SEVEN};
use crate::images::{IMAGE_OF_SEVEN, PART_OF_IMAGE};
use crate::serving::LOG_OF_SEVEN;
use std::alloc::Global;

pub(crate) const READ: &[u8] = b"fault: read\n";

pub(crate) const WRITE: &[u8] = b"fault: write\n";

/// The calls that fail, the status, the maximum number of bytes of the output, and the line on standard error.
type ServingRow = (Fails, u8, usize, &'static [u8]);

// The output took a prefix of the log, and all of it only if nothing failed.
const SERVING: [ServingRow; 8] = [
    ([0, 0, 0, 0], 0, 63, NONE),
    ([1, 0, 0, 0], 6, 0, READ),
    ([0, 1, 0, 0], 6, 0, READ),
    ([0, 0, 1, 0], 7, 0, WRITE),
    ([0, 0, 2, 0], 7, 62, WRITE),
    ([0, 0, 3, 0], 7, 62, WRITE),
    ([0, 0, 6, 0], 7, 62, WRITE),
    ([0, 0, 1, 1], 7, 0, NONE),
];

/// Checks whether `serve` returns and writes this with these failing calls. The output takes 10 bytes a call.
fn is_served(alloc: Global, row: &ServingRow) -> bool {
    let (fails, status, most, err) = *row;
    let given = Given {
        words: "serve P",
        files: &[("P", PUT_SEVEN)],
        trace: NONE,
        fails,
        stored: 0,
        taken: 10,
    };
    let wanted = Wanted {
        status,
        out: LOG_OF_SEVEN,
        most: Some(most),
        err,
        files: &[],
    };
    is_so(alloc, &given, &wanted)
}

/// Checks whether each row holds.
fn all_are_served(alloc: Global, rows: &[ServingRow]) -> bool {
    for row in rows {
        if !is_served(alloc, row) {
            return false;
        }
    }
    true
}

#[test]
fn failing_objects(rt: HostRuntime) {
    assert!(rt; all_are_served(rt.alloc(), &SERVING));
}

/// The load and the write to the output that fail, the status, the output, and the line on standard error.
type CheckRow = (u64, u64, u8, &'static [u8], &'static [u8]);

const CHECKS: [CheckRow; 6] = [
    (1, 0, 6, NONE, READ),
    (2, 0, 6, NONE, READ),
    (3, 0, 6, NONE, READ),
    (0, 1, 7, NONE, WRITE),
    (0, 2, 7, b"acce", WRITE),
    (4, 0, 0, b"accepted\n", NONE),
];

/// Checks whether `check` returns and writes this with that failing load or write. The output takes 4 bytes a call.
fn is_checked(alloc: Global, row: &CheckRow) -> bool {
    let (load, write, status, out, err) = *row;
    let given = Given {
        words: "check P I C",
        files: &[
            ("P", PUT_SEVEN),
            ("I", IMAGE_OF_SEVEN),
            ("C", CERTIFICATE_OF_SEVEN),
        ],
        trace: NONE,
        fails: [load, 0, write, 0],
        stored: 0,
        taken: 4,
    };
    let wanted = Wanted {
        status,
        out,
        most: None,
        err,
        files: &[],
    };
    is_so(alloc, &given, &wanted)
}

/// Checks whether each row holds.
fn all_are_checked(alloc: Global, rows: &[CheckRow]) -> bool {
    for row in rows {
        if !is_checked(alloc, row) {
            return false;
        }
    }
    true
}

#[test]
fn failing_checks(rt: HostRuntime) {
    assert!(rt; all_are_checked(rt.alloc(), &CHECKS));
}

/// The call of the shelf that fails and the bytes that it writes, the write that fails, and the status, output, line,
/// image and certificate then.
type BuildRow<'a> = (u64, u32, u64, u8, &'a [u8], &'a [u8], &'a [u8], &'a [u8]);

const BUILDS: [BuildRow<'static>; 6] = [
    (1, 0, 0, 6, NONE, READ, OLD, OLD),
    (2, 0, 0, 7, NONE, WRITE, NONE, OLD),
    (2, 50, 0, 7, NONE, WRITE, PART_OF_IMAGE, OLD),
    (2, 120, 0, 7, NONE, WRITE, IMAGE_OF_SEVEN, OLD),
    (
        0,
        0,
        1,
        7,
        NONE,
        WRITE,
        IMAGE_OF_SEVEN,
        CERTIFICATE_OF_SEVEN,
    ),
    (
        0,
        0,
        2,
        7,
        b"buil",
        WRITE,
        IMAGE_OF_SEVEN,
        CERTIFICATE_OF_SEVEN,
    ),
];

/// Checks whether `build` has this result with that failing call of the shelf or write. The output takes 4 bytes a
/// call.
fn is_built(alloc: Global, row: &BuildRow) -> bool {
    let (call, stored, write, status, out, err, image, certificate) = *row;
    let given = Given {
        words: "build P I C",
        files: &[("P", PUT_SEVEN), ("I", OLD), ("C", OLD)],
        trace: NONE,
        fails: [call, 0, write, 0],
        stored,
        taken: 4,
    };
    let wanted = Wanted {
        status,
        out,
        most: None,
        err,
        files: &[("I", image), ("C", certificate)],
    };
    is_so(alloc, &given, &wanted)
}

/// Checks whether each row holds.
fn all_are_built(alloc: Global, rows: &[BuildRow]) -> bool {
    for row in rows {
        if !is_built(alloc, row) {
            return false;
        }
    }
    true
}

#[test]
fn failing_builds(rt: HostRuntime) {
    assert!(rt; all_are_built(rt.alloc(), &BUILDS));
}

/// Checks whether `build` leaves this number of bytes of the certificate if its store fails after them.
fn is_cut(alloc: Global, stored: u32) -> bool {
    match CERTIFICATE_OF_SEVEN.get(..stored as usize) {
        Some(part) => is_built(alloc, &(3, stored, 0, 7, NONE, WRITE, IMAGE_OF_SEVEN, part)),
        None => false,
    }
}

/// Does the same after each of its bytes.
fn all_are_cut(alloc: Global) -> bool {
    for stored in 0..CERTIFICATE_OF_SEVEN.len() + 1 {
        if !is_cut(alloc, stored as u32) {
            return false;
        }
    }
    true
}

#[test]
fn cut_certificates(rt: HostRuntime) {
    assert!(rt; all_are_cut(rt.alloc()));
}
