// The command `build`, and the files after a refusal.
use crate::calls::{Given, NO_FAULT, NONE, Wanted, is_so};
use crate::checks::{CERTIFICATE_OF_SEVEN, PUT_SEVEN, TWO};
use crate::images::{IMAGE_OF_SEVEN, IMAGE_OF_TWO};
use std::alloc::Global;

const CERTIFICATE_OF_TWO: &[u8] =
    b"capriccio certificate 1\nchunk 64\nmax-path 32\nfunctions 2\nfunction 4104 16 16 12 16 0 4\nfunction 4168 27 16 12 32 0 4 8\nsites 1\nsite 0 plain\n";

/// The contents of I and C before.
pub(crate) const OLD: &[u8] = b"old";

/// The name of a file and its contents.
type Held<'a> = (&'a str, &'a [u8]);

/// Words, the files before, the status, the output, the line on standard error, and the files after.
type BuildRow<'a> = (
    &'a str,
    &'a [Held<'a>],
    u8,
    &'a [u8],
    &'a [u8],
    &'a [Held<'a>],
);

const SMALL: &str = "build P I C --chunk 64 --max-path 32";

// A build that is refused leaves the files unchanged.
const BUILDS: [BuildRow<'static>; 7] = [
    (
        "build P I C",
        &[("P", PUT_SEVEN), ("I", OLD), ("C", OLD)],
        0,
        b"built code 24 globals 0 tables 0\n",
        NONE,
        &[("I", IMAGE_OF_SEVEN), ("C", CERTIFICATE_OF_SEVEN)],
    ),
    (
        "build --chunk 64 P I --max-path 32 C",
        &[("P", TWO), ("I", OLD), ("C", OLD)],
        0,
        b"built code 45 globals 0 tables 0\n",
        NONE,
        &[("I", IMAGE_OF_TWO), ("C", CERTIFICATE_OF_TWO)],
    ),
    // Two equal names leave the certificate.
    (
        "build P C C",
        &[("P", PUT_SEVEN), ("I", OLD), ("C", OLD)],
        0,
        b"built code 24 globals 0 tables 0\n",
        NONE,
        &[("I", OLD), ("C", CERTIFICATE_OF_SEVEN)],
    ),
    (
        SMALL,
        &[
            ("P", b"int main() { int a[10]; return 0; }"),
            ("I", OLD),
            ("C", OLD),
        ],
        5,
        NONE,
        b"limit: frame of main is 48 bytes\n",
        &[("I", OLD), ("C", OLD)],
    ),
    (
        SMALL,
        &[("P", b"int main() { return; }"), ("I", OLD), ("C", OLD)],
        2,
        NONE,
        b"source: Kind at 13\n",
        &[("I", OLD), ("C", OLD)],
    ),
    (
        "build Q I C",
        &[("P", TWO), ("I", OLD), ("C", OLD)],
        9,
        NONE,
        b"absent: source\n",
        &[("I", OLD), ("C", OLD)],
    ),
    (
        "build P I",
        &[("P", TWO), ("I", OLD), ("C", OLD)],
        1,
        NONE,
        b"usage: capriccio serve SRC, run SRC IMG CRT, build SRC IMG CRT, check SRC IMG CRT, graph SRC, demo N, audit SRC LOG, budget SRC IMG CRT\n",
        &[("I", OLD), ("C", OLD)],
    ),
];

/// Checks whether the words have this result.
fn is_built(alloc: Global, row: &BuildRow) -> bool {
    let (words, files, status, out, err, left) = *row;
    let given = Given {
        words,
        files,
        trace: NONE,
        fails: NO_FAULT,
        stored: 0,
        taken: 10_000,
    };
    let wanted = Wanted {
        status,
        out,
        most: None,
        err,
        files: left,
    };
    is_so(alloc, &given, &wanted)
}

/// Checks whether each row holds.
fn all_are_built(alloc: Global, rows: &[BuildRow]) -> bool {
    for row in rows {
        if !is_built(alloc, row) {
            return false;
        }
    }
    true
}

#[test]
fn builds(rt: HostRuntime) {
    assert!(rt; all_are_built(rt.alloc(), &BUILDS));
}
