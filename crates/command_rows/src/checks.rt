// The commands `check` and `budget`.
use crate::calls::{Given, NO_FAULT, NONE, Wanted, is_so};
use crate::images::{CUT_IMAGE, IMAGE_OF_LINKED, IMAGE_OF_SEVEN, IMAGE_OF_TWO, LONG_IMAGE};
use std::alloc::Global;

pub(crate) const PUT_SEVEN: &[u8] = b"int main() { put(7); return 0; }";

pub(crate) const CERTIFICATE_OF_SEVEN: &[u8] =
    b"capriccio certificate 1\nchunk 4096\nmax-path 2032\nfunctions 1\nfunction 4104 22 16 12 16 0\nsites 0\n";

/// A program of two functions.
pub(crate) const TWO: &[u8] =
    b"int g(int x) { return x; } int main() { int a; int b; a = g(1); return a; }";

const CHECK: &str = "check P I C";

const BUDGET: &str = "budget P I C";

/// The words, the source, image and certificate that they name, the status, the output, and the line on standard error.
type CheckRow<'a> = (
    &'a str,
    &'a [u8],
    &'a [u8],
    &'a [u8],
    u8,
    &'a [u8],
    &'a [u8],
);

const CHECKS: [CheckRow<'static>; 9] = [
    (
        CHECK,
        PUT_SEVEN,
        IMAGE_OF_SEVEN,
        CERTIFICATE_OF_SEVEN,
        0,
        b"accepted\n",
        NONE,
    ),
    (
        CHECK,
        TWO,
        IMAGE_OF_LINKED,
        b"capriccio certificate 1\nchunk 64\nmax-path 32\nfunctions 2\nfunction 4104 16 16 12 16 0 4\nfunction 4168 37 16 12 16 0 4 8\nsites 1\nsite 0 linked 16\n",
        0,
        b"accepted\n",
        NONE,
    ),
    (
        CHECK,
        TWO,
        IMAGE_OF_LINKED,
        b"capriccio certificate 1\nchunk 64\nmax-path 32\nmax-path 32\nfunctions 2\nfunction 4104 16 16 12 16 0 4\nfunction 4168 37 16 12 16 0 4 8\nsites 1\nsite 0 linked 16\n",
        4,
        NONE,
        b"certificate: Line 4\n",
    ),
    (
        CHECK,
        TWO,
        IMAGE_OF_TWO,
        b"capriccio certificate 1\nchunk 64\nmax-path 32\nfunctions 2\nfunction 4104 16 16 12 16 0 4\nfunction 4168 27 16 12 16 0 4 8\nsites 1\nsite 0 plain\n",
        3,
        b"rejected V10 function 1 index 0\n",
        NONE,
    ),
    (
        CHECK,
        TWO,
        IMAGE_OF_TWO,
        b"capriccio certificate 1\nchunk 64\nmax-path 32\nfunctions 2\nfunction 4104 16 16 12 0 0 4\nfunction 4168 27 16 12 32 0 4 8\nsites 1\nsite 0 plain\n",
        3,
        b"rejected V11 function 0 index 1\n",
        NONE,
    ),
    (
        CHECK,
        PUT_SEVEN,
        CUT_IMAGE,
        CERTIFICATE_OF_SEVEN,
        4,
        NONE,
        b"image: Short at 10\n",
    ),
    (
        CHECK,
        PUT_SEVEN,
        LONG_IMAGE,
        CERTIFICATE_OF_SEVEN,
        4,
        NONE,
        b"image: Long at 120\n",
    ),
    (
        CHECK,
        PUT_SEVEN,
        IMAGE_OF_SEVEN,
        b"capriccio certificate 1\nchunk 4096\nmax-path 2032\nmax-path 2032\nfunctions 1\nfunction 4104 22 16 12 16 0\nsites 0\n",
        4,
        NONE,
        b"certificate: Line 4\n",
    ),
    (
        CHECK,
        b"int main() { return; }",
        CUT_IMAGE,
        NONE,
        2,
        NONE,
        b"source: Kind at 13\n",
    ),
];

const BUDGETS: [CheckRow<'static>; 4] = [
    (
        BUDGET,
        TWO,
        IMAGE_OF_LINKED,
        b"capriccio certificate 1\nchunk 64\nmax-path 32\nfunctions 2\nfunction 4104 16 16 12 16 0 4\nfunction 4168 37 16 12 16 0 4 8\nsites 1\nsite 0 linked 16\n",
        0,
        b"chunks 2\nheight 0 0\nheight 1 1\n",
        NONE,
    ),
    (
        BUDGET,
        PUT_SEVEN,
        IMAGE_OF_SEVEN,
        CERTIFICATE_OF_SEVEN,
        0,
        b"chunks 1\nheight 0 0\n",
        NONE,
    ),
    (
        BUDGET,
        TWO,
        IMAGE_OF_TWO,
        b"capriccio certificate 1\nchunk 64\nmax-path 32\nfunctions 2\nfunction 4104 16 16 12 16 0 4\nfunction 4168 27 16 12 16 0 4 8\nsites 1\nsite 0 plain\n",
        3,
        NONE,
        b"check: rejected V10 function 1 index 0\n",
    ),
    (
        BUDGET,
        PUT_SEVEN,
        CUT_IMAGE,
        CERTIFICATE_OF_SEVEN,
        4,
        NONE,
        b"image: Short at 10\n",
    ),
];

/// Checks whether the command gives this answer on a source, an image and a certificate.
fn is_checked(alloc: Global, row: &CheckRow) -> bool {
    let (words, source, image, certificate, status, out, err) = *row;
    let given = Given {
        words,
        files: &[("P", source), ("I", image), ("C", certificate)],
        trace: NONE,
        fails: NO_FAULT,
        stored: 0,
        taken: 10_000,
    };
    let wanted = Wanted {
        status,
        out,
        most: None,
        err,
        files: &[],
    };
    is_so(alloc, &given, &wanted)
}

/// Checks whether each row holds.
fn all_are_checked(alloc: Global, rows: &[CheckRow]) -> bool {
    for row in rows {
        if !is_checked(alloc, row) {
            return false;
        }
    }
    true
}

#[test]
fn checks(rt: HostRuntime) {
    assert!(rt; all_are_checked(rt.alloc(), &CHECKS));
}

#[test]
fn budgets(rt: HostRuntime) {
    assert!(rt; all_are_checked(rt.alloc(), &BUDGETS));
}
