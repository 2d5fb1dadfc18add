// The outcome of a source, and the recursions that several tests run.

ghost use Rattle.codegen_link.specs.Plans.{AreInRange};

use crate::{Outcome, accepted_of, begin, run_on};
use accepted_pairs::Accepted;
use codegen_link::Options;
use std::alloc::Global;

/// A recursion of 100 calls, which puts 100.
pub(crate) const DEEP: &[u8] =
    b"int f(int n) { int r; if (n < 1) return 0; r = f(n - 1); return r + 1; } int main() { int r; r = f(100); put(r); return 0; }";

/// A recursion of one call, which puts 1.
pub(crate) const ONCE: &[u8] =
    b"int f(int n) { int r; if (n < 1) return 0; r = f(n - 1); return r + 1; } int main() { int r; r = f(1); put(r); return 0; }";

/// The smallest chunks, 100 of which are linked for the deep recursion.
pub(crate) const NARROW: Options = Options {
    chunk: 64,
    max_path: 48,
};

/// The fuel of a case.
pub(crate) const FUEL: u64 = 10_000;

/// Returns the remaining fuel after `retired` instructions have retired.
pub(crate) fn left_after(retired: u64) -> u64 {
    FUEL.saturating_sub(retired)
}

/// Checks whether a source has exactly this outcome, with paths and chunks of these sizes, over this number of chunks.
pub(crate) fn comes_to(
    alloc: Global,
    source: &[u8],
    options: Options,
    chunks: u32,
    want: Outcome,
) -> bool
    requires { AreInRange options }
{
    match accepted_of(alloc, source, options) {
        Some(accepted) => {
            let is_so = leads_to(alloc, &accepted, chunks, FUEL, want);
            drop(accepted);
            is_so
        }
        None => false,
    }
}

/// Checks whether a program's `main` has exactly this outcome, over this number of chunks and with this fuel.
pub(crate) fn leads_to(
    alloc: Global,
    accepted: &Accepted,
    chunks: u32,
    left: u64,
    want: Outcome,
) -> bool {
    match begin(alloc, accepted, chunks) {
        Ok(Some(begun)) => run_on(accepted, begun, left) == want,
        Ok(None) | Err(_) => false,
    }
}
