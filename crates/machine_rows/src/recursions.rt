// Recursions over chunks of 64 bytes.

use crate::Outcome;
use crate::cases::{DEEP, NARROW, comes_to, left_after};
use cap_word::{Ask, Block, SiteKey};
use segment_run::Segment;
use std::alloc::Global;

const BLOCKED: &[u8] =
    b"int h(int n) { int r; if (n < 1) { yield(); return 0; } r = h(n - 1); return r; } int main() { int r; r = h(9); return r; }";

// A recursion 100 deep links 100 chunks and puts its result; 5,149 instructions retire, and all chunks are free again.
fn a_deep_one(alloc: Global) -> bool {
    let want = Outcome {
        first: Some(Segment::Asks {
            ask: Ask::Put { value: 100 },
        }),
        last: Some(Segment::Ends),
        sum: 100,
        key: None,
        left: left_after(5149),
        free: 128,
    };
    comes_to(alloc, DEEP, NARROW, 128, want)
}

// A recursion that blocks at its bottom, ten frames deep: its key extends over eight chunks, and 344 instructions
// retire, including the call.
fn a_key_across_chunks(alloc: Global) -> bool {
    let blocks = Segment::Blocks {
        block: Block::Yield,
    };
    let want = Outcome {
        first: Some(blocks),
        last: Some(blocks),
        sum: 0,
        key: Some(SiteKey::new(&[0, 1, 1, 1, 1, 1, 1, 1])),
        left: left_after(344),
        free: 118,
    };
    comes_to(alloc, BLOCKED, NARROW, 128, want)
}

#[test]
fn recursions(rt: HostRuntime) {
    assert!(rt; a_deep_one(rt.alloc()) && a_key_across_chunks(rt.alloc()));
}
