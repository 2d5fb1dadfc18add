// Each operation of flat code, each modelled call and each trap of a source. The numbers of instructions are sums over
// the templates: `main` without its body takes 11, of which 2 are the end stub, and `put` of a value that is already
// there 3.

use crate::Outcome;
use crate::cases::{ONCE, comes_to, left_after};
use cap_word::{Ask, Block, SiteKey, TrapKind};
use codegen_link::Options;
use segment_run::Segment;
use std::alloc::{AllocError, Global};

// No call is linked.
const WIDE: Options = Options {
    chunk: 128,
    max_path: 112,
};

// An expression, its value, and the number of instructions that put it into a temporary.
const EXPRESSIONS: [(&[u8], u32, u64); 31] = [
    (b"7", 7, 3),
    (b"+7", 7, 3),
    (b"-7", 0xffff_fff9, 6),
    (b"~7", 0xffff_fff8, 6),
    (b"!7", 0, 6),
    (b"!0", 1, 6),
    (b"7 + 3", 10, 10),
    (b"7 - 10", 0xffff_fffd, 10),
    (b"7 * 3", 21, 10),
    (b"-7 / 2", 0xffff_fffd, 13),
    (b"7 / 0", 0xffff_ffff, 10),
    (b"-7 % 2", 0xffff_ffff, 13),
    (b"7 % 0", 7, 10),
    (b"6 & 3", 2, 10),
    (b"6 | 3", 7, 10),
    (b"6 ^ 3", 5, 10),
    (b"3 << 34", 12, 10),
    (b"-8 >> 1", 0xffff_fffc, 13),
    (b"-1 < 3", 1, 13),
    (b"-1 > 3", 0, 13),
    (b"2 <= 2", 1, 11),
    (b"2 >= 3", 0, 11),
    (b"2 == 2", 1, 11),
    (b"2 != 2", 0, 11),
    (b"1 && 2", 1, 14),
    (b"0 && 2", 0, 9),
    (b"1 && 0", 0, 14),
    (b"0 || 2", 1, 15),
    (b"1 || 2", 1, 10),
    (b"1 ? 5 : 6", 5, 9),
    (b"0 ? 5 : 6", 6, 9),
];

// A source that puts one number and ends, the number, and the number of retired instructions.
const PUTS: [(&[u8], u32, u64); 9] = [
    (b"int main() { int x = 5; put(x); return 0; }", 5, 21),
    (b"int main() { int a[3]; put(a[2]); return 0; }", 0, 28),
    (
        b"int main() { int a[3]; a[1] = 9; put(a[1]); return 0; }",
        9,
        42,
    ),
    (b"int g = 4; int main() { put(g); return 0; }", 4, 18),
    (b"int g; int main() { g = 6; put(g); return 0; }", 6, 25),
    (
        b"int a[5]; int main() { a[4] = 8; put(a[4]); return 0; }",
        8,
        43,
    ),
    (
        b"int main() { int i; while (i < 3) { i = i + 1; } put(i); return 0; }",
        3,
        100,
    ),
    (
        b"void f(int a, int b) { put(a - b); return; } int main() { f(7, 2); return 0; }",
        5,
        38,
    ),
    (
        b"int f(int a) { return a; } int main() { int x; x = f(3); put(x); return 0; }",
        3,
        34,
    ),
];

// The same with calls that test the stack, and with the sizes and the number of chunks. A call by name finds room in a
// chunk of 96 bytes and links one if chunks have 80. A call through a table finds room at first, and links in the
// callee.
const LINKS: [(&[u8], Options, u32, u32, u64); 4] = [
    (
        ONCE,
        Options {
            chunk: 96,
            max_path: 48,
        },
        1,
        1,
        97,
    ),
    (
        ONCE,
        Options {
            chunk: 80,
            max_path: 48,
        },
        2,
        1,
        100,
    ),
    (
        b"int f(int n) { return n; } int g(int n) { return n + 1; } int (*t[2])(int) = { f, g }; int main() { int x; x = t[1](4); put(x); return 0; }",
        WIDE,
        1,
        5,
        53,
    ),
    (
        b"int f(int n); int (*t[1])(int) = { f }; int f(int n) { if (n < 1) return 6; n = t[0](n - 1); return n; } int main() { int x; x = t[0](1); put(x); return 0; }",
        Options {
            chunk: 64,
            max_path: 32,
        },
        2,
        6,
        116,
    ),
];

// A source with another call that is answered at once, the call, the number that is put then, and the number of
// instructions.
const ASKS: [(&[u8], Ask, u32, u64); 3] = [
    (
        b"int main() { int x; x = self(); put(x); return 0; }",
        Ask::SelfNumber,
        5,
        22,
    ),
    (
        b"void w(int n) { } int main() { int x; x = spawn(w, 3); put(x); return 0; }",
        Ask::Spawn {
            function: 0,
            argument: 3,
        },
        6,
        30,
    ),
    (
        b"int main() { give(2, 3); return 0; }",
        Ask::Give {
            resource: 2,
            amount: 3,
        },
        0,
        21,
    ),
];

// A source with a call that blocks, the call, and the number of instructions up to and including it.
const BLOCKS: [(&[u8], Block, u64); 6] = [
    (
        b"int main() { int c; c = accept(); put(c); return 0; }",
        Block::Accept,
        7,
    ),
    (
        b"int main() { int c; c = wait(5); put(c); return 0; }",
        Block::Wait { channel: 5 },
        11,
    ),
    (
        b"int main() { sleep(9); return 0; }",
        Block::Sleep { ticks: 9 },
        8,
    ),
    (b"int main() { yield(); return 0; }", Block::Yield, 4),
    (
        b"int main() { take(1, 2); return 0; }",
        Block::Take {
            resource: 1,
            amount: 2,
        },
        12,
    ),
    (
        b"int main() { int x; x = waitfor(0, 50); put(x); return 0; }",
        Block::WaitFor {
            channel: 0,
            ticks: 50,
        },
        15,
    ),
];

// A source that traps, the trap, and the number of instructions before it. A negative index is out of range too.
const TRAPS: [(&[u8], TrapKind, u64); 6] = [
    (
        b"int main() { int a[3]; put(a[3]); return 0; }",
        TrapKind::Index,
        14,
    ),
    (
        b"int main() { int a[3]; a[3] = 1; return 0; }",
        TrapKind::Index,
        17,
    ),
    (
        b"int main() { int a[3]; a[-1] = 1; return 0; }",
        TrapKind::Index,
        20,
    ),
    (
        b"int a[3]; int main() { put(a[3]); return 0; }",
        TrapKind::Index,
        11,
    ),
    (
        b"int a[3]; int main() { a[3] = 1; return 0; }",
        TrapKind::Index,
        14,
    ),
    (
        b"int f(int n) { return n; } int (*t[1])(int) = { f }; int main() { int x; x = t[1](0); return 0; }",
        TrapKind::Table,
        17,
    ),
];

/// Returns the outcome of a source that first asks this and ends.
pub(crate) fn asked(ask: Ask, sum: u32, retired: u64, free: u32) -> Outcome {
    Outcome {
        first: Some(Segment::Asks { ask }),
        last: Some(Segment::Ends),
        sum,
        key: None,
        left: left_after(retired),
        free,
    }
}

// Returns the outcome of a source that stops at its first answer, on one of four chunks.
fn stopped(segment: Segment, key: Option<SiteKey>, retired: u64) -> Outcome {
    Outcome {
        first: Some(segment),
        last: Some(segment),
        sum: 0,
        key,
        left: left_after(retired),
        free: 3,
    }
}

// Returns a program that puts the value of an expression.
fn putting(alloc: Global, expression: &[u8]) -> Result<Vec<u8>, AllocError> {
    let mut source = Vec::from_slice(alloc, b"int main() { put(")?;
    source.extend_from_slice(expression)?;
    source.extend_from_slice(b"); return 0; }")?;
    Ok(source)
}

// Checks whether `main` puts the value of an expression; `retired` is the number of instructions of the expression
// itself.
fn has_value(alloc: Global, expression: &[u8], value: u32, retired: u64) -> bool {
    let Ok(source) = putting(alloc, expression) else {
        return false;
    };
    let want = asked(Ask::Put { value }, value, retired.saturating_add(14), 4);
    let is_so = comes_to(alloc, &source, WIDE, 4, want);
    drop(source);
    is_so
}

fn all_have_values(alloc: Global, rows: &[(&[u8], u32, u64)]) -> bool {
    for (expression, value, retired) in rows {
        if !has_value(alloc, *expression, *value, *retired) {
            return false;
        }
    }
    true
}

fn all_put(alloc: Global, rows: &[(&[u8], u32, u64)]) -> bool {
    for (source, value, retired) in rows {
        let want = asked(Ask::Put { value: *value }, *value, *retired, 4);
        if !comes_to(alloc, *source, WIDE, 4, want) {
            return false;
        }
    }
    true
}

fn linked_calls(alloc: Global) -> bool {
    for (source, options, chunks, value, retired) in LINKS {
        let want = asked(Ask::Put { value }, value, retired, chunks);
        if !comes_to(alloc, source, options, chunks, want) {
            return false;
        }
    }
    true
}

fn all_ask(alloc: Global, rows: &[(&[u8], Ask, u32, u64)]) -> bool {
    for (source, ask, sum, retired) in rows {
        let want = asked(*ask, *sum, *retired, 4);
        if !comes_to(alloc, *source, WIDE, 4, want) {
            return false;
        }
    }
    true
}

fn all_block(alloc: Global, rows: &[(&[u8], Block, u64)]) -> bool {
    for (source, block, retired) in rows {
        let want = stopped(
            Segment::Blocks { block: *block },
            Some(SiteKey::new(&[0])),
            *retired,
        );
        if !comes_to(alloc, *source, WIDE, 4, want) {
            return false;
        }
    }
    true
}

fn all_trap(alloc: Global, rows: &[(&[u8], TrapKind, u64)]) -> bool {
    for (source, kind, retired) in rows {
        let want = stopped(Segment::Traps { kind: *kind }, None, *retired);
        if !comes_to(alloc, *source, WIDE, 4, want) {
            return false;
        }
    }
    true
}

#[test]
fn operations(rt: HostRuntime) {
    let alloc = rt.alloc();
    let right = all_have_values(alloc, &EXPRESSIONS)
        && all_put(alloc, &PUTS)
        && linked_calls(alloc)
        && all_ask(alloc, &ASKS)
        && all_block(alloc, &BLOCKS)
        && all_trap(alloc, &TRAPS);
    assert!(rt; right);
}
