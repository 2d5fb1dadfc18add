// Refusals of `serve`, and words that aren't a word list.
use crate::calls::{NONE, Row, all_hold, is_row};
use crate::checks::PUT_SEVEN;
use crate::serving::SERVE;
use std::alloc::Global;

const USAGE: &[u8] =
    b"usage: capriccio serve SRC, run SRC IMG CRT, build SRC IMG CRT, check SRC IMG CRT, graph SRC, demo N, audit SRC LOG, budget SRC IMG CRT\n";

// Sources that are refused, words that aren't a word list, and a file that doesn't exist.
const REFUSALS: [Row<'static>; 27] = [
    (SERVE, NONE, NONE, 2, NONE, b"source: NoMain\n"),
    (SERVE, b"/* x", NONE, 2, NONE, b"source: OpenComment at 0\n"),
    (
        SERVE,
        b"int main() { put(\"x\"); }",
        NONE,
        2,
        NONE,
        b"source: BadByte at 17\n",
    ),
    (
        SERVE,
        b"int main() { put(08); return 0; }",
        NONE,
        2,
        NONE,
        b"source: BadNumber at 17\n",
    ),
    (
        SERVE,
        b"int main() { return 0 }",
        NONE,
        2,
        NONE,
        b"source: Unexpected at 22\n",
    ),
    (
        SERVE,
        b"int main() { puts(1); return 0; }",
        NONE,
        2,
        NONE,
        b"source: Unknown at 13\n",
    ),
    (
        SERVE,
        b"int main() { int a; int a; return 0; }",
        NONE,
        2,
        NONE,
        b"source: Twice at 24\n",
    ),
    (
        SERVE,
        b"int f(int x) { return x; } int main() { f(); return 0; }",
        NONE,
        2,
        NONE,
        b"source: Arity at 40\n",
    ),
    (
        SERVE,
        b"int main() { return; }",
        NONE,
        2,
        NONE,
        b"source: Kind at 13\n",
    ),
    (
        SERVE,
        b"int main() { int i; for (i = 0; i < self(); i = i + 1) ; return 0; }",
        NONE,
        2,
        NONE,
        b"source: NestedCall at 36\n",
    ),
    ("", PUT_SEVEN, NONE, 1, NONE, USAGE),
    ("serve", PUT_SEVEN, NONE, 1, NONE, USAGE),
    ("serve P Q", PUT_SEVEN, NONE, 1, NONE, USAGE),
    ("serve P --fuel 05", PUT_SEVEN, NONE, 1, NONE, USAGE),
    ("serve P --fuel=5", PUT_SEVEN, NONE, 1, NONE, USAGE),
    ("serve P --chunk 72", PUT_SEVEN, NONE, 1, NONE, USAGE),
    ("serve P --fuel 1 --fuel 1", PUT_SEVEN, NONE, 1, NONE, USAGE),
    ("serve P --max-path 4081", PUT_SEVEN, NONE, 1, NONE, USAGE),
    ("serve P --caps 2=1,1=1", PUT_SEVEN, NONE, 1, NONE, USAGE),
    ("help", PUT_SEVEN, NONE, 1, NONE, USAGE),
    ("serve P --high 500", PUT_SEVEN, NONE, 1, NONE, USAGE),
    ("demo", PUT_SEVEN, NONE, 1, NONE, USAGE),
    ("demo 0", PUT_SEVEN, NONE, 1, NONE, USAGE),
    ("demo 01", PUT_SEVEN, NONE, 1, NONE, USAGE),
    ("demo 1001", PUT_SEVEN, NONE, 1, NONE, USAGE),
    ("demo 1 2", PUT_SEVEN, NONE, 1, NONE, USAGE),
    ("serve Q", PUT_SEVEN, NONE, 9, NONE, b"absent: source\n"),
];

#[test]
fn refusals(rt: HostRuntime) {
    assert!(rt; all_hold(rt.alloc(), &REFUSALS));
}

/// Checks whether a source of `count` spaces is refused as too long.
fn is_too_long(alloc: Global, count: usize) -> bool {
    match vec![in alloc; b' '; count] {
        Ok(long) => {
            let is_so = is_row(
                alloc,
                &(SERVE, long.as_slice(), NONE, 2, NONE, b"source: TooLong\n"),
            );
            drop(long);
            is_so
        }
        Err(_) => false,
    }
}

// A source of one byte more than the maximum.
#[test]
fn a_long_source_is_refused(rt: HostRuntime) {
    assert!(rt; is_too_long(rt.alloc(), 1_048_577));
}
