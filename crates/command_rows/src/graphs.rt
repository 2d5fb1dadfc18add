// The command `graph`.
use crate::calls::{NONE, Row, all_hold};
use crate::checks::TWO;

const PLAIN: &str = "graph P";

const SMALL: &str = "graph P --chunk 64 --max-path 32";

const GRAPHS: [Row<'static>; 9] = [
    (
        SMALL,
        TWO,
        NONE,
        0,
        b"function 0 g frame 16 bound 16\nfunction 1 main frame 16 bound 32\nsite 0 main plain\n",
        NONE,
    ),
    (
        "graph --max-path 32 P --chunk 64",
        b"int g(int x) { return x; } int main() { int a; int b; int c; a = g(1); return a; }",
        NONE,
        0,
        b"function 0 g frame 16 bound 16\nfunction 1 main frame 32 bound 32\nsite 0 main over\n",
        NONE,
    ),
    (
        SMALL,
        b"int main() { int a[10]; return 0; }",
        NONE,
        5,
        NONE,
        b"limit: frame of main is 48 bytes\n",
    ),
    (
        PLAIN,
        b"int b(int n); int a(int n) { int r; r = b(n - 1); return r; } int b(int n) { if (n < 1) return 0; int r; r = a(n - 1); return r; } int main() { int r; r = a(9); return r; }",
        NONE,
        0,
        b"function 0 a frame 32 bound 64\nfunction 1 b frame 32 bound 32\nfunction 2 main frame 16 bound 80\nsite 0 a plain\nsite 1 b back\nsite 2 main plain\n",
        NONE,
    ),
    (PLAIN, NONE, NONE, 2, NONE, b"source: NoMain\n"),
    (
        PLAIN,
        b"int main() { int a; int a; return 0; }",
        NONE,
        2,
        NONE,
        b"source: Twice at 24\n",
    ),
    (
        PLAIN,
        b"int main() { put(self() + 1); return 0; }",
        NONE,
        0,
        b"function 0 main frame 16 bound 16\n",
        NONE,
    ),
    ("graph Q", TWO, NONE, 9, NONE, b"absent: source\n"),
    (
        "graph P Q",
        TWO,
        NONE,
        1,
        NONE,
        b"usage: capriccio serve SRC, run SRC IMG CRT, build SRC IMG CRT, check SRC IMG CRT, graph SRC, demo N, audit SRC LOG, budget SRC IMG CRT\n",
    ),
];

#[test]
fn graphs(rt: HostRuntime) {
    assert!(rt; all_hold(rt.alloc(), &GRAPHS));
}
