// Which sources are programs, and why the others are refused.

use crate::lines::{first_line, wanted};
use c_scope::{SourceError, read_program};
use std::alloc::Global;

// The readers one after another: tokens, tree, rules, `main`, each of which runs only if none before it refuses (the
// first fourteen rows). Then the rules of scope, each broken and kept; then names that are declared twice or hide
// others.
const ROWS: &str = "program: int main() { put(7); return 0; }
NoMain: 
OpenComment at 0: /* x
BadByte at 17: int main() { put(\"x\"); }
BadNumber at 17: int main() { put(08); return 0; }
Unexpected at 22: int main() { return 0 }
Unknown at 13: int main() { puts(1); return 0; }
Twice at 24: int main() { int a; int a; return 0; }
Arity at 40: int f(int x) { return x; } int main() { f(); return 0; }
Kind at 13: int main() { return; }
NestedCall at 17: int main() { put(self() + 1); return 0; }
BadByte at 34: int main() { put(self() + 1); a } @
Unexpected at 31: int main() { b = self() + 1; a }
NestedCall at 17: int main() { b = self() + 1; return 0; }
Unknown at 13: int main() { a = 1; int a; return 0; }
program: int main() { int a; { int a; a = 1; } a = 2; return a; }
Unknown at 21: int main() { int a = a; return 0; }
Unknown at 24: int main() { { int a; } a = 1; return 0; }
Unknown at 49: int main() { for (int i = 0; i < 1; i = i + 1) ; i = 2; return 0; }
Unknown at 4: int f(int x); int main() { return 0; }
program: int f(int x); int main() { return 0; } int f(int y) { return y; }
Twice at 11: int a; int a() { return 0; } int main() { return 0; }
Twice at 19: int f(int x) { int x; return 0; } int main() { return 0; }
program: int f(int x) { { int x; } return 0; } int main() { return 0; }
Arity at 19: int f(int x); void f(int x) {} int main() { return 0; }
Arity at 18: int f(int x); int f() { return 0; } int main() { return 0; }
Arity at 13: int main() { put(1, 2); return 0; }
Arity at 33: int f(int x) { return x; } int (*t[2])(int) = { f }; int main() { return 0; }
program: int f(int x) { return x; } int (*t[1])(int) = { f }; int main() { t[0](1); return 0; }
Kind at 66: int f(int x) { return x; } int (*t[1])(int) = { f }; int main() { t(1); return 0; }
Arity at 66: int f(int x) { return x; } int (*t[1])(int) = { f }; int main() { t(1, 2); return 0; }
Kind at 43: int f() { return 0; } int (*t[1])(int) = { f }; int main() { return 0; }
Unknown at 21: int (*t[1])(int) = { t }; int main() { return 0; }
Kind at 30: int a[2]; int main() { return a; }
program: int a[2]; int main() { return a[1]; }
Kind at 27: int a; int main() { return a[1]; }
Kind at 20: int main() { return main; }
Kind at 13: int main() { put = 1; return 0; }
Arity at 13: int main() { take[0](1); return 0; }
Kind at 13: int main() { put[0](1); return 0; }
Kind at 20: int a; int main() { a(); return 0; }
Kind at 20: int main() { return put(1); }
program: int main() { return self(); }
program: void w(int n) {} int main() { spawn(w, 1); return 0; }
Kind at 30: void w(int n) {} int main() { spawn((w), 1); return 0; }
Kind at 31: void w() {} int main() { spawn(w, 1); return 0; }
Kind at 26: int a; int main() { spawn(a, 1); return 0; }
Kind at 34: void w(int n) {} int main() { put(w); return 0; }
Kind at 4: int main(int x) { return 0; }
Kind at 4: int put; int main() { return 0; }
Kind at 4: int waitfor; int main() { return 0; }
Kind at 17: int main() { int waitfor; return 0; }
Arity at 20: int main() { return waitfor(0); }
program: int main() { return waitfor(0, 5); }
program: int main() { int wait_for; waitfor(0, 5); return 0; }
Kind at 4: int a[0]; int main() { return 0; }
Kind at 11: void f() { return 1; } int main() { return 0; }
Kind at 13: int main() { break; return 0; }
program: int main() { while (1) { if (1) continue; break; } return 0; }
Twice at 17: int f(int x, int x); int f(int a, int b) { return a; } int main() { return 0; }
Twice at 26: int f() { return 0; } int f() { return 0; } int main() { return 0; }
program: int f() { return 0; } int f(); int main() { return f(); }
NoMain: int main;
Twice at 14: int main; int main() { return 0; }
Kind at 40: int f(int x) { return x; } int main() { f[0](1); return 0; }
Arity at 30: void w(int n) {} int main() { spawn(w); return 0; }
Arity at 30: void w(int n) {} int main() { spawn(w, 1, 2); return 0; }
program: int a[2]; int main() { for (int a = 0; a < 1; a = a + 1) ; return a[1]; }
Kind at 39: int a[2]; int main() { for (int a = 0; a[0]; ) ; return 0; }
program: int a[2]; int main() { int a = a[1]; return a; }
Kind at 31: int a[2]; int main() { int a = a; return 0; }
Kind at 10: int f(int put) { return 0; } int main() { return 0; }
Kind at 10: int f(int spawn); int f(int x) { return x; } int main() { return 0; }";

/// Checks whether the refusal is printed like this.
pub(crate) fn is_printed(alloc: Global, error: &SourceError, want: &str) -> bool {
    match error.to_string(alloc) {
        Ok(text) => {
            let same = text.as_str() == want;
            drop(text);
            same
        }
        Err(_) => false,
    }
}

/// Checks whether the source gets this answer: its refusal as it is printed, or `program`.
pub(crate) fn tells(alloc: Global, source: &[u8], want: &str) -> bool {
    if source.len() > 1048576 {
        return false;
    }
    match read_program(alloc, source) {
        Ok(program) => {
            drop(program);
            want == "program"
        }
        Err(error) => {
            let same = is_printed(alloc, &error, want);
            drop(error);
            same
        }
    }
}

#[test]
fn the_first_reader_refuses_and_the_rules_of_scope(rt: HostRuntime) {
    let mut rows = ROWS;
    for _ in 0..73 {
        let (row, after) = first_line(rows);
        let (want, source) = wanted(row);
        assert!(rt; tells(rt.alloc(), source.as_bytes(), want), "{row}");
        rows = after;
    }
    assert!(rt; rows.is_empty());
    let too_deep = SourceError::TooDeep { at: 7 };
    assert!(rt; is_printed(rt.alloc(), &too_deep, "TooDeep at 7"));
}
