// Sources with calls inside expressions: which are programs, and why the others are refused.

use crate::lines::{first_line, wanted};
use crate::programs::is_printed;
use c_hoist::read_nested;
use std::alloc::Global;

// Each form in which a call may occur; each part in the parentheses of a `for`; then which refusal comes first, the
// rules of scope at the places of the source, and the limits with the new names.
const ROWS: &str = "program: int main() { put(self() + 1); return 0; }
program: int main() { int a[3]; return a[self()] + -self() + (self()) + !self(); }
program: int main() { return self() + self() * self(); }
program: int main() { return self() && self() || self() < self(); }
program: int main() { return self() ? self() : self(); }
program: int f(int x, int y) { return f(f(x, y), f(y, x)); } int main() { return f(1, self()); }
program: int f(int x) { return x; } int (*t[1])(int) = { f }; int main() { return t[self()](t[0](1)); }
program: int main() { int x = (self()), y = 1 + self(); int a[2]; a[self()] = self() + x; x = a[self()] + y; return x; }
program: int main() { if (self()) put(self() + 1); else put(-self()); while (self() < 0) { if (self()) break; continue; } return 0; }
program: void w(int n) {} int main() { put(spawn(w, self() + 1)); return 0; }
program: int main() { int i; for (i = self(); i < 3; i = self()) put(self() + i); return 0; }
program: int main() { int i; for (put(1); i < 3; put(2)) { while (self()) i = i + self(); } return 0; }
NestedCall at 36: int main() { int i; for (i = 0; i < self(); i = i + 1) ; return 0; }
NestedCall at 33: int main() { int i; for (i = 1 + self(); i < 3; i = i + 1) ; return 0; }
NestedCall at 34: int main() { for (int i = 0, j = (self()); i < 3; i = i + 1) ; return 0; }
NestedCall at 30: int main() { int a[2]; for (a[self()] = 1; a[0]; a[0] = 0) ; return 0; }
NestedCall at 22: int main() { for (put(self()); 0; ) ; return 0; }
NestedCall at 73: int f(int x) { return x; } int (*t[1])(int) = { f }; int main() { for (t[self()](1); 0; ) ; return 0; }
NestedCall at 20: int main() { for (; self(); ) ; return 0; }
NestedCall at 36: int main() { int i; for (;; i = i + self()) ; return 0; }
NestedCall at 25: int main() { for (;; put(self())) ; return 0; }
NestedCall at 56: int main() { put(self() + 1); while (self() < 3) for (; self(); put(self())) ; return 0; }
NestedCall at 49: int main() { if (0) ; else { for (;;) for (; 1 + self(); ) ; } return 0; }
Unexpected at 34: int main() { for (; self(); ) ; a }
NestedCall at 27: int main() { a = 1; for (; self(); ) ; return 0; }
Unknown at 21: int main() { put(1 + puts(2)); return 0; }
Unknown at 29: int main() { return self() + x; }
Unknown at 20: int main() { return x + self(); }
Arity at 51: int f(int x) { return x; } int main() { return 1 + f(); }
Kind at 24: int main() { return 1 + put(2); }
Kind at 53: int f(int x) { return x; } int main() { return 1 + f(put(2)); }
Kind at 39: int a[2]; int main() { return self() + a; }
Kind at 30: void w(int n) {} int main() { spawn(self(), 1); return 0; }
Kind at 41: void w(int n) {} int main() { return 1 + spawn((w), self()); }
program: int main() { int a[4095]; return 1 + self(); }
Limit locals: int main() { int a[4096]; return 1 + self(); }
Limit locals: int main() { int a[4095]; return self() + self(); }";

// Checks whether the source gets this answer: its refusal as it is printed, or `program`.
fn tells_nested(alloc: Global, source: &[u8], want: &str) -> bool {
    if source.len() > 1048576 {
        return false;
    }
    match read_nested(alloc, source) {
        Ok(program) => {
            drop(program);
            want == "program"
        }
        Err(error) => {
            let same = is_printed(alloc, &error, want);
            drop(error);
            same
        }
    }
}

#[test]
fn calls_stand_inside_expressions(rt: HostRuntime) {
    let mut rows = ROWS;
    for _ in 0..37 {
        let (row, after) = first_line(rows);
        let (want, source) = wanted(row);
        assert!(rt; tells_nested(rt.alloc(), source.as_bytes(), want), "{row}");
        rows = after;
    }
    assert!(rt; rows.is_empty());
}
