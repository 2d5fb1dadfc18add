// The programs in the rows of budgets.

use std::alloc::Global;
use workload::make_program;

/// `main` calls `g`. With frames of 16 and 32 bytes the call is linked if a path has at most 32.
pub(crate) const LINKED: &[u8] =
    b"int g(int x) { return x; } int main() { int a; int b; int c; a = g(1); return a; }";

/// The same with a smaller frame of `main`, so that the call is plain.
pub(crate) const PLAIN: &[u8] =
    b"int g(int x) { return x; } int main() { int a; int b; a = g(1); return a; }";

/// `main` calls a table of two functions at a linked site, the second of which calls a third at a linked one.
pub(crate) const TABLE: &[u8] =
    b"int low(int x) { return x; } int flat(int x) { return x; } int steep(int x) { int a; int b; int c; a = low(x); return a; } int (*both[2])(int) = { flat, steep }; int main() { int a; int b; int c; a = both[1](1); return a; }";

/// No function calls `worker`: `main` starts a thread with it, which calls `low` at a linked site.
pub(crate) const SPAWNING: &[u8] =
    b"int low(int x) { return x; } void worker(int x) { int a; int b; int c; a = low(x); } int main() { spawn(worker, 1); return 0; }";

/// `f` calls itself at a linked site.
pub(crate) const RECURSIVE: &[u8] =
    b"int f(int n) { int a; int b; if (n < 1) return n; a = f(n - 1); return a; } int main() { int a; a = f(3); return a; }";

/// `leaf` calls nothing; `odd` and `even` call each other.
pub(crate) const MUTUAL: &[u8] =
    b"int leaf(int n) { return n; } int even(int n); int odd(int n) { int a; int b; if (n < 1) return 0; a = even(n - 1); return a; } int even(int n) { int a; int b; if (n < 1) return leaf(1); a = odd(n - 1); return a; } int main() { int a; a = even(3); return a; }";

/// Returns the source of the workload of number 1000.
pub(crate) fn workload_of(alloc: Global) -> Option<Vec<u8>> {
    match make_program(alloc, 1000) {
        Ok(source) => Some(source),
        Err(_) => None,
    }
}
