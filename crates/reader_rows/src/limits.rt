// Each limit of a program at its value, and one past it.

use crate::built::built;
use crate::lines::{first_line, wanted};
use crate::programs::tells;
use std::alloc::{AllocError, Global};

// In the last rows: scopes of one name, each closed before the next; and the first of several exceeded limits.
const ROWS: &str = "program: int main() { |yield();|65535||| return 0; }
Limit sites: int main() { |yield();|65536||| return 0; }
program: int f(int x) { return x; } int (*t[65536])(int) = { f|, f|65535||| }; int main() { return 0; }
Limit tables: int f(int x) { return x; } int (*t[65537])(int) = { f|, f|65536||| }; int main() { return 0; }
program: int a[65536]||0|||; int main() { return 0; }
Limit globals: int a[65536], b||0|||; int main() { return 0; }
program: int main() { int a[4096];|{ }|1||| return 0; }
Limit locals: int main() { int a[4096];|{ int b; }|1||| return 0; }
program: int f(int a, int b, int c, int d, int e, int g||0|||) { return a; } int main() { return 0; }
Limit params: int f(int a, int b, int c, int d, int e, int g, int h||0|||) { return a; } int main() { return 0; }
program: int main() { int a; |{ int a; a = 1; }|4095||| return 0; }
Limit globals: int a[65536], b; int main() { int a[4097];||0||| return 0; }";

// Checks whether the source of the parts gets this answer.
fn built_tells(alloc: Global, parts: &str, want: &str) -> bool {
    match built(alloc, parts, 0) {
        Ok(source) => {
            let same = tells(alloc, &source, want);
            drop(source);
            same
        }
        Err(_) => false,
    }
}

// Appends `count` functions.
fn append_functions(alloc: Global, text: &mut Vec<u8>, count: u32) -> Result<(), AllocError> {
    for number in 0..count {
        let function = format!(in alloc; "void f{number}() {{}}")?;
        text.extend_from_slice(function.as_bytes())?;
    }
    Ok(())
}

// Checks whether `main` with `count` other functions gets this answer.
fn functions_tell(alloc: Global, count: u32, want: &str) -> bool {
    match Vec::from_slice(alloc, b"int main() { return 0; }") {
        Ok(mut source) => {
            let appended = append_functions(alloc, &mut source, count);
            let same = tells(alloc, &source, want);
            drop(source);
            appended.is_ok() && same
        }
        Err(_) => false,
    }
}

#[test]
fn as_many_as_fit_and_one_more(rt: HostRuntime) {
    let mut rows = ROWS;
    for _ in 0..12 {
        let (row, after) = first_line(rows);
        let (want, parts) = wanted(row);
        assert!(rt; built_tells(rt.alloc(), parts, want), "{row}");
        rows = after;
    }
    assert!(rt; rows.is_empty());
    assert!(rt; functions_tell(rt.alloc(), 4095, "program"));
    assert!(rt; functions_tell(rt.alloc(), 4096, "Limit functions"));
}
