// The whole source and trace of the workload.
use crate::programs::tells;
use std::alloc::Global;
use workload::{make_program, make_trace};

// The source of the workload of 1.
const SOURCE_OF_ONE: &[u8] = b"int f0(int x) { return x; }
int f1(int x) { int r; r = f0(x + 1); return r; }
void w(int n) { int c; int v; c = accept(); v = wait(c); v = f1(v); put(v); }
int main() { int i; for (i = 0; i < 1; i = i + 1) spawn(w, i); return 0; }
";

// The source of the workload of 3.
const SOURCE_OF_THREE: &[u8] = b"int f0(int x) { return x; }
int f1(int x) { int r; r = f0(x + 1); return r; }
int f2(int x) { int r; r = f1(x + 1); return r; }
int f3(int x) { int r; r = f2(x + 1); return r; }
void w(int n) { int c; int v; c = accept(); v = wait(c); v = f3(v); put(v); }
int main() { int i; for (i = 0; i < 3; i = i + 1) spawn(w, i); return 0; }
";

// The trace of the workload of 2.
const TRACE_OF_TWO: &[u8] = b"arrive 0 0
arrive 10 1
data 1000000 0 0
data 1000010 1 1
";

// The last line of the trace of the workload of 66, after all channels have been used once.
const LAST_OF_66: &[u8] = b"\ndata 1000650 1 65\n";

// Checks whether this is the source of the workload of n.
fn is_source(alloc: Global, n: u32, want: &[u8]) -> bool {
    if n < 1 || n > 1000 {
        return false;
    }
    match make_program(alloc, n) {
        Ok(text) => {
            let same = text.as_slice() == want;
            drop(text);
            same
        }
        Err(_) => false,
    }
}

// Checks whether the source of the workload of n is read as a program.
fn is_read(alloc: Global, n: u32) -> bool {
    if n < 1 || n > 1000 {
        return false;
    }
    match make_program(alloc, n) {
        Ok(text) => {
            let read = tells(alloc, text.as_slice(), "program");
            drop(text);
            read
        }
        Err(_) => false,
    }
}

#[test]
fn the_source_line_by_line(rt: HostRuntime) {
    assert!(rt; is_source(rt.alloc(), 1, SOURCE_OF_ONE));
    assert!(rt; is_source(rt.alloc(), 3, SOURCE_OF_THREE));
}

#[test]
fn the_source_is_read(rt: HostRuntime) {
    for n in [1, 2, 10, 1000] {
        assert!(rt; is_read(rt.alloc(), n), "{n}");
    }
}

#[test]
fn the_trace_line_by_line(rt: HostRuntime) {
    let two = make_trace(rt.alloc(), 2).expect(&rt, "memory");
    assert!(rt; two.as_slice() == TRACE_OF_TWO);
    let many = make_trace(rt.alloc(), 66).expect(&rt, "memory");
    assert!(rt; many.as_slice().ends_with(LAST_OF_66));
}
