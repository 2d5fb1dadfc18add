// The command `serve`: sources with their logs.
use crate::calls::{NONE, Row, all_hold};
use crate::checks::PUT_SEVEN;
use crate::logs::{ENDLESS_LOG, FALLING_LOG, FALLING_TRACE, LITTLE_FUEL_LOG};

pub(crate) const SERVE: &str = "serve P";

pub(crate) const LOG_OF_SEVEN: &[u8] =
    b"run 0 0 0\nout 0 7\nend 0 17 1024\nedge 0 1 1 4352 -256\nstop done\n";

/// Calls down to a depth, and back.
const DEEP: &[u8] =
    b"int f(int n) { int r; if (n < 1) return 0; r = f(n - 1); return r + 1; } int main() { int r; r = f(100); put(r); return 0; }";

const SHALLOW: &[u8] =
    b"int f(int n) { int r; if (n < 1) return 0; r = f(n - 1); return r + 1; } int main() { int r; r = f(1); put(r); return 0; }";

pub(crate) const ENDLESS: &[u8] =
    b"int f(int n) { int r; put(n); r = f(n + 1); return r; } int main() { int r; r = f(0); return r; }";

/// A server of two workers: each takes an arrival, waits for its data, and answers.
pub(crate) const SERVER: &[u8] =
    b"void worker(int n) {\n  int c;\n  int v;\n  while (1) {\n    c = accept();\n    take(1, 1);\n    v = wait(c);\n    put(v + n);\n    give(1, 1);\n  }\n}\nint main() {\n  spawn(worker, 100);\n  spawn(worker, 200);\n  return 0;\n}\n";

pub(crate) const SERVER_TRACE: &[u8] =
    b"arrive 100 0\ndata 150 0 7\narrive 200 1\narrive 210 2\ndata 400 1 8\ndata 500 2 9\n";

pub(crate) const LOG_OF_SERVER: &[u8] =
    b"run 0 0 0\nend 0 31 1022\nrun 31 1 0\nblock 1 2 0 16 1022\nrun 47 2 0\nblock 2 2 0 16 1022\nevent 100 arrive 0\nrun 100 1 2\nblock 1 3 1 11 1022\nrun 111 1 3\nblock 1 4 2 5 1022\nevent 150 data 0 7\nrun 150 1 4\nout 1 107\nblock 1 2 0 30 1022\nevent 200 arrive 1\nrun 200 2 2\nblock 2 3 1 11 1022\nevent 211 arrive 2\nrun 211 2 3\nblock 2 4 2 5 1022\nrun 216 1 2\nblock 1 3 1 11 1022\nevent 400 data 1 8\nrun 400 2 4\nout 2 208\nblock 2 2 0 30 1022\nrun 430 1 3\nblock 1 4 2 5 1022\nevent 500 data 2 9\nrun 500 1 4\nout 1 109\nblock 1 2 0 30 1022\nedge 0 1 1 7936 256 0\nedge 0 2 2 4096 0 0\nedge 2 3 3 2816 0 0\nedge 3 4 3 1280 0 256\nedge 4 2 3 7680 0 -256\nstop idle\n";

/// The same with a `yield` while the resource is in use.
const SLOW_SERVER: &[u8] =
    b"void worker(int n) { int c; int k; while (1) { c = accept(); take(1, 1); for (k = 0; k < 2; k = k + 1) yield(); put(c); give(1, 1); } } int main() { spawn(worker, 0); spawn(worker, 0); return 0; }";

const LOG_OF_SLOW_SERVER: &[u8] =
    b"run 0 0 0\nend 0 31 1022\nrun 31 1 0\nblock 1 2 0 16 1022\nrun 47 2 0\nblock 2 2 0 16 1022\nevent 100 arrive 5\nrun 100 1 2\nblock 1 3 1 11 1022\nrun 111 1 3\nblock 1 4 2 18 1022\nevent 129 arrive 6\nrun 129 1 4\nblock 1 4 2 25 1022\nrun 154 1 4\nout 1 5\nblock 1 2 0 47 1022\nrun 201 2 2\nblock 2 3 1 11 1022\nrun 212 2 3\nblock 2 4 2 18 1022\nrun 230 2 4\nblock 2 4 2 25 1022\nrun 255 2 4\nout 2 6\nblock 2 2 0 47 1022\nedge 0 1 1 7936 256 0\nedge 0 2 2 4096 0 0\nedge 2 3 2 2816 0 0\nedge 3 4 2 4608 0 256\nedge 4 2 2 12032 0 -256\nedge 4 4 2 6400 0 0\nstop idle\n";

/// It waits for a message for 50 ticks.
const WAITING: &[u8] = b"int main() { int x; x = waitfor(0, 50); put(x); return 0; }";

/// No message came in time.
const LOG_OF_SILENCE: &[u8] =
    b"run 0 0 0\nblock 0 2 0 15 1023\nrun 65 0 2\nout 0 0\nend 0 15 1024\nedge 0 2 1 3840 0\nedge 2 1 1 3840 -256\nstop done\n";

const RUNS_TO_THE_END: [Row<'static>; 21] = [
    (SERVE, PUT_SEVEN, NONE, 0, LOG_OF_SEVEN, NONE),
    (
        SERVE,
        b"int main() { return 0; }",
        NONE,
        0,
        b"run 0 0 0\nend 0 11 1024\nedge 0 1 1 2816 -256\nstop done\n",
        NONE,
    ),
    (
        SERVE,
        b"int main() { put(self() + 1); return 0; }",
        NONE,
        0,
        b"run 0 0 0\nout 0 1\nend 0 26 1024\nedge 0 1 1 6656 -256\nstop done\n",
        NONE,
    ),
    (
        SERVE,
        b"int fib(int n) { if (n < 2) return n; return fib(n - 1) + fib(n - 2); } int main() { put(fib(10)); return 0; }",
        NONE,
        0,
        b"run 0 0 0\nout 0 55\nend 0 7170 1024\nedge 0 1 1 1835520 -256\nstop done\n",
        NONE,
    ),
    (
        SERVE,
        b"int main() { put(-2147483648 / -1); put(5 / 0); return 0; }",
        NONE,
        0,
        b"run 0 0 0\nout 0 -2147483648\nout 0 -1\nend 0 43 1024\nedge 0 1 1 11008 -256\nstop done\n",
        NONE,
    ),
    (
        "serve P --chunk 64 --max-path 48 --chunks 128",
        DEEP,
        NONE,
        0,
        b"run 0 0 0\nout 0 100\nend 0 5149 128\nedge 0 1 1 1318144 -256\nstop done\n",
        NONE,
    ),
    (
        "serve P --chunk 96 --max-path 48 --chunks 1",
        SHALLOW,
        NONE,
        0,
        b"run 0 0 0\nout 0 1\nend 0 97 1\nedge 0 1 1 24832 -256\nstop done\n",
        NONE,
    ),
    (
        "serve P --chunk 80 --max-path 48 --chunks 2",
        SHALLOW,
        NONE,
        0,
        b"run 0 0 0\nout 0 1\nend 0 100 2\nedge 0 1 1 25600 -256\nstop done\n",
        NONE,
    ),
    // the second chunk is of a second size, which fits the call's need of 32 bytes
    (
        "serve P --chunk 80 --max-path 48 --chunks 1 --extra 1 --extra-size 48",
        SHALLOW,
        NONE,
        0,
        b"run 0 0 0\nout 0 1\nend 0 100 2\nedge 0 1 1 25600 -256\nstop done\n",
        NONE,
    ),
    ("serve P --fuel 17", PUT_SEVEN, NONE, 0, LOG_OF_SEVEN, NONE),
    (
        "serve P --chunk 64 --max-path 48 --chunks 16",
        b"int h(int n) { int r; if (n < 1) { yield(); return 0; } r = h(n - 1); return r; } int main() { int r; r = h(9); return r; }",
        NONE,
        0,
        b"run 0 0 0\nblock 0 2 0<1<1<1<1<1<1<1 344 6\nrun 344 0 2\nend 0 97 16\nedge 0 2 1 88064 2304\nedge 2 1 1 24832 -2560\nstop done\n",
        NONE,
    ),
    (
        SERVE,
        b"int main() { sleep(50); put(1); return 0; }",
        NONE,
        0,
        b"run 0 0 0\nblock 0 2 0 8 1023\nrun 58 0 2\nout 0 1\nend 0 15 1024\nedge 0 2 1 2048 0\nedge 2 1 1 3840 -256\nstop done\n",
        NONE,
    ),
    (SERVE, WAITING, NONE, 0, LOG_OF_SILENCE, NONE),
    (
        SERVE,
        WAITING,
        b"data 40 0 7\n",
        0,
        b"run 0 0 0\nblock 0 2 0 15 1023\nevent 40 data 0 7\nrun 40 0 2\nout 0 1\nend 0 15 1024\nedge 0 2 1 3840 0\nedge 2 1 1 3840 -256\nstop done\n",
        NONE,
    ),
    // a message at exactly that time is in time, and a tick later it isn't
    (
        SERVE,
        WAITING,
        b"data 65 0 7\n",
        0,
        b"run 0 0 0\nblock 0 2 0 15 1023\nevent 65 data 0 7\nrun 65 0 2\nout 0 1\nend 0 15 1024\nedge 0 2 1 3840 0\nedge 2 1 1 3840 -256\nstop done\n",
        NONE,
    ),
    (SERVE, WAITING, b"data 66 0 7\n", 0, LOG_OF_SILENCE, NONE),
    (
        "serve P --caps 1=1",
        SERVER,
        SERVER_TRACE,
        10,
        LOG_OF_SERVER,
        NONE,
    ),
    (
        "serve P --caps 1=1",
        SLOW_SERVER,
        b"arrive 100 5\narrive 120 6\n",
        10,
        LOG_OF_SLOW_SERVER,
        NONE,
    ),
    // the gate with a knee at half of each cap
    (
        "serve P --caps 1=1 --knee 500",
        SLOW_SERVER,
        b"arrive 100 5\narrive 120 6\n",
        10,
        LOG_OF_SLOW_SERVER,
        NONE,
    ),
    (
        "serve P --backlog 1",
        SERVER,
        FALLING_TRACE,
        4,
        FALLING_LOG,
        NONE,
    ),
    (SERVE, SERVER, b"arrive x 1\n", 4, b"stop trace 1\n", NONE),
];

// Runs in which every thread ends, or which wait forever.
#[test]
fn runs_to_the_end(rt: HostRuntime) {
    assert!(rt; all_hold(rt.alloc(), &RUNS_TO_THE_END));
}

const CUT_RUNS: [Row<'static>; 13] = [
    (
        "serve P --fuel 0",
        PUT_SEVEN,
        NONE,
        13,
        b"run 0 0 0\nstop fuel 0 0 1023\n",
        NONE,
    ),
    (
        "serve P --fuel 16",
        PUT_SEVEN,
        NONE,
        13,
        LITTLE_FUEL_LOG,
        NONE,
    ),
    (
        "serve P --chunk 80 --max-path 48 --chunks 1",
        SHALLOW,
        NONE,
        12,
        b"run 0 0 0\nstop nochunk 0 43 0\n",
        NONE,
    ),
    // one chunk is free, but too small
    (
        "serve P --chunk 80 --max-path 48 --chunks 1 --extra 1 --extra-size 32",
        SHALLOW,
        NONE,
        12,
        b"run 0 0 0\nstop nochunk 0 43 1\n",
        NONE,
    ),
    (
        "serve P --chunk 64 --max-path 48 --chunks 2",
        ENDLESS,
        NONE,
        12,
        ENDLESS_LOG,
        NONE,
    ),
    (
        SERVE,
        b"int main() { int k = 3; int a[2]; int b = 9; a[1] = k; put(b); a[2] = 7; return 0; }",
        NONE,
        11,
        b"run 0 0 0\nout 0 9\nstop trap 0 index 44 1023\n",
        NONE,
    ),
    (
        SERVE,
        b"int main() { int k = 3; int a[2]; int b = 9; a[1] = k; put(b); a[-1] = 7; return 0; }",
        NONE,
        11,
        b"run 0 0 0\nout 0 9\nstop trap 0 index 47 1023\n",
        NONE,
    ),
    (
        SERVE,
        b"int f(int x) { return x + 1; } int g(int x) { return x * 2; } int (*t[2])(int) = { f, g }; int main() { int r; r = t[1](21); put(r); r = t[2](0); return r; }",
        NONE,
        11,
        b"run 0 0 0\nout 0 42\nstop trap 0 table 56 1023\n",
        NONE,
    ),
    (
        "serve P --caps 1=1",
        b"int main() { take(1, 2); return 0; }",
        NONE,
        11,
        b"run 0 0 0\nstop trap 0 resource 11 1023\n",
        NONE,
    ),
    (
        SERVE,
        b"int main() { int x; x = wait(64); return x; }",
        NONE,
        11,
        b"run 0 0 0\nstop trap 0 channel 10 1023\n",
        NONE,
    ),
    (
        SERVE,
        b"int main() { int x; x = waitfor(64, 50); return x; }",
        NONE,
        11,
        b"run 0 0 0\nstop trap 0 channel 14 1023\n",
        NONE,
    ),
    (
        "serve P --chunk 64 --chunks 65536",
        b"void w(int x) { x = wait(0); } int main() { while (1) spawn(w, 0); }",
        NONE,
        14,
        b"run 0 0 0\nstop threads 0 1048560 1\n",
        NONE,
    ),
    // by the stride rule a thread with two tickets has two turns for one of the other
    (
        "serve P --rule stride --tickets 1=2 --fuel 100",
        b"void w(int n) { while (1) { put(n); yield(); } } int main() { spawn(w, 1); spawn(w, 2); return 0; }",
        NONE,
        13,
        b"run 0 0 0\nend 0 31 1022\nrun 31 1 0\nout 1 1\nblock 1 2 1 15 1022\nrun 46 2 0\nout 2 2\nblock 2 2 1 15 1022\nrun 61 1 2\nout 1 1\nblock 1 2 1 13 1022\nrun 74 1 2\nout 1 1\nblock 1 2 1 13 1022\nrun 87 2 2\nout 2 2\nblock 2 2 1 13 1022\nrun 100 1 2\nedge 0 1 1 7936 256\nedge 0 2 2 3840 0\nedge 2 2 3 3328 0\nstop fuel 1 0 1022\n",
        NONE,
    ),
];

// Runs that are cut off.
#[test]
fn runs_that_are_cut(rt: HostRuntime) {
    assert!(rt; all_hold(rt.alloc(), &CUT_RUNS));
}
