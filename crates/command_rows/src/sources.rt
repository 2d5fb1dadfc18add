// The programs in the rows.

/// Two workers that take an arrival, the one unit of resource 1, and a message of the channel that arrived.
pub(crate) const SERVER: &[u8] =
    b"void worker(int n) { int c; int v; while (1) { c = accept(); take(1, 1); v = wait(c); put(v + n); give(1, 1); } } int main() { spawn(worker, 100); spawn(worker, 200); return 0; }";

/// It takes two units and one more, and then waits for another one.
pub(crate) const TAKING: &[u8] = b"int main() { take(1, 2); take(1, 1); take(1, 1); return 0; }";

/// It sleeps, and then puts a value.
pub(crate) const SLEEPING: &[u8] = b"int main() { sleep(50); put(1); return 0; }";

/// It sleeps for a negative number of ticks.
pub(crate) const SLEEPING_BACK: &[u8] = b"int main() { sleep(0 - 5); put(1); return 0; }";

/// Three threads sleep for 100, 300 and 200.
pub(crate) const SLEEPERS: &[u8] =
    b"void s(int n) { sleep(n); put(n); } int main() { spawn(s, 100); spawn(s, 300); spawn(s, 200); return 0; }";

/// It waits for a message for 50 ticks.
pub(crate) const WAITING: &[u8] = b"int main() { int x; x = waitfor(0, 50); put(x); return 0; }";

/// It waits for a message for a negative number of ticks.
pub(crate) const WAITING_BACK: &[u8] =
    b"int main() { int x; x = waitfor(0, 0 - 5); put(x); return 0; }";

/// It waits for a message with a time, and then for one without.
pub(crate) const WAITING_TWICE: &[u8] =
    b"int main() { int x; x = waitfor(0, 50); put(x); x = wait(0); put(x); return 0; }";

/// Two threads on one channel: the first takes its message, the second waits for one with a time.
pub(crate) const RIVALS: &[u8] =
    b"void a(int n) { n = wait(0); put(n); } void b(int n) { n = waitfor(0, n); put(n); } int main() { spawn(a, 0); spawn(b, 50); return 0; }";

/// Two threads wait for a message of the same channel with a time, and one of another channel.
pub(crate) const PEERS: &[u8] =
    b"void b(int n) { n = waitfor(n / 1000, n % 1000); put(n); } int main() { spawn(b, 1300); spawn(b, 1200); spawn(b, 2100); return 0; }";

/// A thread starts, and another one after the first has ended.
pub(crate) const FOLLOWING: &[u8] =
    b"void w(int n) { put(n); } int main() { spawn(w, 1); yield(); spawn(w, 2); return 0; }";

/// It waits on the last channel.
pub(crate) const LISTENING: &[u8] = b"int main() { int x; x = wait(63); put(x); return 0; }";

/// It starts threads forever, each of which waits for a message.
pub(crate) const CROWD: &[u8] =
    b"void w(int x) { x = wait(0); } int main() { while (1) spawn(w, 0); }";
