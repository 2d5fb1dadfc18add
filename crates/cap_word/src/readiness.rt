ghost use Rattle.std.specs.Prelude.{◌≡◌, Bool};
ghost use Rattle.cap_word.specs.declared.threads.ThreadId.{ThreadId};

use crate::threads::ThreadId;

/// What a scheduler asks of a world of threads. Each method returns the value of the ghost member
/// of its name, for every thread or for the whole world.
pub trait Ready {
    // Whether the thread can continue if it is chosen.
    ghost is_ready: { Self → ThreadId → Bool };

    // Whether the thread is blocked at `accept`.
    ghost at_accept: { Self → ThreadId → Bool };

    // Whether a thread that isn't blocked at `accept` is ready.
    ghost any_elsewhere: { Self → Bool };

    /// Returns whether the thread can continue if it is chosen.
    fn is_ready(&self, thread: ThreadId) -> bool
        ensures { result ≡ is_ready self.now thread };

    /// Returns whether the thread is blocked at `accept`.
    fn at_accept(&self, thread: ThreadId) -> bool
        ensures { result ≡ at_accept self.now thread };

    /// Returns whether a thread that isn't blocked at `accept` is ready.
    fn any_elsewhere(&self) -> bool
        ensures { result ≡ any_elsewhere self.now };
}
