use crate::needs::Need;
use cap_word::ThreadId;

/// A waiting thread and its need.
#[derive(Clone, Copy)]
pub struct Entry {
    /// The thread.
    pub thread: ThreadId,
    /// Its need.
    pub need: Need,
}
