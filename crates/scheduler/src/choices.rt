use cap_word::ThreadId;

/// A thread with the node at which it waits.
#[derive(Clone, Copy, PartialEq, Eq)]
pub struct Choice {
    /// The thread.
    pub thread: ThreadId,
    /// The number of the node.
    pub node: u32,
}
