use cap_word::ThreadId;

/// A choice by strides.
#[derive(Clone, Copy, PartialEq, Eq)]
pub struct StrideChoice {
    /// The thread.
    pub thread: ThreadId,
    /// Whether every waiting thread was eligible.
    pub all: bool,
}
