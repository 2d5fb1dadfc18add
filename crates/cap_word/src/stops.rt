use crate::traps::TrapKind;

/// What ends a whole run in the middle of a thread's segment.
#[derive(Clone, Copy, PartialEq, Eq)]
pub enum Stop {
    /// The program trapped.
    Trap(TrapKind),
    /// A chunk is needed, and no free chunk fits.
    NoChunk,
    /// The run has retired the maximum number of instructions.
    Fuel,
    /// A thread is to start, and the maximum number of threads is live.
    Threads,
}
