use cap_word::Words;
use thiserror::Error;

/// A claim that a number of chunks is enough.
#[derive(Drop)]
pub struct Budget {
    /// The number of chunks that each thread may hold.
    pub per_thread: u32,
    /// The height of each function, by number: the maximum number of chunks that a call of it may link.
    pub heights: Words,
}

/// Why a budget is wrong for a program.
#[derive(Clone, Copy, Debug, PartialEq, Eq, Error)]
pub enum BudgetError {
    /// The number of heights isn't the number of functions.
    #[error("expected {functions} heights, found {heights}")]
    Length { heights: u64, functions: u32 },
    /// A thread may hold no chunks.
    #[error("expected at least one chunk per thread, found 0")]
    Zero,
    /// At this site, the least by number, the caller's height is too low.
    #[error("the height of the caller at site {site} is too low")]
    Low { site: u32 },
    /// This function, the least one, is `main` or starts a thread, and its height isn't below the number of chunks per
    /// thread.
    #[error("the height of function {function} is not below the number of chunks per thread")]
    Root { function: u32 },
}

/// Why a program has no budget, or none was computed.
#[derive(Clone, Copy, Debug, PartialEq, Eq, Error)]
pub enum MakeBudgetError {
    /// This function, the least one, is on a cycle of calls.
    #[error("calls lead from function {function} back to itself")]
    Cycle { function: u32 },
    /// An allocation failed.
    #[error("out of memory")]
    Memory,
}
