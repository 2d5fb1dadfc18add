// Why a trace is refused.

use thiserror::Error;

/// Why a reader of a trace returns no more events.
#[derive(Clone, Copy, Debug, PartialEq, Eq, Error)]
pub enum TraceError {
    /// The line with this number, counted from 1, isn't a line of a trace, or is line 1,000,001.
    #[error("line {number} is not a line of a trace")]
    Line {
        number: u32,
    },
    /// The time of the line with this number, counted from 1, is below that of the line before.
    #[error("the time {time} of line {number} is below {earlier}, that of the line before")]
    Order {
        number: u32,
        time: u64,
        earlier: u64,
    },
    /// A read failed.
    #[error("a read failed")]
    ReadFault,
}
