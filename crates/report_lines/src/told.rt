use run_history::{Happening, History, HistoryError};
use schedule_log::{LogError, read_entry};
use std::alloc::AllocError;
use thiserror::Error;

/// Why a log can't be read further.
#[derive(Clone, Copy, Debug, Error)]
pub enum LinesError {
    /// A line isn't that of an entry, or a clock or a count would be 2^64 or more.
    #[error("a line of the log is malformed, or a clock or a count is out of range")]
    Log,
    /// Out of memory.
    #[error("out of memory")]
    Memory,
}

impl From<AllocError> for LinesError {
    fn from(_error: AllocError) -> LinesError {
        LinesError::Memory
    }
}

impl From<LogError> for LinesError {
    fn from(error: LogError) -> LinesError {
        match error {
            LogError::Line => LinesError::Log,
        }
    }
}

impl From<HistoryError> for LinesError {
    fn from(error: HistoryError) -> LinesError {
        match error {
            HistoryError::Count => LinesError::Log,
            HistoryError::Memory => LinesError::Memory,
        }
    }
}

/// Returns the happening of the next line of a log. `accepts` has at each site's number whether its call is `accept`;
/// without entries, no wait takes a request.
pub fn told_by(
    history: &mut History,
    line: &[u8],
    accepts: &[bool],
) -> Result<Happening, LinesError> {
    let entry = read_entry(line)?;
    Ok(history.tell(&entry, accepts)?)
}
