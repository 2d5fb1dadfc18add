use cap_io::{Sink, put_all};
use report_lines::LinesError;
use source_places::PlacesError;
use std::alloc::AllocError;

/// Why there is no report, or only a part of it.
#[derive(Clone, Copy)]
pub enum Failure {
    /// The words are those of no command, or those after `--log` are those of no run.
    Words,
    /// The source file isn't a source.
    Source,
    /// The log file isn't a log.
    Log,
    /// The source file doesn't exist.
    NoSource,
    /// The log file doesn't exist.
    NoLog,
    /// A file or the trace couldn't be read.
    Read,
    /// The report or a picture couldn't be written.
    Write,
    /// Out of memory.
    Memory,
}

impl From<AllocError> for Failure {
    fn from(_error: AllocError) -> Failure {
        Failure::Memory
    }
}

impl From<PlacesError> for Failure {
    fn from(error: PlacesError) -> Failure {
        match error {
            PlacesError::Source => Failure::Source,
            PlacesError::Memory => Failure::Memory,
        }
    }
}

impl From<LinesError> for Failure {
    fn from(error: LinesError) -> Failure {
        match error {
            LinesError::Log => Failure::Log,
            LinesError::Memory => Failure::Memory,
        }
    }
}

impl Failure {
    /// Returns the status of the program, which is Capriccio's for the same failure, and the line for standard error,
    /// with its line feed.
    pub fn told(self) -> (u8, &'static [u8]) {
        match self {
            Failure::Words => (
                2,
                b"usage: report [--timeline FILE] [--graph FILE] [--log LOG] [--answers first|value] [--from CLOCK] [--to CLOCK] [--request N] [--why] [--help] serve SRC .. | run SRC IMG CRT ..\n",
            ),
            Failure::Source => (3, b"report: the source is refused\n"),
            Failure::Log => (4, b"report: the log is not that of a run\n"),
            Failure::NoSource => (9, b"absent: source\n"),
            Failure::NoLog => (9, b"absent: log\n"),
            Failure::Read => (6, b"fault: read\n"),
            Failure::Write => (7, b"fault: write\n"),
            Failure::Memory => (8, b"fault: memory\n"),
        }
    }
}

/// Writes the line of a failure, and returns the status.
pub fn tell<E: Sink>(err: &mut E, failure: Failure) -> u8 {
    let (status, line) = failure.told();
    match put_all(err, line) {
        Ok(()) => status,
        Err(_) => status,
    }
}
