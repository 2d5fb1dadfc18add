ghost use Rattle.std.specs.Prelude.{◌≡◌};
ghost use Rattle.run_course.specs.GoingOn.{going_on};
ghost use Rattle.run_course.specs.Steps.{stop_line};

use cap_word::{Stop, ThreadId};
use schedule_log::StopLine;
use std::alloc::AllocError;

/// Why a run fails before it reaches a stop.
#[derive(Clone, Copy, PartialEq, Eq)]
pub enum Failure {
    /// The trace couldn't be read.
    Read,
    /// The log couldn't be written.
    Write,
    /// Out of memory.
    Memory,
}

impl From<AllocError> for Failure {
    ghost use Rattle.run_course.specs.declared.ends.Failure.{Failure};

    ghost from_gives = { λ _ failure. failure ≡ Failure.Memory };

    fn from(_error: AllocError) -> Failure {
        Failure::Memory
    }
}

/// The stop of a run.
#[derive(Clone, Copy)]
pub enum Halt {
    /// Every thread has ended.
    Done,
    /// The trace is over, and no thread will be ready again.
    Idle,
    /// The line of the trace of this number, counted from 1, is refused.
    BadTrace {
        line: u64,
    },
    /// The thread's segment was cut off after this cost.
    Cut {
        thread: ThreadId,
        stop: Stop,
        cost: u64,
    },
}

impl Halt {
    /// Returns the stop's line, with this number of free chunks.
    pub fn line(self, free: u32) -> StopLine
        ensures { result ≡ stop_line self free }
    {
        match self {
            Halt::Done => StopLine::Done,
            Halt::Idle => StopLine::Idle,
            Halt::BadTrace { line } => StopLine::Trace { line },
            Halt::Cut { thread, stop, cost } => StopLine::Cut {
                thread: thread.number,
                stop,
                cost,
                free,
            },
        }
    }
}

/// Returns the result of a step that ends with this part: it continues unless the part failed.
pub fn goes_on(part: Result<(), Failure>) -> Result<Option<Halt>, Failure>
    ensures { result ≡ going_on part }
{
    match part {
        Ok(()) => Ok(None),
        Err(failure) => Err(failure),
    }
}
