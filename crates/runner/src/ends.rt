ghost use Rattle.std.specs.Prelude.{◌≡◌};
ghost use Rattle.runner.specs.Ends as ends;
ghost use Rattle.runner.specs.Ends.{failure_end, halt_end};

use cap_word::{Stop, ThreadId, TrapKind};
use run_course::{Failure, Halt};

/// The end of a run.
#[derive(Clone, Copy, PartialEq, Eq)]
pub enum RunEnd {
    /// Every thread has ended.
    Done,
    /// The trace is over, and no thread will be ready again.
    Idle,
    /// The thread trapped.
    Trap { thread: ThreadId, kind: TrapKind },
    /// The thread needed a chunk, and no free chunk fits its need.
    NoChunk { thread: ThreadId },
    /// The fuel is spent, in a segment of the thread.
    Fuel { thread: ThreadId },
    /// The thread asked to start another while 65,535 threads were live.
    Threads { thread: ThreadId },
    /// The line of the trace of this number, counted from 1, is refused.
    BadTrace { line: u64 },
    /// The trace couldn't be read.
    ReadFault,
    /// The log couldn't be written.
    WriteFault,
    /// Out of memory.
    Memory,
}

/// The end of a run under the stride rule, with the same variants.
pub type StrideEnd = RunEnd;

/// Returns the end of a run that stops here.
pub(crate) fn end_of(halt: Halt) -> RunEnd
    ensures { result ≡ halt_end halt }
{
    match halt {
        Halt::Done => RunEnd::Done,
        Halt::Idle => RunEnd::Idle,
        Halt::BadTrace { line } => RunEnd::BadTrace { line },
        Halt::Cut { thread, stop, .. } => cut_end(thread, stop),
    }
}

fn cut_end(thread: ThreadId, stop: Stop) -> RunEnd
    ensures { result ≡ ends.cut_end thread stop }
{
    match stop {
        Stop::Trap(kind) => RunEnd::Trap { thread, kind },
        Stop::NoChunk => RunEnd::NoChunk { thread },
        Stop::Fuel => RunEnd::Fuel { thread },
        Stop::Threads => RunEnd::Threads { thread },
    }
}

/// Returns the end of a run that fails.
pub(crate) fn failed_end(failure: Failure) -> RunEnd
    ensures { result ≡ failure_end failure }
{
    match failure {
        Failure::Read => RunEnd::ReadFault,
        Failure::Write => RunEnd::WriteFault,
        Failure::Memory => RunEnd::Memory,
    }
}
