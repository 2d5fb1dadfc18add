// The answer of an audit.
ghost use Rattle.std.specs.Prelude.{◌≡◌};
ghost use Rattle.schedule_audit.specs.Verdicts.{verdict_by};

use lawful_reading::Judgement;
use schedule_reading::Failure;

/// The verdict on a log. Lines are counted from 1.
#[derive(Clone, Copy, PartialEq, Eq)]
pub enum Verdict {
    /// Every line is allowed, and the last is a stop.
    Lawful,
    /// `line` is the first line that isn't allowed, or the number of lines plus 1 if all are allowed and none is a
    /// stop.
    Unlawful { line: u64 },
    /// All earlier lines are allowed, and `line` needs, together with them, more steps than the limit.
    Steps { line: u64 },
    /// A read of the trace failed.
    ReadFault,
    /// Out of memory.
    Memory,
}

/// Returns the verdict: the judgement on the log, or why its reading failed.
pub(crate) fn verdict_of(judged: Result<Judgement, Failure>) -> Verdict
    ensures { result ≡ verdict_by judged }
{
    match judged {
        Ok(Judgement::Lawful) => Verdict::Lawful,
        Ok(Judgement::Unlawful { line }) => Verdict::Unlawful { line },
        Ok(Judgement::Steps { line }) => Verdict::Steps { line },
        Err(Failure::Read) => Verdict::ReadFault,
        Err(Failure::Memory) => Verdict::Memory,
    }
}
