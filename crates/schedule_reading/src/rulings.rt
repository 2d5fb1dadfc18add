// The ruling on one line, and why a reading fails.
ghost use Rattle.std.specs.Prelude.{◌≡◌};
ghost use Rattle.schedule_reading.specs.Ruled.{ruled};

use std::alloc::AllocError;

/// The ruling on one line.
#[derive(Clone, Copy, PartialEq, Eq)]
pub enum Ruling {
    /// The line is allowed here.
    Allowed,
    /// The line isn't allowed here.
    Refused,
    /// A ruling needs more steps of the source than the limit.
    OutOfSteps,
}

/// Why a reading fails.
#[derive(Clone, Copy, PartialEq, Eq)]
pub enum Failure {
    /// The trace couldn't be read.
    Read,
    /// Out of memory.
    Memory,
}

impl From<AllocError> for Failure {
    ghost use Rattle.std.specs.Prelude.{◌≡◌};
    ghost use Rattle.schedule_reading.specs.declared.rulings.Failure.{Failure};

    ghost from_gives = { λ _ failure. failure ≡ Failure.Memory };

    fn from(_error: AllocError) -> Failure {
        Failure::Memory
    }
}

/// Returns `Allowed` if the condition holds, and otherwise `Refused`.
pub fn ruling_of(holds: bool) -> Ruling
    ensures { result ≡ ruled holds }
{
    if holds {
        Ruling::Allowed
    } else {
        Ruling::Refused
    }
}
