// Why a step has no successor.

use cap_word::TrapKind;
use std::alloc::AllocError;

/// Why a step has no successor.
#[derive(Clone, Copy)]
pub(crate) enum Halt {
    /// The thread traps.
    Trap(TrapKind),
    /// An allocation failed.
    Memory,
}

impl From<AllocError> for Halt {
    ghost use Rattle.std.specs.Prelude.{◌≡◌};
    ghost use Rattle.source_runs.specs.declared.halts.Halt.{Halt};

    ghost from_gives = { λ _ halt. halt ≡ Halt.Memory };

    fn from(_error: AllocError) -> Halt {
        Halt::Memory
    }
}

impl From<TrapKind> for Halt {
    ghost use Rattle.std.specs.Prelude.{◌≡◌};
    ghost use Rattle.source_runs.specs.declared.halts.Halt.{Halt};

    ghost from_gives = { λ kind halt. halt ≡ Halt.Trap kind };

    fn from(kind: TrapKind) -> Halt {
        Halt::Trap(kind)
    }
}
