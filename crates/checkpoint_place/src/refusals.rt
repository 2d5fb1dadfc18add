ghost use Rattle.std.specs.Prelude.{◌≡◌};
ghost use Rattle.checkpoint_place.specs.declared.refusals.PlaceError.TheVariants.{Memory};

use std::alloc::AllocError;
use thiserror::Error;

/// Why there is no plan.
#[derive(Clone, Copy, Debug, PartialEq, Eq, Error)]
pub enum PlaceError {
    /// The frame of this function, the first such one, exceeds max path or 2,032 bytes.
    #[error("the frame of function {function} is {bytes} bytes, too large")]
    FrameTooLarge { function: u32, bytes: u32 },
    /// An allocation failed.
    #[error("out of memory")]
    Memory,
}

impl From<AllocError> for PlaceError {
    ghost from_gives = { λ _ error. error ≡ Memory };

    fn from(_error: AllocError) -> PlaceError {
        PlaceError::Memory
    }
}
