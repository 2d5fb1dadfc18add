ghost use Rattle.std.specs.Prelude.{◌≡◌};
ghost use Rattle.stack_build.specs.declared.refusals.BuildError.TheVariants.{Memory};

use checkpoint_place::PlaceError;
use codegen_link::GenError;
use std::alloc::AllocError;
use thiserror::Error;

/// Why a program isn't built.
#[derive(Clone, Copy, Debug, Error)]
pub enum BuildError {
    /// The frame of this function, the first such one, exceeds max path or 2,032 bytes.
    #[error("the frame of function {function} has {bytes} bytes, more than the maximum path or 2032")]
    FrameTooLarge { function: u32, bytes: u32 },
    /// The code has this number of words, more than 200,000. The count saturates at the maximum of
    /// its type.
    #[error("the code has {words} words, more than 200000")]
    CodeTooLarge { words: u64 },
    /// An allocation failed.
    #[error("out of memory")]
    Memory,
}

impl From<AllocError> for BuildError {
    ghost from_gives = { λ _ error. error ≡ Memory };

    fn from(_error: AllocError) -> BuildError {
        BuildError::Memory
    }
}

impl From<PlaceError> for BuildError {
    ghost use Rattle.stack_build.specs.Refusals.{of_place};

    ghost from_gives = { λ refusal error. error ≡ of_place refusal };

    fn from(refusal: PlaceError) -> BuildError {
        match refusal {
            PlaceError::FrameTooLarge { function, bytes } => {
                BuildError::FrameTooLarge { function, bytes }
            }
            PlaceError::Memory => BuildError::Memory,
        }
    }
}

impl From<GenError> for BuildError {
    ghost use Rattle.stack_build.specs.Refusals.{of_generate};

    ghost from_gives = { λ refusal error. error ≡ of_generate refusal };

    fn from(refusal: GenError) -> BuildError {
        match refusal {
            GenError::CodeTooLarge { words } => BuildError::CodeTooLarge { words },
            GenError::Memory => BuildError::Memory,
        }
    }
}
