ghost use Rattle.std.specs.Prelude.{◌≡◌};
ghost use Rattle.codegen_link.specs.declared.refusals.GenError.TheVariants.{Memory};

use std::alloc::AllocError;
use thiserror::Error;

/// Why no code was generated.
#[derive(Clone, Copy, Debug, Error)]
pub enum GenError {
    /// The code has this number of words, more than 200,000. The count saturates at the maximum of
    /// its type.
    #[error("the code has {words} words, more than 200000")]
    CodeTooLarge { words: u64 },
    /// An allocation failed.
    #[error("out of memory")]
    Memory,
}

impl From<AllocError> for GenError {
    ghost from_gives = { λ _ error. error ≡ Memory };

    fn from(_error: AllocError) -> GenError {
        GenError::Memory
    }
}
