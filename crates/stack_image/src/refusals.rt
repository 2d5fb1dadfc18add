ghost use Rattle.std.specs.Prelude.{◌≡◌};
ghost use Rattle.stack_image.specs.declared.refusals.ImageError.TheVariants.{Memory};

use cap_word::Which;
use std::alloc::{AllocError, AllocFailed};
use thiserror::Error;

/// Why bytes aren't an image. If several variants apply, `read_image` says which takes precedence.
/// Places are byte indices, from 0.
#[derive(Clone, Copy, Debug, PartialEq, Eq, Error)]
pub enum ImageError {
    /// The first bytes aren't those of an image.
    #[error("expected the first bytes of an image")]
    Magic,
    /// The bytes end at `at`, before the end of the image.
    #[error("expected more bytes, found the end at byte {at}")]
    Short { at: u32 },
    /// The image ends at `at`, before the end of the bytes.
    #[error("expected the end at byte {at}, found more bytes")]
    Long { at: u32 },
    /// A number of words exceeds its limit.
    #[error("the image exceeds the limit of {}", which.name())]
    Limit { which: Which },
    /// An allocation failed.
    #[error("out of memory")]
    Memory,
}

impl From<AllocError> for ImageError {
    ghost from_gives = { λ _ error. error ≡ Memory };

    fn from(_error: AllocError) -> ImageError {
        ImageError::Memory
    }
}

impl<T: Drop> From<AllocFailed<T>> for ImageError {
    ghost from_gives = { λ _ error. error ≡ Memory };

    fn from(_error: AllocFailed<T>) -> ImageError {
        ImageError::Memory
    }
}
