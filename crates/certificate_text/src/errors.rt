// Why a text isn't a certificate.
ghost use Rattle.std.specs.Prelude.{◌≡◌};
ghost use Rattle.certificate_text.specs.declared.errors.CertError.TheVariants.{Memory};

use std::alloc::{AllocError, AllocFailed};
use thiserror::Error;

/// Why bytes aren't read as a certificate.
#[derive(Clone, Copy, Debug, Error)]
pub enum CertError {
    /// The line with this number, counted from 1, is the first that breaks the format, is missing, is one too many, or
    /// lacks its LF.
    #[error("line {number} is not the expected line of a certificate")]
    Line { number: u32 },
    /// An allocation failed.
    #[error("out of memory")]
    Memory,
}

impl From<AllocError> for CertError {
    ghost from_gives = { λ _ error. error ≡ Memory };

    fn from(_error: AllocError) -> CertError {
        CertError::Memory
    }
}

impl<T: Drop> From<AllocFailed<T>> for CertError {
    ghost from_gives = { λ _ error. error ≡ Memory };

    fn from(_error: AllocFailed<T>) -> CertError {
        CertError::Memory
    }
}
