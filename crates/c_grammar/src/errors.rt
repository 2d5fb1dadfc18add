// Why the tokens of a source have no tree.
ghost use Rattle.std.specs.Prelude.{◌≡◌};
ghost use Rattle.c_grammar.specs.declared.errors.ParseError.TheVariants.{Memory};

use std::alloc::{AllocError, AllocFailed};
use thiserror::Error;

/// Why the tokens of a source have no tree. Places are byte indices, counted from 0.
#[derive(Clone, Copy, Debug, Error)]
pub enum ParseError {
    /// The token there, or the end of the source, can't follow the tokens before it.
    #[error("the token or the end of the source at byte {at} cannot follow the tokens before it")]
    Unexpected {
        /// The place of the token, or the length of the source.
        at: u32,
    },
    /// At the token there, more than 64 constructs are open.
    #[error("more than 64 constructs are open at byte {at}")]
    TooDeep {
        /// The place of the token.
        at: u32,
    },
    /// The call of the name there is inside an expression; for `parse_nested`, inside one in the parentheses of a
    /// `for`.
    #[error("expected no call inside the expression, found one at byte {at}")]
    NestedCall {
        /// The place of the call's name.
        at: u32,
    },
    /// An allocation failed.
    #[error("out of memory")]
    Memory,
}

impl From<AllocError> for ParseError {
    ghost from_gives = { λ _ error. error ≡ Memory };

    fn from(_error: AllocError) -> ParseError {
        ParseError::Memory
    }
}

impl<T: Drop> From<AllocFailed<T>> for ParseError {
    ghost from_gives = { λ _ error. error ≡ Memory };

    fn from(_error: AllocFailed<T>) -> ParseError {
        ParseError::Memory
    }
}
