// Tokens, their kinds, and why a source has no list of them.
use crate::keywords::Keyword;
use crate::marks::Mark;
use thiserror::Error;

/// A token, with its place in the source.
#[derive(Clone, Copy, PartialEq, Eq)]
pub struct Token {
    /// Its kind.
    pub kind: TokenKind,
    /// The place of its first byte, counted from 0.
    pub at: u32,
    /// Its length in bytes, at least 1.
    pub length: u32,
}

/// The kind of a token (ISO/IEC 9899:2018, 6.4).
#[derive(Clone, Copy, PartialEq, Eq)]
pub enum TokenKind {
    /// A name: a letter or `_`, followed by letters, digits and `_`; keywords aren't names.
    Name,
    /// A number, decimal or hexadecimal.
    Number {
        /// Its value, a word.
        value: u32,
    },
    /// A keyword.
    Keyword(Keyword),
    /// An operator or a separator.
    Mark(Mark),
}

/// Why a source has no list of tokens. `at` is the first place where no token begins, counted from 0.
#[derive(Clone, Copy, Debug, Error)]
pub enum LexError {
    /// The byte there is neither white space nor the beginning of a comment, a word or a mark.
    #[error("expected a token, white space or a comment at byte {at}")]
    BadByte {
        /// The byte's place.
        at: u32,
    },
    /// The comment that begins there with `/*` has no `*/`.
    #[error("expected `*/` after the `/*` at byte {at}, found the end of the source")]
    OpenComment {
        /// The place of its `/`.
        at: u32,
    },
    /// The word that begins there with a digit isn't a number, or is one above 4294967295.
    #[error("expected a number of at most 4294967295 at byte {at}")]
    BadNumber {
        /// The place of its first digit.
        at: u32,
    },
    /// An allocation failed.
    #[error("out of memory")]
    Memory,
}
