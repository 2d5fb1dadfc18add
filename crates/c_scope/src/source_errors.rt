// Why a source text isn't a program.
ghost use Rattle.std.specs.Prelude.{◌≡◌};

use c_lex::LexError;
use c_parse::ParseError;
use cap_word::Which;
use scope_rules::ScopeError;
use thiserror::Error;

/// Why a source text isn't a program: the refusal of the first of the three stages (tokens, tree, program) that has
/// one. `at` is a place, the index of a byte of the source, counted from 0.
#[derive(Debug, Drop, Error)]
pub enum SourceError {
    /// No token begins at the byte there.
    #[error("BadByte at {at}")]
    BadByte {
        /// The byte's place.
        at: u32,
    },
    /// A comment without its end.
    #[error("OpenComment at {at}")]
    OpenComment {
        /// The place of its `/*`.
        at: u32,
    },
    /// A word that begins with a digit and isn't a number below 2^32.
    #[error("BadNumber at {at}")]
    BadNumber {
        /// The place of its first digit.
        at: u32,
    },
    /// The token there, or the end of the source, can't follow the tokens before it.
    #[error("Unexpected at {at}")]
    Unexpected {
        /// The place of the token, or the length of the source.
        at: u32,
    },
    /// At the token there, more than 64 constructs are open.
    #[error("TooDeep at {at}")]
    TooDeep {
        /// The place of the token.
        at: u32,
    },
    /// A call inside an expression; if calls inside expressions are rewritten, one in the parentheses of a `for`.
    #[error("NestedCall at {at}")]
    NestedCall {
        /// The place of the call's name.
        at: u32,
    },
    /// A name that isn't in scope, or a prototype without a definition.
    #[error("Unknown at {at}")]
    Unknown {
        /// The name's place.
        at: u32,
    },
    /// A name that is declared twice in one scope.
    #[error("Twice at {at}")]
    Twice {
        /// The later name's place.
        at: u32,
    },
    /// A wrong number of arguments or of members, or a prototype that differs from an earlier one.
    #[error("Arity at {at}")]
    Arity {
        /// The name's place.
        at: u32,
    },
    /// A name or a statement of the wrong kind for its place.
    #[error("Kind at {at}")]
    Kind {
        /// The name's or the keyword's place.
        at: u32,
    },
    /// `main` has no definition.
    #[error("NoMain")]
    NoMain,
    /// The first limit that the program exceeds.
    #[error("Limit {}", which.name())]
    Limit {
        /// The quantity.
        which: Which,
    },
    /// An allocation failed.
    #[error("out of memory")]
    Memory,
}

impl From<LexError> for SourceError {
    ghost use Rattle.c_scope.specs.SourceText.{by_lex};

    ghost from_gives = { λ refusal error. error ≡ by_lex refusal };

    fn from(refusal: LexError) -> SourceError {
        match refusal {
            LexError::BadByte { at } => SourceError::BadByte { at },
            LexError::OpenComment { at } => SourceError::OpenComment { at },
            LexError::BadNumber { at } => SourceError::BadNumber { at },
            LexError::Memory => SourceError::Memory,
        }
    }
}

impl From<ParseError> for SourceError {
    ghost use Rattle.c_scope.specs.SourceText.{by_parse};

    ghost from_gives = { λ refusal error. error ≡ by_parse refusal };

    fn from(refusal: ParseError) -> SourceError {
        match refusal {
            ParseError::Unexpected { at } => SourceError::Unexpected { at },
            ParseError::TooDeep { at } => SourceError::TooDeep { at },
            ParseError::NestedCall { at } => SourceError::NestedCall { at },
            ParseError::Memory => SourceError::Memory,
        }
    }
}

impl From<ScopeError> for SourceError {
    ghost use Rattle.c_scope.specs.SourceText.{by_scope};

    ghost from_gives = { λ refusal error. error ≡ by_scope refusal };

    fn from(refusal: ScopeError) -> SourceError {
        match refusal {
            ScopeError::Unknown { at } => SourceError::Unknown { at },
            ScopeError::Twice { at } => SourceError::Twice { at },
            ScopeError::Arity { at } => SourceError::Arity { at },
            ScopeError::Kind { at } => SourceError::Kind { at },
            ScopeError::NoMain => SourceError::NoMain,
            ScopeError::Limit { which } => SourceError::Limit { which },
            ScopeError::Memory => SourceError::Memory,
        }
    }
}
