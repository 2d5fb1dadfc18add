// Why a source isn't a program.

ghost use Rattle.std.specs.Prelude.{◌≡◌};
ghost use Rattle.scope_rules.specs.declared.errors.ScopeError.TheVariants.{Memory};

use cap_word::Which;
use std::alloc::AllocError;
use thiserror::Error;

/// Why a tree, as it is read, isn't a program (ISO/IEC 9899:2018, 6.2.1, 6.5.2.2, 6.7 and 6.8.6). `at` is
/// the least place where a rule is broken, counted from 0; if several rules are broken there, the first
/// of `Unknown`, `Twice`, `Arity`, `Kind` is reported.
#[derive(Clone, Copy, Debug, Error)]
pub enum ScopeError {
    /// A name isn't in scope there and isn't that of a modelled call, or a prototype there has no
    /// definition.
    #[error("the name at byte {at} is not in scope or has no definition")]
    Unknown {
        /// The name's place.
        at: u32,
    },
    /// A name is declared twice in one scope; prototypes of a function and its one definition don't
    /// count.
    #[error("the name at byte {at} is declared twice in one scope")]
    Twice {
        /// The later name's place.
        at: u32,
    },
    /// A call has too few or too many arguments, a table's size isn't the number of its members, or a
    /// prototype or definition differs from an earlier one.
    #[error("the number of arguments or members at byte {at} does not match the declaration")]
    Arity {
        /// The name's place.
        at: u32,
    },
    /// A name or a statement is of the wrong kind for its place.
    #[error("the name or statement at byte {at} is of the wrong kind")]
    Kind {
        /// The name's or the keyword's place.
        at: u32,
    },
    /// No rule is broken, but `main` has no definition.
    #[error("expected a definition of `main`, found none")]
    NoMain,
    /// No rule is broken, but the program exceeds this limit, and none before it.
    #[error("the program exceeds the limit of {}", which.name())]
    Limit {
        /// The quantity.
        which: Which,
    },
    /// An allocation failed.
    #[error("out of memory")]
    Memory,
}

impl From<AllocError> for ScopeError {
    ghost from_gives = { λ _ error. error ≡ Memory };

    fn from(_error: AllocError) -> ScopeError {
        ScopeError::Memory
    }
}
