// Values that are kept while the tokens after them are read. Each function is generic, so the case that such a value is
// dropped at a refusal is proved once, and not for each form of a tree. For the same reason a caller that has a tree
// drops it by `drop` in the arm of a refusal, instead of implicitly at a `?`.
ghost use Rattle.std.specs.Prelude.{◌≡◌, ◌≢◌, ◌⊎◌, [], ◌∷◌, ◌++◌, Ok, Err, IfOk, IfErr, MatchResult};
ghost use Rattle.c_grammar.specs.declared.errors.ParseError.TheVariants.{Unexpected, Memory};
ghost use Rattle.c_grammar.specs.Tokens.{next_sign, next_place, Passes};

use crate::cursor::{Cursor, Text};
use c_grammar::{ParseError, Sign};

/// Returns both values, if the next one was read.
pub(crate) fn both<T: Drop, U: Drop>(
    held: T,
    next: Result<U, ParseError>,
) -> Result<(T, U), ParseError>
    ensures held { IfOk result (λ pair. pair.0 ≡ held) }
    ensures had { IfOk result (λ pair. next ≡ Ok pair.1) }
    ensures refused { IfErr result (λ error. next ≡ Err error) }
{
    Ok((held, next?))
}

/// Returns the value, if the next token has this class; the token is taken.
pub(crate) fn before_sign<T: Drop>(
    held: T,
    text: Text,
    cursor: &mut Cursor,
    sign: Sign,
) -> Result<T, ParseError>
    ensures held { IfOk result (λ value. value ≡ held) }
    ensures taken { IfOk result (λ _. Passes sign cursor.old.tokens.now cursor.new.tokens.now) }
    ensures place { IfErr result (λ error. error ≡ Unexpected (next_place text.entry.end cursor.old.tokens.now)) }
    ensures other { IfErr result (λ error. next_sign cursor.old.tokens.now ≢ sign) }
{
    cursor.take(text, sign)?;
    Ok(held)
}

/// Returns the value in a box, if it was read.
pub(crate) fn boxed<T: Drop>(text: Text, value: Result<T, ParseError>) -> Result<Box<T>, ParseError>
    ensures had { IfOk result (λ made. value ≡ Ok made.value) }
    ensures refused { IfErr result (λ error. (error ≡ Memory) ⊎ (value ≡ Err error)) }
{
    let made = Box::new(text.alloc, value?)?;
    Ok(made)
}

/// Appends the next value to the others, if it was read.
pub(crate) fn push_next<T: Drop>(
    list: &mut Vec<T>,
    next: Result<T, ParseError>,
) -> Result<(), ParseError>
    ensures pushed { IfOk result (λ _. MatchResult next (λ value. list.new.items ≡ list.old.items ++ (value ∷ [])) (λ _. ⊥)) }
    ensures refused { IfErr result (λ error. (error ≡ Memory) ⊎ (next ≡ Err error)) }
{
    list.push(next?)?;
    Ok(())
}

/// Returns each value of the pair in a box.
pub(crate) fn boxed_pair<T: Drop>(text: Text, pair: (T, T)) -> Result<(Box<T>, Box<T>), ParseError>
    ensures held { IfOk result (λ made. (made.0.value ≡ pair.0) × (made.1.value ≡ pair.1)) }
    ensures memory { IfErr result (λ error. error ≡ Memory) }
{
    let (one, other) = pair;
    let one = Box::new(text.alloc, one)?;
    let other = Box::new(text.alloc, other)?;
    Ok((one, other))
}

/// Returns a list of the one value.
pub(crate) fn alone<T: Drop>(text: Text, value: T) -> Result<Vec<T>, ParseError>
    ensures held { IfOk result (λ made. made.items ≡ value ∷ []) }
    ensures memory { IfErr result (λ error. error ≡ Memory) }
{
    let mut made = Vec::new(text.alloc);
    made.push(value)?;
    Ok(made)
}

/// Returns the list without spare capacity: one that grows by doubling has room for at least four.
pub(crate) fn fitted<T>(mut list: Vec<T>) -> Vec<T>
    ensures { result.items ≡ list.items }
{
    list.shrink_to_fit();
    list
}
