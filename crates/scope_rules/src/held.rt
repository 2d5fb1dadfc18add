// Values that are kept while the next ones are built. Each function is generic, so the case that such a value is
// dropped because an allocation failed is proved once, and not for each form of a tree.

ghost use Rattle.std.specs.Prelude.{◌≡◌, [], ◌∷◌, ◌++◌, Ok, IfOk, MatchResult};

use std::alloc::{AllocError, Global};

/// Returns both values, if the next one could be allocated.
pub fn both<T: Drop, U>(before: T, next: Result<U, AllocError>) -> Result<(T, U), AllocError>
    ensures before { IfOk result (λ p. p.0 ≡ before) }
    ensures next { IfOk result (λ p. next ≡ Ok p.1) }
{
    Ok((before, next?))
}

/// Returns the value in a box, if both could be allocated.
pub fn boxed<T: Drop>(alloc: Global, value: Result<T, AllocError>) -> Result<Box<T>, AllocError>
    ensures { IfOk result (λ made. value ≡ Ok made.value) }
{
    Ok(Box::new(alloc, value?)?)
}

/// Returns the list with one more element, if it could be allocated.
pub fn with_next<T: Drop>(
    mut list: Vec<T>,
    next: Result<T, AllocError>,
) -> Result<Vec<T>, AllocError>
    ensures { IfOk result (λ longer. MatchResult next (λ value. longer.items ≡ list.items ++ (value ∷ [])) (λ _. ⊥)) }
{
    list.push(next?)?;
    Ok(list)
}
