// Values that are held while something may fail, as generic functions: the drop of a value is one step there, whatever
// its type.
ghost use Rattle.std.specs.Prelude.{◌≡◌, Ok, IfOk};

use std::alloc::AllocError;

/// Returns the held value and the next one, if that succeeded.
pub(crate) fn both<T: Drop, U: Drop>(
    held: T,
    next: Result<U, AllocError>,
) -> Result<(T, U), AllocError>
    ensures held { IfOk result (λ pair. pair.0 ≡ held) }
    ensures had { IfOk result (λ pair. next ≡ Ok pair.1) }
{
    match next {
        Ok(next) => Ok((held, next)),
        Err(error) => Err(error),
    }
}

/// Returns the held value, if something else succeeded.
pub(crate) fn after<T: Drop>(held: T, done: Result<(), AllocError>) -> Result<T, AllocError>
    ensures held { IfOk result (λ value. value ≡ held) }
    ensures done { IfOk result (λ value. done ≡ Ok tt) }
{
    match done {
        Ok(()) => Ok(held),
        Err(error) => Err(error),
    }
}

/// Returns all three values, if each succeeded.
pub(crate) fn all<T: Drop, U: Drop, V: Drop>(
    first: Result<T, AllocError>,
    second: Result<U, AllocError>,
    third: Result<V, AllocError>,
) -> Result<(T, U, V), AllocError>
    ensures first { IfOk result (λ made. first ≡ Ok made.0) }
    ensures second { IfOk result (λ made. second ≡ Ok made.1) }
    ensures third { IfOk result (λ made. third ≡ Ok made.2) }
{
    Ok((first?, second?, third?))
}
