use std::alloc::AllocError;

/// Appends an item to a list.
pub fn push<T: Drop>(all: &mut Vec<T>, one: T) -> Result<(), AllocError> {
    match all.push(one) {
        Ok(()) => Ok(()),
        Err(_) => Err(AllocError),
    }
}
