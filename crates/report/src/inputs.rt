use crate::failures::Failure;
use cap_io::{Shelf, ShelfError};
use std::alloc::Global;

/// Loads a file. If it doesn't exist, the failure is `absent`.
pub fn load<F: Shelf>(
    alloc: Global,
    shelf: &mut F,
    name: &str,
    most: u32,
    absent: Failure,
) -> Result<Vec<u8>, Failure> {
    match shelf.load(alloc, name, most) {
        Ok(bytes) => Ok(bytes),
        Err(ShelfError::Memory) => Err(Failure::Memory),
        Err(ShelfError::Absent) => Err(absent),
        Err(_) => Err(Failure::Read),
    }
}

/// Stores a picture.
pub fn store<F: Shelf>(
    alloc: Global,
    shelf: &mut F,
    name: &str,
    text: &str,
) -> Result<(), Failure> {
    match shelf.store(alloc, name, text.as_bytes()) {
        Ok(()) => Ok(()),
        Err(ShelfError::Memory) => Err(Failure::Memory),
        Err(_) => Err(Failure::Write),
    }
}
