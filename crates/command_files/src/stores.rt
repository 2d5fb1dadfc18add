// Stores the files of a command.
ghost use Rattle.std.specs.Prelude.{◌≡◌, ◌∷◌, []};
ghost use Rattle.command_outcomes.specs.Steps.{AreStores};

use cap_io::{Shelf, ShelfError};
use command_outcomes::{Fault, Stop};
use std::alloc::Global;

/// Stores two files, one after the other.
pub fn store_both<F: Shelf>(
    alloc: Global,
    shelf: &mut F,
    name: &str,
    bytes: &[u8],
    other_name: &str,
    other_bytes: &[u8],
) -> Result<(), Stop>
    ensures stored { AreStores ((name.now, bytes.now) ∷ (other_name.now, other_bytes.now) ∷ [])
        (F.files shelf.old) (F.files shelf.new) (F.store_faults shelf.old)
        (F.store_faults shelf.new) result }
    ensures loads { F.load_faults shelf.new ≡ F.load_faults shelf.old }
{
    store(alloc, shelf, name, bytes)?;
    store(alloc, shelf, other_name, other_bytes)
}

/// Stores a file.
fn store<F: Shelf>(alloc: Global, shelf: &mut F, name: &str, bytes: &[u8]) -> Result<(), Stop>
    ensures stored { AreStores ((name.now, bytes.now) ∷ []) (F.files shelf.old) (F.files shelf.new)
        (F.store_faults shelf.old) (F.store_faults shelf.new) result }
    ensures loads { F.load_faults shelf.new ≡ F.load_faults shelf.old }
{
    match shelf.store(alloc, name, bytes) {
        Ok(()) => Ok(()),
        Err(ShelfError::Memory) => Err(Stop::Failed(Fault::Memory)),
        Err(ShelfError::Failed) => Err(Stop::Failed(Fault::Write)),
        Err(ShelfError::TooLong) => unreachable!(),
        Err(ShelfError::Absent) => unreachable!(),
    }
}
