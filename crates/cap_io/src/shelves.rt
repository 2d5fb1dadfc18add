// Objects that store files by name.
ghost use Rattle.std.specs.Prelude.{◌≡◌, ℕ, ◌^◌, ◌<◌, ◌≤◌, IfOk, vec_len, Option};
ghost use Rattle.cap_io.specs.Files.{Files, KeepsFiles};
ghost use Rattle.cap_io.specs.Shelves.{Loads, CountsLoads, Stores, CountsStores};

use std::alloc::Global;
use thiserror::Error;

/// Why a shelf refused a load or a store. A store returns only Failed or Memory.
#[derive(Clone, Copy, Debug, PartialEq, Eq, Error)]
pub enum ShelfError {
    #[error("a load or a store failed")]
    Failed,
    #[error("the file is longer than the maximum")]
    TooLong,
    #[error("there is no such file")]
    Absent,
    #[error("out of memory")]
    Memory,
}

/// An object that stores files by name, like a folder.
///
/// `load_faults` and `store_faults` count its failed loads and failed stores; `files` has the bytes of each file by its
/// name, if the shelf exposes them.
pub trait Shelf {
    ghost load_faults: { Self → ℕ };

    ghost store_faults: { Self → ℕ };

    ghost files: { Self → Option Files };

    /// Returns the bytes of the file `name`. No file changes.
    ///
    /// # Errors
    ///
    /// If the shelf exposes its files: TooLong exactly if the file has more than `max` bytes, and Absent exactly if
    /// there is no such file, unless Failed or Memory takes precedence. Failed only if the count of failed loads rose,
    /// or is at its maximum; otherwise the count is unchanged.
    fn load(&mut self, alloc: Global, name: &str, max: u32) -> Result<Vec<u8>, ShelfError>
        ensures bound { IfOk result (λ bytes. vec_len bytes ≤ max) }
        ensures file { Loads (files self.old) name.now max result }
        ensures unchanged { KeepsFiles (files self.old) (files self.new) }
        ensures counts { CountsLoads result (load_faults self.old) (load_faults self.new) }
        ensures never_falls { load_faults self.old ≤ load_faults self.new }
        ensures fits { load_faults self.new < 2 ^ 64 }
        ensures no_store { store_faults self.new ≡ store_faults self.old };

    /// Stores `bytes` in the file `name`. All other files stay the same.
    ///
    /// # Errors
    ///
    /// Failed only if the count of failed stores rose, or is at its maximum; the file then has a prefix of `bytes`.
    /// After Memory, at which the count is unchanged, it has a prefix or its old contents. There are no other refusals.
    fn store(&mut self, alloc: Global, name: &str, bytes: &[u8]) -> Result<(), ShelfError>
        ensures file { Stores (files self.old) (files self.new) name.now bytes.now result }
        ensures counts { CountsStores result (store_faults self.old) (store_faults self.new) }
        ensures never_falls { store_faults self.old ≤ store_faults self.new }
        ensures fits { store_faults self.new < 2 ^ 64 }
        ensures no_load { load_faults self.new ≡ load_faults self.old };
}
