// The current folder as a shelf.
ghost use Rattle.std.specs.Prelude.{◌≡◌, ◌≤◌, IfOk, OnOk, vec_len};
ghost use Rattle.cap_io.specs.FaultCounts.{FaultCounts};

use super::{Shelf, ShelfError};
use std::alloc::Global;
use std::fs;
use std::fs::File;
use std::io::{ErrorKind, Read};
use std::marker::Model;
use std::rt::Files;

/// A shelf over the current folder: a name is a path in it. It doesn't expose its files. Contracts see its two counts
/// of faults, which rise at each error of the system except one: a load of a file that doesn't exist is Absent.
#[derive(Drop)]
pub struct DirShelf<R: Files + Drop> {
    rt: R,
    load_faults: u64,
    store_faults: u64,
}

impl<R: Files + Drop> Model for DirShelf<R> {
    ghost use Rattle.std.specs.Prelude.{◌<◌, ◌^◌};
    ghost use Rattle.cap_io.specs.FaultCounts.{FaultCounts};

    ghost Value = { FaultCounts };

    ghost view = { λ s. record { loads = s.load_faults; stores = s.store_faults } };

    ghost invariant = { λ s. (s.load_faults < 2 ^ 64) × (s.store_faults < 2 ^ 64) };
}

impl<R: Files + Drop> DirShelf<R> {
    /// Returns the current folder of the process, with no faults so far.
    pub fn new(rt: R) -> Self
        ensures { result ≡ record { loads = 0; stores = 0 } }
    {
        DirShelf {
            rt,
            load_faults: 0,
            store_faults: 0,
        }
    }
}

impl<R: Files + Drop> Shelf for DirShelf<R> {
    ghost use Rattle.std.specs.Prelude.{None};

    ghost load_faults = { λ s. s.loads };

    ghost store_faults = { λ s. s.stores };

    ghost files = { λ _. None };

    fn load(&mut self, alloc: Global, name: &str, max: u32) -> Result<Vec<u8>, ShelfError> {
        let outcome = read_file(&self.rt, alloc, name, max);
        if matches!(outcome, Err(ShelfError::Failed)) {
            self.load_faults = self.load_faults.saturating_add(1);
        }
        outcome
    }

    fn store(&mut self, _alloc: Global, name: &str, bytes: &[u8]) -> Result<(), ShelfError> {
        if fs::write(&self.rt, name, bytes).is_err() {
            self.store_faults = self.store_faults.saturating_add(1);
            return Err(ShelfError::Failed);
        }
        Ok(())
    }
}

/// Returns the bytes of a file of at most `max` bytes.
fn read_file<R: Files>(rt: &R, alloc: Global, name: &str, max: u32) -> Result<Vec<u8>, ShelfError>
    ensures { IfOk result (λ bytes. vec_len bytes ≤ max) }
{
    match File::open(rt, name) {
        Ok(mut file) => {
            let answer = read_rest(&mut file, alloc, max);
            drop(file);
            answer
        }
        Err(error) => {
            let kind = error.kind();
            drop(error);
            if kind == ErrorKind::NotFound {
                Err(ShelfError::Absent)
            } else {
                Err(ShelfError::Failed)
            }
        }
    }
}

/// Returns the bytes of an open file of at most `max` bytes.
fn read_rest<F: Read>(file: &mut F, alloc: Global, max: u32) -> Result<Vec<u8>, ShelfError>
    ensures { IfOk result (λ bytes. vec_len bytes ≤ max) }
{
    let mut bytes = Vec::new(alloc);
    match read_into(file, &mut bytes, max) {
        Ok(()) => Ok(bytes),
        Err(error) => {
            drop(bytes);
            Err(error)
        }
    }
}

/// Appends the rest of an open file, up to `max` bytes in all.
fn read_into<F: Read>(file: &mut F, bytes: &mut Vec<u8>, max: u32) -> Result<(), ShelfError>
    requires { vec_len bytes.old ≤ max }
    ensures { OnOk result (vec_len bytes.new ≤ max) }
{
    let mut block = [0u8; 4096];
    loop {
        let Ok(count) = file.read(&mut block) else {
            return Err(ShelfError::Failed);
        };
        if count == 0 {
            return Ok(());
        }
        if count > max as usize - bytes.len() {
            return Err(ShelfError::TooLong);
        }
        if bytes.extend_from_slice(&block[..count]).is_err() {
            return Err(ShelfError::Memory);
        }
    }
}
