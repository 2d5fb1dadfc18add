// Shelves in memory.
ghost use Rattle.std.specs.Prelude.{◌≡◌, ◌^◌, ◌<◌, ◌≤◌, IfOk, Some, vec_len};
ghost use Rattle.cap_io.specs.Entries.{entries_of, file_in};
ghost use Rattle.cap_io.specs.Files.{KeepsFiles};
ghost use Rattle.cap_io.specs.Shelves.{Loads, CountsLoads, NeverFails, Stores, CountsStores};
ghost use Rattle.cap_io.specs.MemoryShelf.{LoadsMemory, StoresMemory, StoresClean, kept_of};

use super::file_list::FileList;
use super::{Shelf, ShelfError};
use std::alloc::Global;
use std::marker::Model;

/// A shelf of given files that fails at given calls. Contracts see its contents: names and bytes, the number of loads
/// and stores together, the calls that fail, and the numbers of failed loads and failed stores.
#[derive(Drop)]
pub struct MemShelf {
    files: FileList,
    calls: u64,
    fails: Vec<(u64, u32)>,
    load_faults: u64,
    store_faults: u64,
}

impl Model for MemShelf {
    ghost use Rattle.std.specs.Prelude.{◌<◌, ◌^◌};
    ghost use Rattle.cap_io.specs.MemoryShelf.{ShelfState};

    ghost Value = { ShelfState };

    ghost view = { λ s. record { entries = s.files; calls = s.calls; fails = s.fails.items; load_faults = s.load_faults; store_faults = s.store_faults } };

    ghost invariant = { λ s. (s.load_faults < 2 ^ 64) × (s.store_faults < 2 ^ 64) };
}

impl MemShelf {
    /// Returns a shelf of `files`, pairs of a name and bytes; of two files with the same name the first counts. It
    /// fails at the calls that `fails` lists, counted from 1 over loads and stores together; the number beside a call
    /// is the number of bytes that a store leaves if it fails there. It doesn't allocate, so `_alloc` isn't used.
    pub fn new(_alloc: Global, files: Vec<(String, Vec<u8>)>, fails: Vec<(u64, u32)>) -> Self
        ensures { result ≡ record { entries = entries_of files.items; calls = 0; fails = fails.items; load_faults = 0; store_faults = 0 } }
    {
        MemShelf {
            files: FileList::new(files),
            calls: 0,
            fails,
            load_faults: 0,
            store_faults: 0,
        }
    }
}

impl Shelf for MemShelf {
    ghost use Rattle.std.specs.Prelude.{Some};
    ghost use Rattle.cap_io.specs.Entries.{file_in};

    ghost load_faults = { λ s. s.load_faults };

    ghost store_faults = { λ s. s.store_faults };

    ghost files = { λ s. Some (file_in s.entries) };

    /// Loads a file as the trait says; a call fails exactly if it is listed.
    fn load(&mut self, alloc: Global, name: &str, max: u32) -> Result<Vec<u8>, ShelfError>
        ensures bound { IfOk result (λ bytes. vec_len bytes ≤ max) }
        ensures file { Loads (Some (file_in self.old.entries)) name.now max result }
        ensures unchanged { KeepsFiles (Some (file_in self.old.entries)) (Some (file_in self.new.entries)) }
        ensures counts { CountsLoads result self.old.load_faults self.new.load_faults }
        ensures never_falls { self.old.load_faults ≤ self.new.load_faults }
        ensures fits { self.new.load_faults < 2 ^ 64 }
        ensures no_store { self.new.store_faults ≡ self.old.store_faults }
        ensures exact { LoadsMemory self.old self.new result }
    {
        self.calls = self.calls.saturating_add(1);
        if kept_at(&self.fails, self.calls).is_some() {
            self.load_faults = self.load_faults.saturating_add(1);
            return Err(ShelfError::Failed);
        }
        self.files.load(alloc, name, max)
    }

    /// Stores a file as the trait says; a call fails exactly if it is listed, and then leaves the listed number of
    /// bytes, or all if there are fewer. After Memory no file has changed.
    fn store(&mut self, alloc: Global, name: &str, bytes: &[u8]) -> Result<(), ShelfError>
        ensures file { Stores (Some (file_in self.old.entries)) (Some (file_in self.new.entries)) name.now bytes.now result }
        ensures counts { CountsStores result self.old.store_faults self.new.store_faults }
        ensures never_falls { self.old.store_faults ≤ self.new.store_faults }
        ensures fits { self.new.store_faults < 2 ^ 64 }
        ensures no_load { self.new.load_faults ≡ self.old.load_faults }
        ensures exact { StoresMemory self.old self.new name.now bytes.now result }
    {
        self.calls = self.calls.saturating_add(1);
        let failing = kept_at(&self.fails, self.calls);
        let kept = failing.map_or(bytes.len(), |most| bytes.len().min(most as usize));
        if self.files.put(alloc, name, &bytes[..kept]).is_err() {
            return Err(ShelfError::Memory);
        }
        if failing.is_some() {
            self.store_faults = self.store_faults.saturating_add(1);
            return Err(ShelfError::Failed);
        }
        Ok(())
    }
}

/// Returns the number of bytes that a store leaves if it is this call, or `None` if the call doesn't fail.
fn kept_at(fails: &[(u64, u32)], call: u64) -> Option<u32>
    ensures { result ≡ kept_of fails.now call }
{
    let found = fails.iter().find(|fail| fail.0 == call);
    found.map(|fail| fail.1)
}

/// A shelf of given files that never fails. Contracts see the names and the bytes.
#[derive(Drop)]
pub struct CleanShelf {
    files: FileList,
}

impl Model for CleanShelf {
    ghost use Rattle.cap_io.specs.Entries.{Entries};

    ghost Value = { Entries };

    ghost view = { λ s. s.files };
}

impl CleanShelf {
    /// Returns a shelf of `files`, pairs of a name and bytes; of two files with the same name the first counts. It
    /// doesn't allocate, so `_alloc` isn't used.
    pub fn new(_alloc: Global, files: Vec<(String, Vec<u8>)>) -> Self
        ensures { result ≡ entries_of files.items }
    {
        CleanShelf {
            files: FileList::new(files),
        }
    }
}

impl Shelf for CleanShelf {
    ghost use Rattle.std.specs.Prelude.{Some};
    ghost use Rattle.cap_io.specs.Entries.{file_in};

    ghost load_faults = { λ _. 0 };

    ghost store_faults = { λ _. 0 };

    ghost files = { λ s. Some (file_in s) };

    /// Loads a file as the trait says; it never returns Failed.
    fn load(&mut self, alloc: Global, name: &str, max: u32) -> Result<Vec<u8>, ShelfError>
        ensures bound { IfOk result (λ bytes. vec_len bytes ≤ max) }
        ensures file { Loads (Some (file_in self.old)) name.now max result }
        ensures unchanged { self.new ≡ self.old }
        ensures never_fails { NeverFails result }
        ensures counts { CountsLoads result 0 0 }
    {
        self.files.load(alloc, name, max)
    }

    /// Stores a file as the trait says; it never returns Failed, and after Memory no file has changed.
    fn store(&mut self, alloc: Global, name: &str, bytes: &[u8]) -> Result<(), ShelfError>
        ensures file { Stores (Some (file_in self.old)) (Some (file_in self.new)) name.now bytes.now result }
        ensures never_fails { CountsStores result 0 0 }
        ensures exact { StoresClean self.old self.new name.now bytes.now result }
    {
        if self.files.put(alloc, name, bytes).is_err() {
            return Err(ShelfError::Memory);
        }
        Ok(())
    }
}
