// A list of files in memory, with their names and bytes.
ghost use Rattle.std.specs.Prelude.{◌≡◌, ◌≤◌, OnOk, OnErr, IfOk, vec_len, string_bytes};
ghost use Rattle.std.specs.Str.{bytes_eq};
ghost use Rattle.std.specs.List.{position};
ghost use Rattle.cap_io.specs.Entries.{entries_of, file_in, put_file};
ghost use Rattle.cap_io.specs.Shelves.{LoadsFile, NeverFails};

use super::ShelfError;
use std::alloc::{AllocError, Global};
use std::marker::Model;

/// Files by name; of two files with the same name the first counts. Contracts see the list of names
/// and bytes.
#[derive(Drop)]
pub(crate) struct FileList {
    files: Vec<(String, Vec<u8>)>,
}

impl Model for FileList {
    ghost use Rattle.cap_io.specs.Entries.{Entries, entries_of};

    ghost Value = { Entries };

    ghost view = { λ s. entries_of s.files.items };
}

impl FileList {
    pub(crate) fn new(files: Vec<(String, Vec<u8>)>) -> Self
        ensures { result ≡ entries_of files.items }
    {
        FileList { files }
    }

    /// Returns a copy of the file's bytes, if there is such a file and it has at most `max` bytes.
    pub(crate) fn load(&self, alloc: Global, name: &str, max: u32) -> Result<Vec<u8>, ShelfError>
        ensures file { LoadsFile (file_in self.now name.now) max result }
        ensures bound { IfOk result (λ bytes. vec_len bytes ≤ max) }
        ensures never_fails { NeverFails result }
    {
        let Some(place) = place_of(&self.files, name) else {
            return Err(ShelfError::Absent);
        };
        let bytes = &self.files[place].1;
        if bytes.len() > max as usize {
            return Err(ShelfError::TooLong);
        }
        let Ok(copy) = Vec::from_slice(alloc, bytes) else {
            return Err(ShelfError::Memory);
        };
        Ok(copy)
    }

    /// Stores the bytes under the name, and replaces the file's old contents if there is such a
    /// file.
    pub(crate) fn put(&mut self, alloc: Global, name: &str, bytes: &[u8]) -> Result<(), AllocError>
        ensures ok { OnOk result (self.new ≡ put_file self.old name.now bytes.now) }
        ensures err { OnErr result (self.new ≡ self.old) }
    {
        let copy = Vec::from_slice(alloc, bytes)?;
        match place_of(&self.files, name) {
            Some(place) => self.files[place].1 = copy,
            None => {
                let name = String::from_str(alloc, name)?;
                self.files.push((name, copy))?;
            }
        }
        Ok(())
    }
}

/// Returns the index of the first file of that name.
fn place_of(files: &[(String, Vec<u8>)], name: &str) -> Option<usize>
    ensures { result ≡ position (λ file. bytes_eq (string_bytes file.0) name.now) files.now }
{
    files.iter().position(|file| file.0.as_str() == name)
}
