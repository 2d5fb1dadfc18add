// One region of memory, as words.
ghost use Rattle.std.specs.Prelude.{◌≡◌, ◌+◌, ◌^◌, ◌<◌, ◌≤◌, [], length, take, drop, replicate, slice_index, slice_set, IfOk};

use crate::block::{Deed, Start, Words, allocate, deallocate};
use std::alloc::{AllocError, Global};
use std::marker::Model;

/// One block of memory, all words of which are written. `drop` deallocates it once.
pub(crate) struct Region {
    start: Start,
    len: usize,
    words: Words,
    deed: Deed<Global>,
    alloc: Global,
}

impl Model for Region {
    ghost use Rattle.std.specs.Prelude.{ℕ, List};

    ghost Value = { List ℕ };

    ghost use Rattle.chunk_pool.specs.Region.{items_of, IsWhole};

    ghost view = { items_of };

    ghost invariant = { IsWhole };
}

impl Region {
    /// Returns a region of `len` words, all 0.
    pub(crate) fn new(alloc: Global, len: usize) -> Result<Region, AllocError>
        requires { len < 2 ^ 60 }
        ensures { IfOk result (λ region. region ≡ replicate len 0) }
    {
        let (start, words, deed) = allocate(&alloc, len)?;
        let words = zeroed(words, start, len);
        Ok(Region {
            start,
            len,
            words,
            deed,
            alloc,
        })
    }

    /// Returns the word at `index`.
    pub(crate) fn read(&self, index: usize) -> u32
        requires { index < length self.now }
        ensures { result ≡ slice_index self.now index }
    {
        self.words.slice(self.start, index, 1)[0]
    }

    /// Writes the word at `index`.
    pub(crate) fn write(&mut self, index: usize, word: u32)
        requires { index < length self.old }
        ensures { self.new ≡ slice_set self.old index word }
    {
        self.words.write(self.start, index, word);
    }

    /// Returns the `len` words from index `from` on.
    pub(crate) fn slice(&self, from: usize, len: usize) -> &[u32]
        requires { from + len ≤ length self.now }
        ensures { result.now ≡ take len (drop from self.now) }
    {
        self.words.slice(self.start, from, len)
    }
}

impl Drop for Region {
    fn drop(self) {
        let Region {
            start,
            len,
            words,
            deed,
            alloc,
        } = self;
        deallocate(&alloc, start, len, words, deed);
    }
}

/// Returns the words with zeros in the room for `len` of them.
fn zeroed(mut words: Words, start: Start, len: usize) -> Words
    requires { (words.at ≡ start.at) × (words.items ≡ []) × (words.spare ≡ len) }
    ensures { (result.at ≡ start.at) × (result.items ≡ replicate len 0) × (result.spare ≡ 0) }
{
    for index in 0..len {
        words.push(start, index, 0);
    }
    words
}
