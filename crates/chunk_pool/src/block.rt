// A block of memory as words: its start, the owner of its words, and the right to deallocate it. All raw pointers of
// the crate are in this file, and each function is proved by hand.
ghost use Rattle.std.specs.Prelude.{◌≡◌, ℕ, ◌+◌, ◌^◌, ◌<◌, ◌≤◌, List, [], ◌∷◌, ◌++◌, length, take, drop, slice_set, IfOk};
ghost use base.Fml.{ftrue};
ghost use denote.RawPtr.{Ptr};
ghost use Rattle.chunk_pool.specs.Block.{words_own, words_lent, words_type};

use std::alloc::{AllocError, Allocator};
use std::marker::{Model, PhantomData};
use std::slice;

// The size and the alignment of a word, in bytes.
const WORD_BYTES: usize = 4;

/// The address of a block. It owns nothing.
#[derive(Clone, Copy)]
pub(crate) struct Start {
    at: *mut u32,
}

/// The owner of a block's words: the words that are written, then room for a number of further words. It takes no
/// space.
pub(crate) struct Words {
    ghost at: { Ptr },
    ghost items: { List ℕ },
    ghost spare: { ℕ },
}

impl Model for Words {
    ghost also_owns = { λ words. words_own words.at words.items words.spare };

    ghost also_shares = { λ words _ κ. words_lent words.at words.items words.spare κ };
}

/// The right to deallocate a block of a number of words. It takes no space.
pub(crate) struct Deed<A: Allocator> {
    mark: PhantomData<*const A>,
    ghost alloc: { A },
    ghost at: { Ptr },
    ghost len: { ℕ },
}

impl<A: Allocator> Model for Deed<A> {
    ghost also_owns = { λ deed. A.dealloc_token deed.alloc (words_type deed.len) deed.at };

    ghost also_shares = { λ _ _ _. ftrue };
}

/// Allocates a block with room for `len` words.
pub(crate) fn allocate<A: Allocator>(
    alloc: &A,
    len: usize,
) -> Result<(Start, Words, Deed<A>), AllocError>
    requires { len < 2 ^ 60 }
    ensures { IfOk result (λ made.
        (made.1.at ≡ made.0.at) × (made.1.items ≡ []) × (made.1.spare ≡ len) ×
        (made.2.at ≡ made.0.at) × (made.2.len ≡ len) × (made.2.alloc ≡ alloc.now)) }
{
    match alloc.allocate(len * WORD_BYTES, WORD_BYTES) {
        Ok(block) => {
            let start = Start {
                at: block as *mut u32,
            };
            Ok((start, Words {}, Deed { mark: PhantomData }))
        }
        Err(error) => Err(error),
    }
}

/// Deallocates the block, all words of which are written. It takes the owner of its words and the right to deallocate
/// it, so that no block is deallocated twice, or used afterwards. That it is deallocated is no clause: a contract can't
/// tell what an allocator does with a block that it gets back.
pub(crate) fn deallocate<A: Allocator>(
    alloc: &A,
    start: Start,
    len: usize,
    words: Words,
    deed: Deed<A>,
)
    requires { (words.at ≡ start.at) × (length words.items ≡ len) × (words.spare ≡ 0) ×
        (deed.at ≡ start.at) × (deed.len ≡ len) × (deed.alloc ≡ alloc.now) }
{
    let Words {} = words;
    let Deed { mark: _ } = deed;
    unsafe {
        alloc.deallocate(start.at as *mut u8, len * WORD_BYTES, WORD_BYTES);
    }
}

impl Words {
    /// Writes the first word of the room, which has the index `index`.
    pub(crate) fn push(&mut self, start: Start, index: usize, word: u32)
        requires { (start.at ≡ self.old.at) × (index ≡ length self.old.items) ×
            (0 < self.old.spare) }
        ensures { (self.new.at ≡ self.old.at) × (self.new.items ≡ self.old.items ++ word ∷ []) ×
            (self.new.spare + 1 ≡ self.old.spare) }
    {
        unsafe { start.at.add(index).write(word) }
    }

    /// Overwrites the word at `index`.
    pub(crate) fn write(&mut self, start: Start, index: usize, word: u32)
        requires { (start.at ≡ self.old.at) × (index < length self.old.items) }
        ensures { (self.new.at ≡ self.old.at) ×
            (self.new.items ≡ slice_set self.old.items index word) ×
            (self.new.spare ≡ self.old.spare) }
    {
        unsafe { start.at.add(index).write(word) }
    }

    /// Returns the `len` words from index `from` on.
    pub(crate) fn slice(&self, start: Start, from: usize, len: usize) -> &[u32]
        requires { (start.at ≡ self.now.at) × (from + len ≤ length self.now.items) }
        ensures { result.now ≡ take len (drop from self.now.items) }
    {
        unsafe { slice::from_raw_parts(start.at.add(from), len) }
    }
}
