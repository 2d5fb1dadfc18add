ghost use Rattle.std.specs.Prelude.{◌≡◌, ℕ, ◌+◌, ◌-◌, ◌*◌, ◌/◌, ◌%◌, ◌<◌, ◌≤◌, ◌⊎◌, ◌↔◌, false, drop, length, map, replicate, All, IsTrue, IsNone, IfSome, IfNone, IfOk};
ghost use Rattle.chunk_pool.specs.Pool.{Pool, word_of, payload_of, with_word, words_of, start_of, KeepsOthers, KeepsOtherWords, KeepsPayloads, free_beside, free_count, first_or, after_give, IsFree, IsHeld, IsPool, IsShape, start_pool, shape_of, size_in, bytes_of, place_of, payload_place_of, end_of, fits, FitsNone, class_for, taken_for, IsTaken, HasAddress, chunk_at, start_chunk};
ghost use Rattle.std.specs.List.{range_with_len};
ghost use Rattle.chunk_pool.specs.Chunks.{chunks_in};

use crate::region::Region;
use crate::shape::{Class, FIRST_PLACE, Shape};
use std::alloc::{AllocError, Global};
use std::marker::Model;

/// A pool of 1 to 65,536 chunks of one size and at most 65,536 of a second size, with a free list for each size. Chunks
/// are numbered from 0, those of the first size first.
///
/// The first four words of a chunk are its header, the others its payload. The first word of a free chunk is the number
/// of the next free chunk of its size, or the count of all chunks if there is none. Only `new` allocates memory.
#[derive(Drop)]
pub struct ChunkPool {
    shape: Shape,
    first: u32,
    free: u32,
    extra_first: u32,
    extra_free: u32,
    region: Region,
}

impl Model for ChunkPool {
    ghost use Rattle.chunk_pool.specs.Pool.{Pool};

    ghost Value = { Pool };

    ghost use Rattle.chunk_pool.specs.Chunks.{pool_of, IsKept};

    ghost view = { pool_of };

    ghost invariant = { IsKept };
}

impl ChunkPool {
    /// The address of the first byte of chunk 0.
    pub const FIRST_PLACE: u32 = FIRST_PLACE;

    /// Returns a pool of `count` chunks of `bytes` bytes each, followed by `extra` chunks of `extra_bytes` bytes each.
    /// All are free, in the order of their numbers. All words are 0 except the first word of each chunk, which links
    /// its free list.
    ///
    /// # Errors
    ///
    /// `AllocError` if an allocation fails.
    pub fn new(
        alloc: Global,
        count: u32,
        bytes: u32,
        extra: u32,
        extra_bytes: u32,
    ) -> Result<ChunkPool, AllocError>
        requires some_chunks { 1 ≤ count }
        requires chunks_bounded { count ≤ 65536 }
        requires header_fits { 64 ≤ bytes }
        requires bytes_bounded { bytes ≤ 65536 }
        requires aligned { bytes % 16 ≡ 0 }
        requires extra_bounded { extra ≤ 65536 }
        requires extra_header_fits { 32 ≤ extra_bytes }
        requires extra_bytes_bounded { extra_bytes ≤ 65536 }
        requires extra_aligned { extra_bytes % 16 ≡ 0 }
        requires size_bounded { count * bytes + extra * extra_bytes ≤ 67108864 }

        ensures start { IfOk result (λ pool. pool ≡ start_pool count (bytes / 4) extra (extra_bytes / 4)) }
        ensures sound { IfOk result (λ pool. IsPool pool) }
    {
        let shape = Shape {
            count: count + extra,
            first_count: count,
            words: bytes / 4,
            extra_words: extra_bytes / 4,
        };
        let mut region = Region::new(alloc, shape.size())?;
        link_all(&mut region, shape);
        Ok(ChunkPool {
            shape,
            first: 0,
            free: count,
            extra_first: count,
            extra_free: extra,
            region,
        })
    }

    /// Takes the first free chunk of the smaller size that has a free chunk with a payload of at least `need` bytes, or
    /// of the first size if both sizes are equal. Returns `None` if no free chunk fits. No word changes.
    pub fn take(&mut self, need: u32) -> Option<u32>
        ensures taken { IsTaken (taken_for self.old need) result self.old self.new }
        ensures none { IsNone result ↔ FitsNone self.old need }
        ensures held { IfSome result (λ id. IsFree self.old id × IsTrue (fits self.old need id) × IsHeld self.new id) }
        ensures sound { IsPool self.new }
    {
        let class = self.class_for(need)?;
        match class {
            Class::First => Some(self.take_first()),
            Class::Extra => Some(self.take_extra()),
        }
    }

    /// Checks whether a free chunk has a payload of at least `need` bytes, so that `take` would return one.
    pub fn fits(&self, need: u32) -> bool
        ensures fits { (result ≡ false) ↔ FitsNone self.now need }
        ensures sound { IsPool self.now }
    {
        self.class_for(need).is_some()
    }

    /// Returns the size from which a need is taken.
    fn class_for(&self, need: u32) -> Option<Class>
        ensures value { result ≡ class_for self.now need }
        ensures sound { IsPool self.now }
    {
        self.shape.class_for(self.free, self.extra_free, need)
    }

    /// Takes the first free chunk of the first size.
    fn take_first(&mut self) -> u32
        requires some { 0 < length self.old.free }
        ensures first { result ≡ first_or self.old.free self.old.count }
        ensures after { self.new ≡ record self.old { free = drop 1 self.old.free } }
        ensures sound { IsPool self.new }
    {
        let id = self.first;
        self.first = self.region.read(self.shape.start_of(id));
        self.free -= 1;
        id
    }

    /// Takes the first free chunk of the second size.
    fn take_extra(&mut self) -> u32
        requires some { 0 < length self.old.extra_free }
        ensures first { result ≡ first_or self.old.extra_free self.old.count }
        ensures after { self.new ≡ record self.old { extra_free = drop 1 self.old.extra_free } }
        ensures sound { IsPool self.new }
    {
        let id = self.extra_first;
        self.extra_first = self.region.read(self.shape.start_of(id));
        self.extra_free -= 1;
        id
    }

    /// Gives chunk `id` back: writes the first free number of its size, or the count if there is none, into its first
    /// word, and puts its number at the front of that list.
    pub fn give(&mut self, id: u32)
        requires { IsHeld self.old id }

        ensures after { self.new ≡ after_give self.old id }
        ensures link { word_of self.new id 0 ≡ first_or (free_beside self.old id) self.old.count }
        ensures payloads { KeepsPayloads self.old self.new }
        ensures others { KeepsOthers self.old self.new id }
        ensures sound { IsPool self.new }
    {
        if id < self.shape.first_count {
            self.give_first(id)
        } else {
            self.give_extra(id)
        }
    }

    /// Gives chunk `id` of the first size back.
    fn give_first(&mut self, id: u32)
        requires held { IsHeld self.old id }
        requires class { id < self.old.first_count }
        ensures after { self.new ≡ after_give self.old id }
        ensures sound { IsPool self.new }
    {
        self.write(id, 0, self.first);
        self.first = id;
        self.free += 1;
    }

    /// Gives chunk `id` of the second size back.
    fn give_extra(&mut self, id: u32)
        requires held { IsHeld self.old id }
        requires class { self.old.first_count ≤ id }
        ensures after { self.new ≡ after_give self.old id }
        ensures sound { IsPool self.new }
    {
        self.write(id, 0, self.extra_first);
        self.extra_first = id;
        self.extra_free += 1;
    }

    /// Returns word `word`, counted from 0, of chunk `id`.
    pub fn read(&self, id: u32, word: u32) -> u32
        requires id_in_range { id < self.now.count }
        requires word_in_range { word < words_of self.now id }
        ensures value { result ≡ word_of self.now id word }
        ensures sound { IsPool self.now }
    {
        self.region.read(self.position(id, word))
    }

    /// Writes word `word`, counted from 0, of chunk `id`, which isn't in the header of a free chunk.
    pub fn write(&mut self, id: u32, word: u32, value: u32)
        requires id_in_range { id < self.old.count }
        requires word_in_range { word < words_of self.old id }
        requires link_kept { IsHeld self.old id ⊎ (4 ≤ word) }

        ensures after { self.new ≡ with_word self.old id word value }
        ensures value { word_of self.new id word ≡ value }
        ensures words { KeepsOtherWords self.old self.new id word }
        ensures others { KeepsOthers self.old self.new id }
        ensures sound { IsPool self.new }
    {
        let position = self.position(id, word);
        self.region.write(position, value);
    }

    /// Returns the word of chunk `id` that contains its byte at `address`.
    pub fn read_at(&self, id: u32, address: u32) -> u32
        requires { HasAddress self.now id address }
        ensures value { result ≡ word_of self.now id ((address - place_of self.now id) / 4) }
        ensures sound { IsPool self.now }
    {
        self.region.read(position_at(address))
    }

    /// Writes the word of chunk `id` that contains its byte at `address`, which isn't in the header of a free chunk.
    pub fn write_at(&mut self, id: u32, address: u32, value: u32)
        requires address_in_range { HasAddress self.old id address }
        requires link_kept { IsHeld self.old id ⊎ (payload_place_of self.old id ≤ address) }

        ensures after { self.new ≡ with_word self.old id ((address - place_of self.old id) / 4) value }
        ensures sound { IsPool self.new }
    {
        let position = position_at(address);
        self.region.write(position, value);
    }

    /// Returns the payload of chunk `id`: its words from word 4 on.
    pub fn payload(&self, id: u32) -> &[u32]
        requires { id < self.now.count }
        ensures value { result.now ≡ payload_of self.now id }
        ensures sound { IsPool self.now }
    {
        self.region
            .slice(self.position(id, 4), self.shape.words_of(id) as usize - 4)
    }

    /// Returns the index in the region of word `word` of chunk `id`.
    fn position(&self, id: u32, word: u32) -> usize
        requires id_in_range { id < self.now.count }
        requires word_in_range { word < words_of self.now id }
        ensures place { result ≡ start_of self.now id + word }
        ensures within { result + (words_of self.now id - word) ≤ size_in (shape_of self.now) }
        ensures sound { IsPool self.now }
    {
        self.shape.start_of(id) + word as usize
    }

    /// Returns the number of free chunks, of both sizes.
    pub fn free(&self) -> u32
        ensures count { result ≡ free_count self.now }
        ensures bounded { result ≤ self.now.count }
        ensures sound { IsPool self.now }
    {
        self.free + self.extra_free
    }

    /// Returns the address of the first byte of chunk `id`.
    pub fn place_of(&self, id: u32) -> u32
        requires { id < self.now.count }
        ensures place { result ≡ place_of self.now id }
        ensures aligned { result % 16 ≡ 0 }
        ensures below_end { end_of self.now id ≤ 0x8400_0000 }
        ensures sound { IsPool self.now }
    {
        FIRST_PLACE + 4 * self.shape.start_of(id) as u32
    }

    /// Returns the size of chunk `id` in bytes.
    pub fn bytes_of(&self, id: u32) -> u32
        requires { id < self.now.count }
        ensures value { result ≡ bytes_of self.now id }
        ensures sound { IsPool self.now }
    {
        4 * self.shape.words_of(id)
    }

    /// Returns the number of the chunk that has a byte at `address`, or `None` if no chunk has.
    pub fn chunk_at(&self, address: u32) -> Option<u32>
        ensures value { result ≡ chunk_at self.now address }
        ensures holds { IfSome result (λ id. HasAddress self.now id address) }
        ensures only { (id : ℕ) → HasAddress self.now id address → result ≡ Some id }
        ensures none { IfNone result ((id : ℕ) → ¬ HasAddress self.now id address) }
        ensures sound { IsPool self.now }
    {
        self.shape.chunk_at(address)
    }
}

/// Returns the index in the region of the word that contains the byte at `address`. Chunks lie side by side in the
/// order of their addresses, so the address alone determines it.
fn position_at(address: u32) -> usize
    requires { 0x8000_0000 ≤ address }
    ensures { result ≡ (address - 0x8000_0000) / 4 }
{
    ((address - FIRST_PLACE) / 4) as usize
}

/// Links the chunks of a region of zeros: writes the number of the next chunk of its size into the first word of each.
fn link_all(region: &mut Region, shape: Shape)
    requires sound { IsShape shape }
    requires zeros { region.old ≡ replicate (size_in shape) 0 }
    ensures size { length region.new ≡ size_in shape }
    ensures linked { chunks_in shape region.new ≡ map (start_chunk shape) (range_with_len 0 shape.count) }
{
    for id in 0..shape.count {
        region.write(shape.start_of(id), shape.next(id));
    }
}
