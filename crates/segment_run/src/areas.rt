ghost use Rattle.std.specs.Prelude.{◌≡◌, ℕ, ◌+◌, ◌^◌, ◌≤◌, ◌<◌, ◌%◌, length, IfOk, IfSome, Some};
ghost use Rattle.machine_world.specs.Areas.{byte_at, is_writable, is_writable_on, spot_of, with_byte};
ghost use Rattle.machine_world.specs.WellFormed.{AreWords};
ghost use Rattle.rv_machine.specs.WordBytes.{word_with};

use chunk_pool::ChunkPool;
use rv_machine::Memory;
use stack_certificate::{GLOBALS_START, TABLES_START};
use stack_image::Image;
use std::alloc::{AllocError, Global};
use std::marker::Model;

// The addresses of the first global word, of the first table word and of the first chunk.
const GLOBALS: u32 = GLOBALS_START;

const TABLES: u32 = TABLES_START;

const CHUNKS: u32 = ChunkPool::FIRST_PLACE;

// The size of a chunk's header in bytes.
pub(crate) const HEADER: u32 = 16;

/// The memory of the threads: the pool of chunks, at most 65,536 global words, and at most 65,536 table words.
///
/// As memory by bytes, the globals begin at 0x10000000 and the tables at 0x20000000; a chunk's payload follows its
/// header. Tables can't be written. Every other byte, and so every header, is neither readable nor writable.
#[derive(Drop)]
pub struct Areas {
    pub(crate) pool: ChunkPool,
    pub(crate) globals: Vec<u32>,
    pub(crate) tables: Vec<u32>,
}

impl Model for Areas {
    ghost use Rattle.machine_world.specs.Areas as world;
    ghost use Rattle.segment_run.specs.Kept.{areas_of, AreKept};

    ghost Value = { world.Areas };

    ghost view = { areas_of };

    ghost invariant = { λ a. AreKept (areas_of a) };
}

impl Areas {
    ghost use Rattle.segment_run.specs.Kept.{AreKept};

    /// Returns the areas of that pool with copies of an image's global and table words.
    ///
    /// # Errors
    ///
    /// `AllocError` if an allocation fails; the pool is dropped then.
    pub fn new(alloc: Global, image: &Image, pool: ChunkPool) -> Result<Areas, AllocError>
        requires globals { length image.now.globals ≤ 65536 }
        requires tables { length image.now.tables ≤ 65536 }
        ensures { IfOk result (λ areas. areas ≡ record { pool = pool; globals = image.now.globals; tables = image.now.tables }) }
    {
        let globals = copied(alloc, image.globals.as_slice())?;
        let tables = copied(alloc, image.tables.as_slice())?;
        Ok(Areas {
            pool,
            globals,
            tables,
        })
    }

    /// Returns the pool of chunks.
    pub fn pool(&self) -> &ChunkPool
        ensures { result.now ≡ self.now.pool }
    {
        &self.pool
    }

    /// Returns the global words, in order of declaration.
    pub fn globals(&self) -> &[u32]
        ensures { result.now ≡ self.now.globals }
    {
        self.globals.as_slice()
    }

    /// Returns the table words, in order of declaration.
    pub fn tables(&self) -> &[u32]
        ensures { result.now ≡ self.now.tables }
    {
        self.tables.as_slice()
    }

    // Shows the invariant of all areas. It is for the prover: it has no effect at run time.
    pub(crate) fn are_kept(&self)
        ensures { AreKept self.now }
    {
        let _words = self.globals.len();
    }
}

// Returns a copy of these words.
fn copied(alloc: Global, words: &[u32]) -> Result<Vec<u32>, AllocError>
    ensures items { IfOk result (λ copy. copy.items ≡ words.now) }
    ensures words { IfOk result (λ copy. AreWords copy.items) }
{
    Vec::from_slice(alloc, words)
}

// The place of a byte in the map: its offset in bytes from the start of the globals, of the tables, or of a chunk.
#[derive(Clone, Copy)]
enum Spot {
    InGlobals { offset: u32 },
    InTables { offset: u32 },
    InPayload { chunk: u32, offset: u32 },
}

impl Spot {
    ghost use Rattle.segment_run.specs.Spots.{world_spot};

    // Checks whether a byte there may be written.
    fn is_writable(self) -> bool
        ensures { result ≡ is_writable_on (Some (world_spot self)) }
    {
        match self {
            Spot::InTables { .. } => false,
            Spot::InGlobals { .. } | Spot::InPayload { .. } => true,
        }
    }
}

impl Areas {
    ghost use Rattle.std.specs.Prelude.{option_map};
    ghost use Rattle.chunk_pool.specs.Pool.{HasAddress, payload_place_of};
    ghost use Rattle.machine_world.specs.Areas as world;
    ghost use Rattle.segment_run.specs.Kept.{AreKept};
    ghost use Rattle.segment_run.specs.Spots.{world_spot, IsOn, word_on, with_word_on};

    // Returns the spot of an address, if it is on the map.
    fn spot(&self, address: u32) -> Option<Spot>
        ensures spot { option_map world_spot result ≡ spot_of self.now address }
        ensures on { IfSome result (IsOn self.now address) }
        ensures kept { AreKept self.now }
    {
        if address >= CHUNKS {
            self.payload_spot(address)
        } else if address >= TABLES {
            let offset = address - TABLES;
            if ((offset / 4) as usize) < self.tables.len() {
                Some(Spot::InTables { offset })
            } else {
                None
            }
        } else if address >= GLOBALS {
            let offset = address - GLOBALS;
            if ((offset / 4) as usize) < self.globals.len() {
                Some(Spot::InGlobals { offset })
            } else {
                None
            }
        } else {
            None
        }
    }

    // Returns the spot of an address from the first chunk on.
    fn payload_spot(&self, address: u32) -> Option<Spot>
        requires { 0x8000_0000 ≤ address }
        ensures spot { option_map world_spot result ≡ spot_of self.now address }
        ensures on { IfSome result (IsOn self.now address) }
    {
        match self.pool.chunk_at(address) {
            None => None,
            Some(chunk) => {
                let offset = address - self.pool.place_of(chunk);
                if offset < HEADER {
                    None
                } else {
                    Some(Spot::InPayload { chunk, offset })
                }
            }
        }
    }

    // Returns the spot of an address that is on the map. It is inlined where a word is read or written: those don't
    // need the chunk's number, so the compiler removes the search for it.
    #[inline(always)]
    fn spot_on(&self, address: u32) -> Spot
        requires { (spot : world.Spot) × (spot_of self.now address ≡ Some spot) }
        ensures on { IsOn self.now address result }
        ensures spot { Some (world_spot result) ≡ spot_of self.now address }
        ensures kept { AreKept self.now }
    {
        if address >= CHUNKS {
            let chunk = self.chunk_with(address);
            Spot::InPayload {
                chunk,
                offset: address - self.pool.place_of(chunk),
            }
        } else if address >= TABLES {
            Spot::InTables {
                offset: address - TABLES,
            }
        } else {
            Spot::InGlobals {
                offset: address - GLOBALS,
            }
        }
    }

    // Returns the chunk of an address that is on the map, from the first chunk on.
    #[inline(always)]
    fn chunk_with(&self, address: u32) -> u32
        requires high { 0x8000_0000 ≤ address }
        requires there { (spot : world.Spot) × (spot_of self.now address ≡ Some spot) }
        ensures has { HasAddress self.now.pool result address }
        ensures behind { payload_place_of self.now.pool result ≤ address }
    {
        match self.pool.chunk_at(address) {
            Some(chunk) => chunk,
            None => 0,
        }
    }

    // Returns the word at the spot of an address.
    #[inline(always)]
    fn word_on(&self, spot: Spot, address: u32) -> u32
        requires { IsOn self.now address spot }
        ensures { result ≡ word_on self.now spot }
    {
        match spot {
            Spot::InGlobals { offset } => self.globals[(offset / 4) as usize],
            Spot::InTables { offset } => self.tables[(offset / 4) as usize],
            Spot::InPayload { chunk, .. } => self.pool.read_at(chunk, address),
        }
    }

    // Writes the word at the spot of an address.
    #[inline(always)]
    fn write_on(&mut self, spot: Spot, address: u32, value: u32)
        requires { IsOn self.old address spot }
        ensures { self.new ≡ with_word_on self.old spot value }
    {
        match spot {
            Spot::InGlobals { offset } => self.globals[(offset / 4) as usize] = value,
            Spot::InTables { offset } => self.tables[(offset / 4) as usize] = value,
            Spot::InPayload { chunk, .. } => self.pool.write_at(chunk, address, value),
        }
    }
}

impl Areas {
    ghost use Rattle.std.specs.Prelude.{ℕ, true, Ok};
    ghost use Rattle.machine_world.specs.Areas.{byte_at, is_writable, with_byte};
    ghost use Rattle.rv_machine.specs.Bytes.{with_word, word_is_writable};
    ghost use Rattle.rv_machine.specs.Rows.{word_loaded};

    // Returns the word at an address from which it can be loaded.
    #[inline(always)]
    pub(crate) fn read_word(&self, address: u32) -> u32
        requires { (word : ℕ) × (word_loaded (byte_at self.now) address ≡ Ok word) }
        ensures { word_loaded (byte_at self.now) address ≡ Ok result }
    {
        let spot = self.spot_on(address);
        self.word_on(spot, address)
    }

    // Writes a word at an address to which it can be stored.
    #[inline(always)]
    pub(crate) fn put_word(&mut self, address: u32, word: u32)
        requires aligned { address % 4 ≡ 0 }
        requires writable { word_is_writable (is_writable self.old) address ≡ true }
        ensures { self.new ≡ with_word with_byte self.old address word }
    {
        let spot = self.spot_on(address);
        self.write_on(spot, address, word);
    }
}

// Returns the word with byte k of its four bytes replaced.
fn put_byte(word: u32, k: u32, byte: u8) -> u32
    requires { k < 4 }
    ensures { result ≡ word_with word k byte }
{
    let scale = 1u32 << (8 * k);
    let old = word / scale % 256;
    word - old * scale + u32::from(byte) * scale
}

impl Memory for Areas {
    ghost byte_at = { byte_at };

    ghost is_writable = { is_writable };

    ghost with_byte = { with_byte };

    fn load(&self, address: u32) -> Option<u8> {
        match self.spot(address) {
            Some(spot) => Some((self.word_on(spot, address) >> (8 * (address % 4)) & 0xff) as u8),
            None => None,
        }
    }

    fn can_store(&self, address: u32) -> bool {
        match self.spot(address) {
            Some(spot) => spot.is_writable(),
            None => false,
        }
    }

    fn store(&mut self, address: u32, byte: u8) -> bool {
        match self.spot(address) {
            Some(spot) if spot.is_writable() => {
                let word = put_byte(self.word_on(spot, address), address % 4, byte);
                self.write_on(spot, address, word);
                true
            }
            _ => false,
        }
    }

    fn load_word(&self, address: u32) -> Option<u32> {
        match self.spot(address) {
            Some(spot) => Some(self.word_on(spot, address)),
            None => None,
        }
    }

    fn store_word(&mut self, address: u32, word: u32) -> bool {
        match self.spot(address) {
            Some(spot) if spot.is_writable() => {
                self.write_on(spot, address, word);
                true
            }
            _ => false,
        }
    }
}
