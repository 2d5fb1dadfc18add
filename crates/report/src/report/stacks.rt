// The words of stacks, and the frames on them.
ghost use Rattle.std.specs.Prelude.{◌<◌, IfSome};

use chunk_pool::ChunkPool;
use stack_certificate::FunctionFact;
use thread_core::World;

/// The address of the first chunk.
const FIRST: u64 = ChunkPool::FIRST_PLACE as u64;

/// A chunk with the address at which it begins, and the one just past its end.
#[derive(Clone, Copy)]
struct Chunk {
    number: u32,
    start: u64,
    end: u64,
}

/// Returns the chunk that has a byte at an address, or `None` if no chunk has.
fn chunk_at(world: &World, address: u64) -> Option<Chunk>
    ensures { IfSome result (λ chunk. chunk.number < world.now.machine.areas.pool.count) }
{
    let mut start = FIRST;
    for number in 0..world.cap(0) {
        let end = start.saturating_add(u64::from(world.chunk_words(number)) * 4);
        if start <= address && address < end {
            return Some(Chunk { number, start, end });
        }
        start = end;
    }
    None
}

/// Returns a word of a chunk, or `None` if the chunk is shorter.
fn word_of(world: &World, chunk: u32, word: u64) -> Option<u32>
    requires { chunk < world.now.machine.areas.pool.count }
{
    if word < u64::from(world.chunk_words(chunk)) {
        Some(world.word_at(chunk, word as u32))
    } else {
        None
    }
}

/// Returns the return address of a frame, from its lowest address and its function.
pub(crate) fn return_of(world: &World, low: u32, fact: &FunctionFact) -> Option<u32> {
    word_at(world, u64::from(low) + u64::from(fact.ra))
}

/// Returns the word at an address, or `None` if no chunk has it.
pub(crate) fn word_at(world: &World, address: u64) -> Option<u32> {
    let chunk = chunk_at(world, address)?;
    word_of(world, chunk.number, address.saturating_sub(chunk.start) / 4)
}

/// Returns the lowest address of the frame below: it begins where this one ends, or, if this one is the first of its
/// chunk, at the sp that the chunk's header saved.
pub(crate) fn below(world: &World, low: u32, fact: &FunctionFact) -> Option<u32> {
    let chunk = chunk_at(world, u64::from(low))?;
    let end = u64::from(low) + u64::from(fact.frame);
    if end < chunk.end {
        return u32::try_from(end).ok();
    }
    word_of(world, chunk.number, 1)
}
