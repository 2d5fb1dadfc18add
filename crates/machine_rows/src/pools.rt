ghost use Rattle.std.specs.Prelude.{◌≡◌, ◌*◌, ◌%◌, ◌<◌, ◌≤◌};

use chunk_pool::ChunkPool;
use std::alloc::{Alloc, AllocError, Global};
use std::fs;
use std::rt::Files;
use std::test::Fail;

// Addresses, and the chunk of each, in a pool of three chunks of 80 bytes, in one with the maximum number of chunks,
// and in one of the largest chunks.
const OF_THREE: [(u32, Option<u32>); 10] = [
    (0, None),
    (0x7fff_ffff, None),
    (0x8000_0000, Some(0)),
    (0x8000_004f, Some(0)),
    (0x8000_0050, Some(1)),
    (0x8000_009f, Some(1)),
    (0x8000_00a0, Some(2)),
    (0x8000_00ef, Some(2)),
    (0x8000_00f0, None),
    (0xffff_ffff, None),
];

const OF_MOST: [(u32, Option<u32>); 3] = [
    (0x803f_ffbf, Some(65_534)),
    (0x803f_ffff, Some(65_535)),
    (0x8040_0000, None),
];

const OF_LARGEST: [(u32, Option<u32>); 3] = [
    (0x8000_ffff, Some(0)),
    (0x83ff_ffff, Some(1_023)),
    (0x8400_0000, None),
];

// The same for two chunks of 80 bytes followed by two of 48.
const OF_TWO_SIZES: [(u32, Option<u32>); 8] = [
    (0x8000_0000, Some(0)),
    (0x8000_009f, Some(1)),
    (0x8000_00a0, Some(2)),
    (0x8000_00cf, Some(2)),
    (0x8000_00d0, Some(3)),
    (0x8000_00ff, Some(3)),
    (0x8000_0100, None),
    (0x7fff_ffff, None),
];

// Returns the number in the first word of a chunk.
fn link(pool: &ChunkPool, id: u32) -> Option<u32>
    requires { id < pool.now.count }
{
    if pool.bytes_of(id) == 0 {
        return None;
    }
    Some(pool.read(id, 0))
}

// Checks a pool of two chunks that are both taken and given back in another order. The links are those of the machine's
// layout: the number of the next free chunk, or 2 if there is none.
fn gives_back(alloc: Global) -> Result<bool, AllocError> {
    let mut pool = ChunkPool::new(alloc, 2, 64, 0, 64)?;
    let first = pool.take(48);
    let second = pool.take(48);
    let third = pool.take(48);
    pool.give(0);
    pool.give(1);
    let links = [link(&pool, 0), link(&pool, 1)];
    let again = pool.take(48);
    let free = pool.free();
    drop(pool);
    Ok(
        [first, second, third, again] == [Some(0), Some(1), None, Some(1)]
            && links == [Some(2), Some(0)]
            && free == 1,
    )
}

// Checks whether needs take the smaller of two sizes that has a free chunk that fits, and chunks go back to the list of
// their size. The last free chunk of each size links to the count of all, 4.
fn takes_by_need(alloc: Global) -> Result<bool, AllocError> {
    let mut pool = ChunkPool::new(alloc, 2, 80, 2, 48)?;
    let taken = [pool.take(32), pool.take(33), pool.take(65), pool.take(0)];
    let more = [pool.take(64), pool.take(0)];
    pool.give(0);
    pool.give(3);
    pool.give(2);
    let links = [link(&pool, 0), link(&pool, 3), link(&pool, 2)];
    let again = [pool.take(48), pool.take(16)];
    let free = pool.free();
    let is_found = finds(&pool, &OF_TWO_SIZES);
    drop(pool);
    Ok(
        taken == [Some(2), Some(0), None, Some(3)]
            && more == [Some(1), None]
            && links == [Some(4), Some(4), Some(3)]
            && again == [Some(0), Some(2)]
            && free == 1
            && is_found,
    )
}

// Checks whether a chunk keeps what is written.
#[tactic(auto, unfolding(chunk_pool::specs::Pool::words_in))]
fn keeps(alloc: Global) -> Result<bool, AllocError> {
    let mut pool = ChunkPool::new(alloc, 2, 64, 0, 64)?;
    pool.write(1, 4, 41);
    pool.write(1, 15, 55);
    let want = [41, 0, 0, 0, 0, 0, 0, 0, 0, 0, 0, 55];
    let is_kept = pool.payload(1) == want.as_slice() && pool.read(1, 0) == 2;
    drop(pool);
    Ok(is_kept)
}

// Checks the number of a pool's chunks, their size in bytes, and the address of the last one.
fn is_laid_out(pool: &ChunkPool, count: u32, bytes: u32, last_place: u32) -> bool
    requires some_chunks { 1 ≤ count }
    requires of_count { pool.now.count ≡ count }
{
    let last = count - 1;
    pool.free() == count
        && pool.place_of(0) == 0x8000_0000
        && pool.place_of(last) == last_place
        && pool.bytes_of(last) == bytes
}

// Checks whether each address is in its chunk.
fn finds(pool: &ChunkPool, rows: &[(u32, Option<u32>)]) -> bool {
    for (address, chunk) in rows {
        if pool.chunk_at(*address) != *chunk {
            return false;
        }
    }
    true
}

// Checks whether a pool's addresses are those that were worked out by hand: the address of its last chunk, and
// addresses with their chunks.
fn has_addresses(
    alloc: Global,
    count: u32,
    bytes: u32,
    last_place: u32,
    rows: &[(u32, Option<u32>)],
) -> Result<bool, AllocError>
    requires some_chunks { 1 ≤ count }
    requires chunks_bounded { count ≤ 65536 }
    requires header_fits { 64 ≤ bytes }
    requires bytes_bounded { bytes ≤ 65536 }
    requires aligned { bytes % 16 ≡ 0 }
    requires size_bounded { count * bytes ≤ 67108864 }
{
    let pool = ChunkPool::new(alloc, count, bytes, 0, 64)?;
    let is_so = is_laid_out(&pool, count, bytes, last_place) && finds(&pool, rows);
    drop(pool);
    Ok(is_so)
}

#[test]
fn pools(rt: HostRuntime) -> Result<(), Fail> {
    let alloc = rt.alloc();
    let is_given = gives_back(alloc)? && takes_by_need(alloc)? && keeps(alloc)?;
    let is_found = has_addresses(alloc, 3, 80, 0x8000_00a0, &OF_THREE)?
        && has_addresses(alloc, 65_536, 64, 0x803f_ffc0, &OF_MOST)?
        && has_addresses(alloc, 1_024, 65_536, 0x83ff_0000, &OF_LARGEST)?;
    assert!(rt; is_given && is_found);
    Ok(())
}

// Makes and frees `pools` of the largest pools, one after another.
fn makes_and_frees(alloc: Global, pools: u32) -> Result<bool, AllocError> {
    for _ in 0..pools {
        if !has_addresses(alloc, 65_536, 1_024, 0x83ff_fc00, &[])? {
            return Ok(false);
        }
    }
    Ok(true)
}

// Returns the size of this process in pages of 4,096 bytes, as Linux reports it.
fn pages_of_process<R: Files + Alloc>(rt: &R) -> Option<u64> {
    let text = fs::read_to_string(rt, "/proc/self/statm").ok()?;
    let first = text.split_whitespace().next()?;
    first.parse::<u64>().ok()
}

// A pool's 64 MiB are 16,384 pages. The first pool may leave the allocator's tables behind; of eight more at most half
// stays, since an address sanitizer keeps 256 MiB of freed memory. More pools don't end in time on a busy machine.
#[test]
fn memory_returns(rt: HostRuntime) -> Result<(), Fail> {
    let alloc = rt.alloc();
    let is_first_made = makes_and_frees(alloc, 1)?;
    let before = pages_of_process(&rt);
    let are_made = makes_and_frees(alloc, 8)?;
    let after = pages_of_process(&rt);
    let is_returned = match (before, after) {
        (Some(before), Some(after)) => after <= before.saturating_add(65_536),
        _ => false,
    };
    assert!(rt; is_first_made && are_made && is_returned);
    Ok(())
}
