ghost use Rattle.std.specs.Prelude.{◌≡◌, ℕ, [], Some};
ghost use Rattle.cap_word.specs.Runs.{Goes, Stops};
ghost use Rattle.chunk_pool.specs.Pool.{chunk_at};
ghost use Rattle.machine_world.specs.InPlace.{HeadersName, TpIsFront};
ghost use Rattle.machine_world.specs.Local.{Ended, ended, unlinked};
ghost use Rattle.segment_laws.specs.Ways.{Owns};
ghost use Rattle.segment_run.specs.Turns.{thread_of, IsLink};

use crate::areas::{Areas, HEADER};
use crate::registers::{SP, T1, TP};
use crate::running::Thread;
use cap_word::add;
use chunk_pool::ChunkPool;

// LINK: takes a chunk for the need in t1, saves tp and sp in its header, and continues with tp at its payload and sp at
// its end. Returns whether a free chunk fits; if none does, nothing changes.
pub(crate) fn link(areas: &mut Areas, thread: &mut Thread) -> bool
    requires owns { Owns (thread_of areas.old thread.old) }
    requires front { TpIsFront areas.old.pool (thread_of areas.old thread.old).core (thread_of areas.old thread.old).core.chain }
    ensures { IsLink result (thread_of areas.old thread.old) (thread_of areas.new thread.new) }
{
    let Some(chunk) = areas.pool.take(thread.regs.x[T1]) else {
        return false;
    };
    areas.pool.write(chunk, 0, thread.regs.x[TP]);
    areas.pool.write(chunk, 1, thread.regs.x[SP]);
    let place = areas.pool.place_of(chunk);
    thread.regs.x[TP] = place + HEADER;
    thread.regs.x[SP] = place + areas.pool.bytes_of(chunk);
    thread.regs.pc = add(thread.regs.pc, 4);
    thread.chunk = chunk;
    thread.depth += 1;
    true
}

// UNLINK: restores tp and sp from the header of the innermost chunk, and gives that chunk back to the pool.
pub(crate) fn unlink(areas: &mut Areas, thread: &mut Thread)
    requires owns { Owns (thread_of areas.old thread.old) }
    requires front { TpIsFront areas.old.pool (thread_of areas.old thread.old).core (thread_of areas.old thread.old).core.chain }
    requires headers { HeadersName areas.old.pool (thread_of areas.old thread.old).core.chain }
    ensures { unlinked (thread_of areas.old thread.old) ≡ Goes (thread_of areas.new thread.new) }
{
    let chunk = thread.chunk;
    let tp = areas.pool.read(chunk, 0);
    let sp = areas.pool.read(chunk, 1);
    areas.pool.give(chunk);
    thread.regs.x[TP] = tp;
    thread.regs.x[SP] = sp;
    thread.regs.pc = add(thread.regs.pc, 4);
    thread.chunk = chunk_or(&areas.pool, tp, chunk);
    thread.depth -= 1;
}

// END: gives the last chunk back to the pool.
pub(crate) fn end(areas: &mut Areas, thread: &mut Thread)
    requires owns { Owns (thread_of areas.old thread.old) }
    requires last { thread.old.depth ≡ 1 }
    ensures ended { ended (thread_of areas.old thread.old) (thread_of areas.old thread.old).core.chain ≡ Stops (Ended areas.new) }
    ensures holds_none { (thread_of areas.new thread.new).core.chain ≡ [] }
{
    areas.pool.give(thread.chunk);
    thread.depth = 0;
}

// Returns the chunk of an address, or `other` if no chunk has it.
fn chunk_or(pool: &ChunkPool, address: u32, other: u32) -> u32
    ensures { (chunk : ℕ) → chunk_at pool.now address ≡ Some chunk → result ≡ chunk }
{
    match pool.chunk_at(address) {
        Some(chunk) => chunk,
        None => other,
    }
}
