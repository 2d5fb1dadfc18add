ghost use Rattle.std.specs.Prelude.{◌≡◌, ◌≤◌, ◌+◌, ◌*◌, ◌%◌, IfOk, IfErr};
ghost use Rattle.thread_core.specs.Making.{IsPolicy, IsStart, HandsBack};
ghost use Rattle.thread_core.specs.FirstParts.{AreParts};

use crate::policy::WorldPolicy;
use crate::records::Record;
use crate::state::State;
use crate::turns::WorldError;
use crate::world::World;
use accepted_pairs::Accepted;
use cap_word::ThreadId;
use chunk_pool::ChunkPool;
use segment_run::{Areas, Fuel, sizes_law, start};
use slab::Slab;
use std::alloc::{AllocError, Global};
use thread_exchange::Exchange;
use thread_waits::{Wait, Waits};

// The parts of a world that need memory.
struct Parts {
    areas: Areas,
    exchange: Exchange,
    waits: Waits,
    records: Slab<Record>,
}

impl World {
    /// Returns the world in which a run starts: thread 0 is at the start of `main`, and the pool, the queues and the
    /// record of one thread are allocated. The run retires at most `fuel` instructions, at most 1,000,000,000. The
    /// policy is in the ranges of `WorldPolicy`, and the chunks of both sizes have at most 67,108,864 bytes in all.
    ///
    /// # Errors
    ///
    /// `WorldError::Memory` with the program if an allocation fails.
    pub fn make(
        alloc: Global,
        accepted: Accepted,
        policy: WorldPolicy,
        fuel: u64,
    ) -> Result<World, WorldError>
        requires { IsPolicy accepted policy fuel }
        ensures made { IfOk result (λ world. IsStart accepted policy fuel world) }
        ensures handed_back { IfErr result (HandsBack accepted) }
    {
        match take_parts(alloc, &accepted, policy) {
            Err(_) => Err(WorldError::Memory { accepted }),
            Ok(parts) => Ok(with_main(alloc, accepted, policy, parts, fuel)),
        }
    }

    /// Returns the first thread, which runs `main`.
    pub fn main_thread(&self) -> ThreadId
        ensures { result ≡ record { slot = 0; number = 0 } }
    {
        ThreadId { slot: 0, number: 0 }
    }
}

// Returns the parts of the world in which a run starts, before its first thread.
fn take_parts(alloc: Global, accepted: &Accepted, policy: WorldPolicy) -> Result<Parts, AllocError>
    requires some_chunks { 1 ≤ policy.chunks }
    requires chunks { policy.chunks ≤ 65536 }
    requires extra { policy.extra ≤ 65536 }
    requires extra_least { 32 ≤ policy.extra_bytes }
    requires extra_most { policy.extra_bytes ≤ 65536 }
    requires extra_whole { policy.extra_bytes % 16 ≡ 0 }
    requires pool { policy.chunks * accepted.now.certificate.chunk + policy.extra *
        policy.extra_bytes ≤ 67108864 }
    ensures { IfOk result (AreParts accepted.now policy) }
{
    sizes_law(accepted);
    let chunk = accepted.certificate().chunk;
    let pool = ChunkPool::new(
        alloc,
        policy.chunks,
        chunk,
        policy.extra,
        policy.extra_bytes,
    )?;
    let areas = Areas::new(alloc, accepted.image(), pool)?;
    let exchange = Exchange::new(alloc, policy.backlog, policy.caps)?;
    let waits = Waits::new(alloc)?;
    let records = Slab::with_capacity(alloc, 1)?;
    Ok(Parts {
        areas,
        exchange,
        waits,
        records,
    })
}

// Returns the world with its first thread.
fn with_main(
    alloc: Global,
    accepted: Accepted,
    policy: WorldPolicy,
    parts: Parts,
    fuel: u64,
) -> World
    requires policy { IsPolicy accepted policy fuel }
    requires parts { AreParts accepted policy parts }
    ensures { IsStart accepted policy fuel result }
{
    let chunks = policy.chunks + policy.extra;
    let Parts {
        mut areas,
        exchange,
        mut waits,
        mut records,
    } = parts;
    // By the clause of `image`, the pair is valid.
    let _image = accepted.image();
    let main = accepted.program().main_number();
    match start(&accepted, &mut areas, main, 0) {
        None => unreachable!(),
        Some(context) => {
            let slot = records.insert_reserved(Record { number: 0, context });
            waits.wait(slot, Wait::Fresh);
        }
    }
    let state = State {
        alloc,
        areas,
        exchange,
        waits,
        records,
        live: 1,
        next: 1,
        fuel: Fuel { left: fuel },
        running: None,
        begun: 0,
        stopped: None,
    };
    World {
        accepted,
        chunks,
        most: fuel,
        state,
    }
}
