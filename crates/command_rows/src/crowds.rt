// Rows with the maximum number of live threads, and with as many threads as there are chunks.

ghost use Rattle.std.specs.Prelude.{IfSome};
ghost use Rattle.command_rows.specs.Moments.{IsAt, after_turn};
ghost use Rattle.command_rows.specs.declared.moments.Moment.TheVariants.{Between};

use crate::building::{FUEL, Setup, world_of};
use crate::sources::CROWD;
use crate::turns::{again, begin_main, go_on};
use cap_word::Stop;
use std::alloc::Global;
use thread_core::{Turn, World};

// Returns the next turn, if thread 0 has started the thread of that number.
fn next(world: &mut World, turn: Turn, number: u32) -> Option<Turn>
    requires { IsAt (after_turn turn) world.old }
    ensures { IfSome result (λ turn. IsAt (after_turn turn) world.new) }
{
    match turn {
        Turn::Spawned { thread } => {
            if thread.number != number {
                return None;
            }
            Some(go_on(world))
        }
        _ => None,
    }
}

// Returns the turn after thread 0 has started all others, up to `live` threads.
fn last(world: &mut World, live: u32) -> Option<Turn>
    requires { IsAt Between world.old }
    ensures { IfSome result (λ turn. IsAt (after_turn turn) world.new) }
{
    let mut turn = begin_main(world)?;
    for number in 1..live {
        turn = next(world, turn, number)?;
    }
    Some(turn)
}

// Checks whether thread 0 starts all others, then the run stops in this way, and returns the same again.
fn stops(world: &mut World, live: u32, stop: Stop, cost: u64) -> bool
    requires { IsAt Between world.old }
{
    match last(world, live) {
        None => false,
        Some(turn) => turn == Turn::Cut { stop, cost } && again(world, &turn),
    }
}

// Checks whether the run stops in this way, with this number of threads and of free chunks.
fn is_row(alloc: Global, chunks: u32, live: u32, stop: Stop, cost: u64, free: u32) -> bool {
    let setup = Setup {
        chunk: 64,
        max_path: 48,
        chunks,
        fuel: FUEL,
        backlog: 1,
        cap: 0,
    };
    match world_of(alloc, CROWD, setup) {
        None => false,
        Some(mut world) => {
            let is_so = stops(&mut world, live, stop, cost);
            let is_left = world.live() == live && world.free() == free;
            drop(world);
            is_so && is_left
        }
    }
}

// The number of chunks, the number of live threads at the stop, the stop with its cost, and the number of free chunks.
//
// First the maximum number of threads is live, and one chunk is free: a round of the loop that starts threads has 16
// instructions up to the call. Then no chunk is free either: the number of threads is tested first. At last no chunk is
// free for a thread.
const ROWS: [(u32, u32, Stop, u64, u32); 3] = [
    (65_536, 65_535, Stop::Threads, 1_048_560, 1),
    (65_535, 65_535, Stop::Threads, 1_048_560, 0),
    (3, 3, Stop::NoChunk, 48, 0),
];

fn all_hold(alloc: Global, rows: &[(u32, u32, Stop, u64, u32)]) -> bool {
    for (chunks, live, stop, cost, free) in rows {
        if !is_row(alloc, *chunks, *live, *stop, *cost, *free) {
            return false;
        }
    }
    true
}

#[test]
fn crowds(rt: HostRuntime) {
    assert!(rt; all_hold(rt.alloc(), &ROWS));
}
