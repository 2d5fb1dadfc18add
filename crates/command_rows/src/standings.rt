// The pc and registers of a thread at the start of a run, by the rules of a new thread, and of no thread.

use crate::building::{USUAL, world_of};
use cap_word::ThreadId;
use std::alloc::Global;
use thread_core::World;

const MAIN: &[u8] = b"int main() { return 0; }";

/// The first function's entry, after the two words of the end stub at 0x1000.
const ENTRY: u32 = 0x1008;

/// The end of chunk 0, which has 4,096 bytes from 0x80000000.
const END: u32 = 0x8000_1000;

fn standing_in(world: &World, slot: u32, number: u32) -> Option<(u32, u32, u32, u32)> {
    match world.standing(ThreadId { slot, number }) {
        Some(at) => Some((at.pc, at.sp, at.t0, at.t1)),
        None => None,
    }
}

// Returns pc, sp, t0 and t1 of a thread of that number whose record is at that place.
fn standing(alloc: Global, slot: u32, number: u32) -> Option<(u32, u32, u32, u32)> {
    match world_of(alloc, MAIN, USUAL) {
        None => None,
        Some(world) => {
            let standing = standing_in(&world, slot, number);
            drop(world);
            standing
        }
    }
}

#[test]
fn at_the_start(rt: HostRuntime) {
    let alloc = rt.alloc();
    let right = matches!(standing(alloc, 0, 0), Some((ENTRY, END, 0, 0)))
        && matches!(standing(alloc, 0, 1), None)
        && matches!(standing(alloc, 1, 0), None);
    assert!(rt; right);
}
