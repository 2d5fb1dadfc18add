// Rows of the traps of modelled calls, each at the limit of its condition; a run that has stopped returns the same
// again.

ghost use Rattle.command_rows.specs.Moments.{IsAt};
ghost use Rattle.command_rows.specs.declared.moments.Moment.TheVariants.{Between};

use crate::building::{FUEL, Setup, world_of};
use crate::playing::Step::{Begin, Free, Proceed};
use crate::playing::Told::{Cut, Ends, Stops, Waits};
use crate::playing::{Told, plays};
use cap_word::{Stop, TrapKind};
use std::alloc::Global;
use thread_core::World;

const RESOURCE: Told = Stops(Stop::Trap(TrapKind::Resource));

const CHANNEL: Told = Stops(Stop::Trap(TrapKind::Channel));

// A program with the cap of resource 1, its first turn, and how many of its 4 chunks are free after it.
const ROWS: [(&[u8], u32, Told, u32); 18] = [
    // more than the cap
    (
        b"int main() { take(1, 2); return 0; }",
        1,
        Cut(Stop::Trap(TrapKind::Resource), 11),
        3,
    ),
    (b"int main() { take(1, 1); return 0; }", 1, Waits(0), 3),
    // a negative number
    (b"int main() { take(1, 0 - 1); return 0; }", 1, RESOURCE, 3),
    (b"int main() { take(1, 0); return 0; }", 1, Waits(0), 3),
    // no cap
    (b"int main() { take(1, 0); return 0; }", 0, RESOURCE, 3),
    (b"int main() { take(0, 0); return 0; }", 1, RESOURCE, 3),
    (b"int main() { take(8, 0); return 0; }", 1, RESOURCE, 3),
    (b"int main() { take(0 - 1, 0); return 0; }", 1, RESOURCE, 3),
    // more than the use
    (b"int main() { give(1, 1); return 0; }", 1, RESOURCE, 3),
    (b"int main() { give(1, 0); return 0; }", 1, Ends, 4),
    (b"int main() { give(1, 0 - 1); return 0; }", 1, RESOURCE, 3),
    (b"int main() { give(2, 0); return 0; }", 1, RESOURCE, 3),
    // no such channel
    (
        b"int main() { int x; x = wait(64); return x; }",
        1,
        Cut(Stop::Trap(TrapKind::Channel), 10),
        3,
    ),
    (
        b"int main() { int x; x = wait(0 - 1); return x; }",
        1,
        CHANNEL,
        3,
    ),
    (
        b"int main() { int x; x = wait(0); return x; }",
        1,
        Waits(0),
        3,
    ),
    (
        b"int main() { int x; x = waitfor(64, 0); return x; }",
        1,
        Cut(Stop::Trap(TrapKind::Channel), 14),
        3,
    ),
    (
        b"int main() { int x; x = waitfor(0 - 1, 5); return x; }",
        1,
        CHANNEL,
        3,
    ),
    (
        b"int main() { int x; x = waitfor(63, 0 - 1); return x; }",
        1,
        Waits(0),
        3,
    ),
];

// Checks whether the first segment of a world ends in this way, with this number of free chunks; a run that has stopped
// returns the same again.
fn tells(world: &mut World, told: Told, free: u32) -> bool
    requires { IsAt Between world.old }
{
    match told {
        Cut(..) | Stops(_) => plays(
            world,
            &[Begin(0, told), Begin(0, told), Proceed(told), Free(free)],
        ),
        _ => plays(world, &[Begin(0, told), Free(free)]),
    }
}

// Checks whether the first segment of a program ends in this way.
fn is_row(alloc: Global, source: &[u8], cap: u32, told: Told, free: u32) -> bool {
    let setup = Setup {
        chunk: 4096,
        max_path: 2032,
        chunks: 4,
        fuel: FUEL,
        backlog: 1,
        cap,
    };
    match world_of(alloc, source, setup) {
        None => false,
        Some(mut world) => {
            let is_so = tells(&mut world, told, free);
            drop(world);
            is_so
        }
    }
}

fn all_hold(alloc: Global, rows: &[(&[u8], u32, Told, u32)]) -> bool {
    for (source, cap, told, free) in rows {
        if !is_row(alloc, source, *cap, *told, *free) {
            return false;
        }
    }
    true
}

#[test]
fn traps(rt: HostRuntime) {
    assert!(rt; all_hold(rt.alloc(), &ROWS));
}
