// Out of memory in a segment, which is only possible at the start of a thread. In a test run memory is ample; a run
// that refuses each allocation in turn checks the answers.

ghost use Rattle.command_rows.specs.Moments.{IsAt};
ghost use Rattle.command_rows.specs.declared.moments.Moment.TheVariants.{Between};

use crate::building::{USUAL, world_of};
use crate::sources::SERVER;
use crate::turns::{again, begin_main};
use std::alloc::Global;
use thread_core::{Turn, World};

// Checks whether a thread starts, or memory runs out for it: then the run has stopped, and no thread and no chunk has
// changed.
fn starts_or_stops(world: &mut World) -> bool
    requires { IsAt Between world.old }
{
    match begin_main(world) {
        None => false,
        Some(turn) => match turn {
            Turn::Spawned { .. } => world.live() == 2 && world.free() == 1022,
            Turn::Memory => world.live() == 1 && world.free() == 1023 && again(world, &turn),
            _ => false,
        },
    }
}

// Does the same with a new world, unless memory runs out for that.
fn is_row(alloc: Global) -> bool {
    match world_of(alloc, SERVER, USUAL) {
        None => true,
        Some(mut world) => {
            let is_so = starts_or_stops(&mut world);
            drop(world);
            is_so
        }
    }
}

#[test]
fn a_start(rt: HostRuntime) {
    assert!(rt; is_row(rt.alloc()));
}
