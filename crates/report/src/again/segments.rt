// A segment of a world that is repeated.
ghost use Rattle.std.specs.Prelude.{◌≡◌, None, IfSome};
ghost use Rattle.report.specs.Between.{GoesOn, IsBetween};

use crate::push::push;
use cap_word::{Ready, ThreadId};
use thread_core::{Turn, World};

/// Runs a segment of a thread, and appends the threads that it starts to `started`. Returns `true` if the thread has
/// blocked or ended, and `false` if the segment was cut off and the run has stopped. Returns `None` if the thread isn't
/// ready, or if memory runs out.
pub(crate) fn run_segment(
    world: &mut World,
    thread: ThreadId,
    started: &mut Vec<ThreadId>,
) -> Option<bool>
    requires { IsBetween world.old }
    ensures { IfSome result (λ goes. GoesOn goes world.new) }
{
    if !world.is_ready(thread) {
        return None;
    }
    let mut turn = world.begin(thread);
    for _ in 0..u64::MAX {
        match turn {
            Turn::Out { .. } => {
                turn = world.proceed();
            }
            Turn::Spawned { thread: spawned } => {
                push(started, spawned).ok()?;
                turn = world.proceed();
            }
            Turn::Blocked { .. } => return Some(true),
            Turn::Ended { .. } => return Some(true),
            Turn::Cut { .. } => return Some(false),
            Turn::Memory => return None,
        }
    }
    None
}
