// The two calls that run a segment, by the state of the run.

ghost use Rattle.std.specs.Prelude.{◌≡◌, IfSome, IsTrue};
ghost use Rattle.thread_core.specs.Ready.{is_ready_in};
ghost use Rattle.command_rows.specs.Moments.{IsAt, after_turn};
ghost use Rattle.command_rows.specs.declared.moments.Moment.TheVariants.{Between, Over, Within};

use crate::moments::Moment;
use cap_word::{Ready, ThreadId};
use thread_core::{Turn, World};

/// Returns the state of a run after a turn, if it hadn't stopped before.
pub(crate) fn after(turn: &Turn) -> Moment
    ensures { result ≡ after_turn turn.now }
{
    match turn {
        Turn::Out { .. } | Turn::Spawned { .. } => Moment::Within,
        Turn::Blocked { .. } | Turn::Ended { .. } => Moment::Between,
        Turn::Cut { .. } | Turn::Memory => Moment::Over,
    }
}

/// Begins a segment of a thread that is ready.
pub(crate) fn begin_ready(world: &mut World, thread: ThreadId) -> Turn
    requires at { IsAt Between world.old }
    requires ready { IsTrue (is_ready_in world.old thread) }
    ensures { IsAt (after_turn result) world.new }
{
    world.begin(thread)
}

/// Begins the first segment of thread 0, if that is ready.
pub(crate) fn begin_main(world: &mut World) -> Option<Turn>
    requires { IsAt Between world.old }
    ensures { IfSome result (λ turn. IsAt (after_turn turn) world.new) }
{
    let main = world.main_thread();
    if !world.is_ready(main) {
        return None;
    }
    Some(begin_ready(world, main))
}

/// Continues the segment in progress.
pub(crate) fn go_on(world: &mut World) -> Turn
    requires { IsAt Within world.old }
    ensures { IsAt (after_turn result) world.new }
{
    world.proceed()
}

/// Tries to begin a segment of a thread after the run has stopped.
pub(crate) fn begin_over(world: &mut World, thread: ThreadId) -> Turn
    requires { IsAt Over world.old }
    ensures { IsAt Over world.new }
{
    world.begin(thread)
}

/// Tries to continue a segment after the run has stopped.
pub(crate) fn go_on_over(world: &mut World) -> Turn
    requires { IsAt Over world.old }
    ensures { IsAt Over world.new }
{
    world.proceed()
}

/// Checks whether a run that has stopped in this way returns the same to both calls.
pub(crate) fn again(world: &mut World, turn: &Turn) -> bool
    requires { IsAt (after_turn turn.now) world.old }
{
    match after(turn) {
        Moment::Over => {
            let main = world.main_thread();
            begin_over(world, main) == *turn && go_on_over(world) == *turn
        }
        _ => false,
    }
}
