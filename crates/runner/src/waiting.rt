ghost use Rattle.std.specs.Prelude.{◌≡◌, false, List, None, Option, ℕ};
ghost use Rattle.choice_rules.specs.Clock.{is_due};
ghost use Rattle.lawful_log.specs.Setup.{Setup};
ghost use Rattle.lawful_log.specs.State.{State};
ghost use Rattle.run_course.specs.Starts.{KeepsRun};
ghost use Rattle.run_course.specs.Kept.{Kept};
ghost use Rattle.run_course.specs.Stands.{IsAtPoint};
ghost use Rattle.runner.specs.Waits.{WaitEnds, earlier, time_of};
ghost use Rattle.run_course.specs.Rest.{Rest};
ghost use Rattle.thread_core.specs.Ready.{any_ready_in};

use event_trace::Event;
use run_course::Halt;
use thread_core::World;

/// Advances the clock to the next time at which something may happen, if no thread is ready and the next event isn't
/// due. Returns the stop if there is no such time.
pub(crate) fn wait(world: &mut World, next: Option<Event>) -> Option<Halt>
    requires point { (g : Setup) × (state : State) × (k : Kept) × (left : Rest)
        × IsAtPoint g state k world.old left next }
    requires unready { any_ready_in world.old ≡ false }
    requires not_due { is_due next world.old.machine.clock ≡ false }
    ensures ends { (g : Setup) (state : State) (k : Kept) (left : Rest) →
        IsAtPoint g state k world.old left next →
        WaitEnds g state k world.old world.new left result }
    ensures keeps { KeepsRun world.old world.new }
    ensures cost { world.new.machine.cost ≡ world.old.machine.cost }
{
    match earliest(time_of_event(next), world.wake()) {
        None => Some(Halt::Idle),
        Some(time) => {
            world.advance(time);
            None
        }
    }
}

/// Returns the time of the next event, if there is one.
fn time_of_event(next: Option<Event>) -> Option<u64>
    ensures { result ≡ time_of next }
{
    match next {
        Some(event) => Some(event.time),
        None => None,
    }
}

/// Returns the earlier of two times.
fn earliest(one: Option<u64>, other: Option<u64>) -> Option<u64>
    ensures { result ≡ earlier one other }
{
    match (one, other) {
        (Some(a), Some(b)) => Some(if a <= b { a } else { b }),
        (Some(a), None) => Some(a),
        (None, Some(b)) => Some(b),
        (None, None) => None,
    }
}
