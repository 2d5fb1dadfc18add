// The events and the clock of a world that is repeated.
ghost use Rattle.std.specs.Prelude.{IfSome};
ghost use Rattle.report.specs.Between.{GoesOn, IsBetween};

use event_trace::{Event, EventKind};
use schedule_log::Item;
use thread_core::World;

/// The latest clock of a run.
const LAST: u64 = 0x8000_0000_0000_0000;

/// The number of channels.
const CHANNELS: u32 = 64;

/// Advances the clock to that time. Returns `false` if it is past, or later than any clock of a run.
pub(crate) fn reach(world: &mut World, clock: u64) -> bool
    requires { IsBetween world.old }
    ensures { IsBetween world.new }
{
    if clock < world.clock() || clock > LAST {
        return false;
    }
    world.advance(clock);
    true
}

/// Delivers an item at that time, as the log says. Returns `true` if the run continues, or `None` if the delivery is
/// impossible: the time is past, or the channel of a message doesn't exist.
pub(crate) fn come(world: &mut World, clock: u64, item: &Item) -> Option<bool>
    requires { IsBetween world.old }
    ensures { IfSome result (λ goes. GoesOn goes world.new) }
{
    if !reach(world, clock) {
        return None;
    }
    match item {
        Item::Arrive { value } => {
            world.deliver(Event {
                time: clock,
                kind: EventKind::Arrive {
                    value: value.cast_unsigned(),
                },
            });
            Some(true)
        }
        Item::Data { channel, value } => {
            if *channel >= CHANNELS {
                return None;
            }
            world.deliver(Event {
                time: clock,
                kind: EventKind::Message {
                    channel: *channel,
                    value: value.cast_unsigned(),
                },
            });
            Some(true)
        }
    }
}
