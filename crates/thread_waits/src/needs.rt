// The needs of waiting threads, and the bounds against which they are tested.
ghost use Rattle.std.specs.Prelude.{◌≡◌, ◌+◌, ◌-◌, ◌<◌, ◌≤◌, ◌^◌, ℕ, Some, option_map, slice_index};
ghost use Rattle.c_mean.specs.ModelledCalls.{cap_of, channel_of, holds_some, ticks_of, use_of};
ghost use Rattle.ready_tree.specs.Needs.{is_met, is_shared};
ghost use Rattle.ready_tree.specs.declared.needs.Need.TheVariants.{Event};
ghost use Rattle.thread_waits.specs.Needs.{need_for};
ghost use Rattle.thread_waits.specs.Waiting.{IsWaitInRange, is_ready_for, latest, wait_at};
ghost use Rattle.thread_waits.specs.declared.waits.Wait.{Wait as WaitOf};

use crate::waits::{Wait, Waits};
use cap_word::Block;
use ready_tree::{Bounds, Need};
use thread_exchange::{Exchange, ticks_of};

/// Returns the need of a wait.
fn need_of(wait: Wait) -> Need
    requires { IsWaitInRange wait }
    ensures { result ≡ need_for wait }
{
    match wait {
        Wait::Fresh => Need::Nothing,
        Wait::At { block, since } => match block {
            Block::Accept => Need::Arrival,
            Block::Wait { channel } => Need::Event {
                channels: 1 << channel,
                from: Need::NEVER,
            },
            Block::Sleep { ticks } => message_or_time(0, since, ticks),
            Block::Yield => Need::Nothing,
            Block::WaitFor { channel, ticks } => message_or_time(1 << channel, since, ticks),
            Block::Take { resource, amount } => Need::Amount { resource, amount },
        },
    }
}

// Returns the need of a message of one of these channels, or of `ticks` ticks after a clock.
fn message_or_time(channels: u64, since: u64, ticks: u32) -> Need
    requires { since ≤ latest }
    ensures { result ≡ Event channels (since + ticks_of ticks) }
{
    Need::Event {
        channels,
        from: since + ticks_of(ticks),
    }
}

// Returns the channels that have a message, as bits.
fn held_channels(exchange: &Exchange) -> u64
    ensures { (channel : ℕ) → channel < 64 → is_shared result (2 ^ channel) ≡ holds_some (channel_of exchange.now.exchange channel) }
{
    let mut held: u64 = 0;
    for channel in 0..Exchange::CHANNELS {
        if exchange.holds_message(channel) {
            held |= 1 << channel;
        }
    }
    held
}

// Returns the unused amount of each resource.
fn unused_of(exchange: &Exchange) -> [u32; 8]
    ensures is { (r : ℕ) → r < 8 → slice_index result r ≡ cap_of exchange.now.caps r - use_of exchange.now.exchange r }
    ensures within { (r : ℕ) → r < 8 → use_of exchange.now.exchange r ≤ cap_of exchange.now.caps r }
{
    let mut unused = [0; 8];
    for resource in 0..8u32 {
        unused[resource as usize] = exchange.cap(resource) - exchange.used(resource);
    }
    unused
}

impl Waits {
    /// Returns the need of the thread that waits at a place.
    pub fn need_at(&self, place: usize) -> Option<Need>
        ensures { result ≡ option_map need_for (wait_at self.now place) }
    {
        let wait = self.places.get(place).copied().flatten()?;
        Some(need_of(wait))
    }

    /// Returns the bounds of the exchange and the clock: the need of a waiting thread is met exactly if the thread is
    /// ready.
    pub fn bounds(&self, exchange: &Exchange) -> Bounds
        ensures { (place : ℕ) (wait : WaitOf) → wait_at self.now place ≡ Some wait → is_met result (need_for wait) ≡ is_ready_for exchange.now.caps exchange.now.exchange self.now.clock wait }
    {
        Bounds {
            arrival: exchange.holds_arrival(),
            channels: held_channels(exchange),
            clock: self.clock,
            unused: unused_of(exchange),
        }
    }
}
