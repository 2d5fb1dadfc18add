ghost use Rattle.std.specs.Prelude.{◌≡◌, ◌||◌, true};
ghost use Rattle.ready_tree.specs.declared.bounds.Bounds.{Bounds};
ghost use Rattle.ready_tree.specs.Needs.{is_met, is_some_met, IsJoin};

use crate::amounts::{lesser, only};

/// The condition under which a thread is ready.
#[derive(Clone, Copy)]
pub enum Need {
    /// None: the thread is ready.
    Nothing,
    /// An arrival is queued.
    Arrival,
    /// One of the channels has a message, or the clock is at least `from`. Bit c of `channels` stands for channel c.
    Event { channels: u64, from: u64 },
    /// At least the amount of the resource is unused.
    Amount { resource: u32, amount: u32 },
}

impl Need {
    /// The time of an event that never comes.
    pub const NEVER: u64 = u64::MAX;
}

/// The needs of several threads together.
#[derive(Clone, Copy)]
pub struct Needs {
    /// Whether one of them needs nothing.
    pub nothing: bool,
    /// Whether one of them needs an arrival.
    pub arrival: bool,
    /// The channels on which one of them waits, by bits.
    pub channels: u64,
    /// The earliest time at which one of them wakes.
    pub from: u64,
    /// The least amount of each resource that one of them needs, and the greatest number if none does. If the whole
    /// range of a resource were unused, that number would count as met: the search would then take more steps, with the
    /// same result.
    pub amounts: [u32; 8],
}

impl Needs {
    /// The needs of no threads.
    pub const NONE: Needs = Needs {
        nothing: false,
        arrival: false,
        channels: 0,
        from: Need::NEVER,
        amounts: [u32::MAX; 8],
    };

    /// Returns the needs of both groups of threads together.
    pub fn join(&self, other: &Needs) -> Needs
        ensures { IsJoin result self.now other.now }
    {
        Needs {
            nothing: either(self.nothing, other.nothing),
            arrival: either(self.arrival, other.arrival),
            channels: self.channels | other.channels,
            from: self.from.min(other.from),
            amounts: lesser(&self.amounts, &other.amounts),
        }
    }

    /// Returns the needs of one thread.
    pub fn of(need: Need) -> Needs
        ensures { (bounds : Bounds) → is_met bounds need ≡ true → is_some_met bounds result ≡ true }
    {
        match need {
            Need::Nothing => Needs {
                nothing: true,
                ..Needs::NONE
            },
            Need::Arrival => Needs {
                arrival: true,
                ..Needs::NONE
            },
            Need::Event { channels, from } => Needs {
                channels,
                from,
                ..Needs::NONE
            },
            Need::Amount { resource, amount } => Needs {
                amounts: only(resource, amount),
                ..Needs::NONE
            },
        }
    }
}

fn either(one: bool, other: bool) -> bool
    ensures { result ≡ (one || other) }
{
    one || other
}
