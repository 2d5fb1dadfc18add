ghost use Rattle.std.specs.Prelude.{◌≡◌};
ghost use Rattle.ready_tree.specs.Needs.{is_met, is_some_met};

use crate::amounts::fits_some;
use crate::needs::{Need, Needs};

/// What is available now for waiting threads.
#[derive(Clone, Copy)]
pub struct Bounds {
    /// Whether an arrival is queued.
    pub arrival: bool,
    /// The channels that have a message. Bit c stands for channel c.
    pub channels: u64,
    /// The time.
    pub clock: u64,
    /// The unused amount of each resource.
    pub unused: [u32; 8],
}

impl Bounds {
    /// Returns whether a need is met.
    pub fn meet(&self, need: Need) -> bool
        ensures { result ≡ is_met self.now need }
    {
        match need {
            Need::Nothing => true,
            Need::Arrival => self.arrival,
            Need::Event { channels, from } => self.channels & channels != 0 || from <= self.clock,
            Need::Amount { resource, amount } => {
                resource < 8 && amount <= self.unused[resource as usize]
            }
        }
    }

    /// Returns whether the need of some thread may be met.
    #[tactic(auto, unfolding(crate::specs::Needs::is_some_met))]
    pub fn meet_some(&self, needs: &Needs) -> bool
        ensures { result ≡ is_some_met self.now needs.now }
    {
        needs.nothing
            || (self.arrival && needs.arrival
                || (self.channels & needs.channels != 0
                    || (needs.from <= self.clock || fits_some(&needs.amounts, &self.unused))))
    }
}
