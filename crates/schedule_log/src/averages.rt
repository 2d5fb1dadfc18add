ghost use Rattle.std.specs.Prelude.{◌≡◌, ◌≤◌, length};

use std::marker::Model;

/// The averages of an edge of the blocking graph: the average change in the use of each resource, scaled by 256. They
/// are a list of one to eight numbers, that of resource 0 first.
#[derive(Clone, Copy)]
pub struct Averages {
    used: u32,
    places: [i128; 8],
}

impl Model for Averages {
    ghost use Rattle.std.specs.Prelude.{◌≡◌, ℤ, pos, ℕ, ◌-◌, ◌≤◌, List, length, take, drop, replicate};
    ghost use Rattle.schedule_log.specs.Averages.{places_of, length-take-used, places_of-take};

    ghost Value = { List ℤ };

    ghost view = { λ averages. take averages.used averages.places };

    ghost invariant = { λ averages. (1 ≤ averages.used) × (averages.used ≤ 8) × (length averages.places ≡ 8) × (drop averages.used averages.places ≡ replicate (8 - averages.used) (pos 0)) };

    ghost inverse = { λ values. record { used = length values; places = places_of values } };

    ghost inverse_ok = { λ averages holds. rw (places_of-take averages.used averages.places holds.1 holds.2 holds.3, length-take-used averages.used averages.places holds.1 holds.2) };
}

impl Averages {
    /// The maximum number of averages of an edge.
    pub const MOST: usize = 8;

    /// Returns these averages, that of resource 0 first.
    pub fn new(values: &[i128]) -> Averages
        requires some { 1 ≤ length values.now }
        requires fits { length values.now ≤ 8 }
        ensures { result ≡ values.now }
    {
        let mut places = [0; 8];
        places[..values.len()].copy_from_slice(values);
        Averages {
            used: values.len() as u32,
            places,
        }
    }

    /// Returns the averages, that of resource 0 first.
    pub fn values(&self) -> &[i128]
        ensures all { result.now ≡ self.now }
        ensures some { 1 ≤ length result.now }
        ensures most { length result.now ≤ 8 }
    {
        &self.places[..self.used as usize]
    }
}
