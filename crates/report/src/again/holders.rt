use run_history::HistoryError;
use std::alloc::Global;
use std::collections::BTreeMap;

/// The number of units of a resource that each thread holds, by thread number: the sum of the changes of its use by the
/// thread's segments.
#[derive(Drop)]
pub struct Holders {
    /// The number of units of each thread whose segments changed the use.
    pub held: BTreeMap<u32, i64>,
}

impl Holders {
    ghost use Rattle.std.specs.Prelude.{◌≡◌, ◌≢◌, ◌+ℤ◌, ◌-ℤ◌, ℕ, None, pos, OnOk};
    ghost use Rattle.std.specs.BTreeMap.{get};
    ghost use Rattle.std.specs.Ordering.{nat_cmp};
    ghost use Rattle.report.specs.Holds.{held_in};

    /// Returns the state before the first segment: no thread holds anything. It doesn't allocate.
    pub fn new(alloc: Global) -> Holders
        ensures { (thread : ℕ) → get nat_cmp result.held thread ≡ None }
    {
        Holders {
            held: BTreeMap::new(alloc),
        }
    }

    /// Adds the change of the resource's use by a segment of a thread. After an error the contents are unspecified.
    pub fn add(&mut self, thread: u32, before: u32, after: u32) -> Result<(), HistoryError>
        ensures its { OnOk result (held_in (get nat_cmp self.new.held thread) ≡ held_in (get nat_cmp self.old.held thread) +ℤ (pos after -ℤ pos before)) }
        ensures others { (other : ℕ) → other ≢ thread → OnOk result (get nat_cmp self.new.held other ≡ get nat_cmp self.old.held other) }
    {
        if before == after {
            return Ok(());
        }
        let held = self.held.get(&thread).copied().unwrap_or(0);
        match held.checked_add(i64::from(after) - i64::from(before)) {
            Some(now) => match self.held.insert(thread, now) {
                Ok(_) => Ok(()),
                Err(_) => Err(HistoryError::Memory),
            },
            None => Err(HistoryError::Count),
        }
    }
}
