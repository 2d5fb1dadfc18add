ghost use Rattle.std.specs.Prelude.{◌≡◌};
ghost use Rattle.run_history.specs.Unasked.{unasked_puts};

use crate::happenings::{Happening, Segment};
use crate::history::HistoryError;
use std::alloc::Global;
use std::collections::BTreeMap;

/// The number of words that each thread put while it served no request: before it took one, or without ever taking one.
#[derive(Drop)]
pub struct Unasked {
    /// The number of words of each thread that put some.
    pub puts: BTreeMap<u32, u64>,
}

impl Unasked {
    ghost use Rattle.std.specs.Prelude.{◌≡◌, ℕ, None, OnOk};
    ghost use Rattle.std.specs.BTreeMap.{get};
    ghost use Rattle.std.specs.Ordering.{nat_cmp};
    ghost use Rattle.run_history.specs.Unasked.{puts_in, with_puts, with_segment};

    /// Returns the state before the first entry. It doesn't allocate.
    pub fn new(alloc: Global) -> Unasked
        ensures { (thread : ℕ) → get nat_cmp result.puts thread ≡ None }
    {
        Unasked {
            puts: BTreeMap::new(alloc),
        }
    }

    /// Adds the happening of the next entry. After an error the contents are unspecified.
    pub fn add(&mut self, told: Happening) -> Result<(), HistoryError>
        ensures { (thread : ℕ) → OnOk result (puts_in (get nat_cmp self.new.puts thread) ≡ with_puts thread told (puts_in (get nat_cmp self.old.puts thread))) }
    {
        match told {
            Happening::Came { .. } => Ok(()),
            Happening::Lost { .. } => Ok(()),
            Happening::Started { .. } => Ok(()),
            Happening::Waited(_) => Ok(()),
            Happening::Put { .. } => Ok(()),
            Happening::Ran { segment, .. } => self.run(segment),
            Happening::Nothing => Ok(()),
        }
    }

    /// Adds a finished segment.
    fn run(&mut self, segment: Segment) -> Result<(), HistoryError>
        ensures { (thread : ℕ) → OnOk result (puts_in (get nat_cmp self.new.puts thread) ≡ with_segment thread segment (puts_in (get nat_cmp self.old.puts thread))) }
    {
        let puts = unasked_puts(segment);
        if puts == 0 {
            return Ok(());
        }
        let before = self.puts.get(&segment.thread).copied().unwrap_or(0);
        let Some(now) = before.checked_add(puts) else {
            return Err(HistoryError::Count);
        };
        self.puts.insert(segment.thread, now)?;
        Ok(())
    }
}

/// Returns the number of words that a segment put, if it served no request.
fn unasked_puts(segment: Segment) -> u64
    ensures { result ≡ unasked_puts segment }
{
    match segment.request {
        None => segment.puts,
        Some(_) => 0,
    }
}
