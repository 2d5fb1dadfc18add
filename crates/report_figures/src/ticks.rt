ghost use Rattle.std.specs.Prelude.{◌≡◌, ◌++◌, OnOk};

use std::alloc::{AllocError, Global};

/// A list of numbers. A pushed number takes 4 bytes up to the first one of at least 2^32, and 8 bytes from there on. If
/// `set` puts such a number among those of 4 bytes, all take 8.
#[derive(Drop)]
pub struct TickList {
    alloc: Global,
    /// The first numbers, in 4 bytes each.
    pub small: Vec<u32>,
    /// The other numbers, in 8 bytes each.
    pub large: Vec<u64>,
}

impl TickList {
    ghost use Rattle.std.specs.Prelude.{◌≡◌, ℕ, ◌<◌, ◌+◌, ◌-◌, ◌++◌, ◌∷◌, [], IsPermutation, IsSorted, OnErr, OnOk, get_or, length, set, slice_get};
    ghost use Rattle.std.specs.Ordering.{nat_cmp};
    ghost use Rattle.report_figures.specs.Ticks.{ticks_in};

    /// Returns an empty list. It doesn't allocate.
    pub fn new(alloc: Global) -> TickList
        ensures { ticks_in result ≡ [] }
    {
        TickList {
            alloc,
            small: Vec::new(alloc),
            large: Vec::new(alloc),
        }
    }

    /// Appends a number. After an error the contents are unspecified.
    pub fn push(&mut self, ticks: u64) -> Result<(), AllocError>
        ensures { OnOk result (ticks_in self.new ≡ ticks_in self.old ++ ticks ∷ []) }
    {
        if self.large.is_empty() && ticks <= u64::from(u32::MAX) {
            self.small.push(ticks as u32)?;
        } else {
            self.large.push(ticks)?;
        }
        Ok(())
    }

    /// Returns the number of numbers.
    pub fn len(&self) -> usize
        ensures { result ≡ length (ticks_in self.now) }
    {
        self.small.len() + self.large.len()
    }

    /// Returns the number at a place, from 0.
    pub fn get(&self, place: usize) -> Option<u64>
        ensures { result ≡ slice_get (ticks_in self.now) place }
    {
        let count = self.small.len();
        if place < count {
            return Some(u64::from(self.small[place]));
        }
        self.large.as_slice().get(place - count).copied()
    }

    /// Returns the number at a place, or 0 after the last one.
    pub fn at(&self, place: usize) -> u64
        ensures { result ≡ get_or (ticks_in self.now) place 0 }
    {
        self.get(place).unwrap_or(0)
    }

    /// Replaces the number at a place. After an error the contents are unspecified.
    pub fn set(&mut self, place: usize, ticks: u64) -> Result<(), AllocError>
        requires { place < length (ticks_in self.old) }
        ensures { OnOk result (ticks_in self.new ≡ set (ticks_in self.old) place ticks) }
    {
        let count = self.small.len();
        if place >= count {
            self.large[place - count] = ticks;
        } else if ticks <= u64::from(u32::MAX) {
            self.small[place] = ticks as u32;
        } else {
            self.widen()?;
            self.large[place] = ticks;
        }
        Ok(())
    }

    /// Appends zeros until there is a number at that place. After an error the contents are unspecified.
    pub fn reach(&mut self, place: usize) -> Result<(), AllocError>
        ensures same { (other : ℕ) → OnOk result (get_or (ticks_in self.new) other 0 ≡ get_or (ticks_in self.old) other 0) }
        ensures count { OnOk result (length (ticks_in self.new) ≡ length (ticks_in self.old) + (place + 1 - length (ticks_in self.old))) }
    {
        while self.len() <= place {
            self.push(0)?;
        }
        Ok(())
    }

    /// Puts the numbers in order of size. It is refused only where a number is kept in 8 bytes, and takes no memory else. After a
    /// refusal nothing else is said.
    pub fn sort(&mut self) -> Result<(), AllocError>
        ensures same { OnOk result (IsPermutation (ticks_in self.old) (ticks_in self.new)) }
        ensures sorted { OnOk result (IsSorted nat_cmp (ticks_in self.new)) }
        ensures count { OnOk result (length (ticks_in self.new) ≡ length (ticks_in self.old)) }
        ensures refused { OnErr result (self.old.large.items ≡ [] → ⊥) }
    {
        if self.large.is_empty() {
            self.small.sort_unstable();
        } else {
            self.widen()?;
            self.large.sort_unstable();
        }
        Ok(())
    }

    /// Stores all numbers in 8 bytes. After an error the contents are unspecified.
    fn widen(&mut self) -> Result<(), AllocError>
        ensures small { OnOk result (self.new.small.items ≡ []) }
        ensures large { OnOk result (self.new.large.items ≡ ticks_in self.old) }
    {
        let mut wide = Vec::new(self.alloc);
        add_all(&mut wide, self.small.as_slice())?;
        wide.extend_from_slice(self.large.as_slice())?;
        self.small.clear();
        self.large = wide;
        Ok(())
    }
}

/// Appends all of these numbers.
fn add_all(wide: &mut Vec<u64>, small: &[u32]) -> Result<(), AllocError>
    ensures { OnOk result (wide.new.items ≡ wide.old.items ++ small.now) }
{
    for ticks in small {
        wide.push(u64::from(*ticks))?;
    }
    Ok(())
}
