use crate::happenings::{Happening, Wait};
use std::alloc::{AllocError, Global};
use std::collections::BTreeMap;

/// The last wait of each thread at some places, since it last took a request.
#[derive(Drop)]
pub struct Takes {
    /// The last such wait of each thread that has one.
    pub lasts: BTreeMap<u32, Wait>,
}

impl Takes {
    ghost use Rattle.std.specs.Prelude.{◌≡◌, ℕ, None, OnOk};
    ghost use Rattle.std.specs.BTreeMap.{get};
    ghost use Rattle.std.specs.Ordering.{nat_cmp};
    ghost use Rattle.run_history.specs.Takes.{after_wait_of, with_told};

    /// Returns the state before the first entry. It doesn't allocate.
    pub fn new(alloc: Global) -> Takes
        ensures { (thread : ℕ) → get nat_cmp result.lasts thread ≡ None }
    {
        Takes {
            lasts: BTreeMap::new(alloc),
        }
    }

    /// Adds the happening of the next entry. `places` has at each site's number whether it is one of the places. After
    /// an error the contents are unspecified.
    pub fn add(&mut self, told: Happening, places: &[bool]) -> Result<(), AllocError>
        ensures { (thread : ℕ) → OnOk result (get nat_cmp self.new.lasts thread ≡ with_told places.now thread told (get nat_cmp self.old.lasts thread)) }
    {
        match told {
            Happening::Came { .. } => Ok(()),
            Happening::Lost { .. } => Ok(()),
            Happening::Started { .. } => Ok(()),
            Happening::Waited(wait) => self.wait(wait, places),
            Happening::Put { .. } => Ok(()),
            Happening::Ran { .. } => Ok(()),
            Happening::Nothing => Ok(()),
        }
    }

    /// Adds a finished wait.
    fn wait(&mut self, wait: Wait, places: &[bool]) -> Result<(), AllocError>
        ensures { (thread : ℕ) → OnOk result (get nat_cmp self.new.lasts thread ≡ after_wait_of places.now thread wait (get nat_cmp self.old.lasts thread)) }
    {
        if wait.request.is_some() {
            self.lasts.remove(&wait.thread);
            return Ok(());
        }
        if places.get(wait.site as usize).copied().unwrap_or(false) {
            self.lasts.insert(wait.thread, wait)?;
        }
        Ok(())
    }
}
