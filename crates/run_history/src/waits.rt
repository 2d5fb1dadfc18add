// The waits of a run, by the sites at which threads waited.
ghost use Rattle.std.specs.Prelude.{◌≡◌, Some};
ghost use Rattle.run_history.specs.Longest.{longer_of};
ghost use Rattle.run_history.specs.Waits.{is_told};

use crate::history::HistoryError;
use report_figures::{TickList, Window};
use std::alloc::Global;
use std::collections::BTreeMap;

/// The length of a wait at a site.
#[derive(Clone, Copy)]
pub struct WaitLength {
    /// The site of the blocking call.
    pub site: u32,
    /// The thread that waited.
    pub thread: u32,
    /// The length in ticks.
    pub ticks: u64,
    /// The clock at which it ended.
    pub until: u64,
}

/// The waits at a site.
#[derive(Drop)]
pub struct SiteWaits {
    /// The length of each in ticks, in order.
    pub ticks: TickList,
    /// The longest wait, the earliest of equally long ones.
    pub longest: WaitLength,
}

/// Waits by site; a site without waits has no entry.
#[derive(Drop)]
pub struct WaitLists {
    alloc: Global,
    /// The waits at each site that has some.
    pub sites: BTreeMap<u32, SiteWaits>,
}

impl SiteWaits {
    ghost use Rattle.std.specs.Prelude.{◌≡◌, ◌++◌, ◌∷◌, [], Some, OnOk, IfOk};
    ghost use Rattle.run_history.specs.Longest.{longer_of};
    ghost use Rattle.report_figures.specs.Ticks.{ticks_in};

    /// Returns the waits at a site after the first one.
    fn first(alloc: Global, wait: WaitLength) -> Result<SiteWaits, HistoryError>
        ensures ticks { IfOk result (λ waits. ticks_in waits.ticks ≡ wait.ticks ∷ []) }
        ensures longest { IfOk result (λ waits. waits.longest ≡ wait) }
    {
        let mut ticks = TickList::new(alloc);
        ticks.push(wait.ticks)?;
        Ok(SiteWaits {
            ticks,
            longest: wait,
        })
    }

    /// Adds a wait.
    fn add(&mut self, wait: WaitLength) -> Result<(), HistoryError>
        ensures ticks { OnOk result (ticks_in self.new.ticks ≡ ticks_in self.old.ticks ++ wait.ticks ∷ []) }
        ensures longest { OnOk result (self.new.longest ≡ longer_of (Some self.old.longest) wait) }
    {
        self.longest = longer_of(self.longest, wait);
        self.ticks.push(wait.ticks)?;
        Ok(())
    }
}

impl WaitLists {
    ghost use Rattle.std.specs.Prelude.{◌≡◌, ℕ, None, OnOk};
    ghost use Rattle.std.specs.BTreeMap.{get};
    ghost use Rattle.std.specs.Ordering.{nat_cmp};
    ghost use Rattle.run_history.specs.Longest.{longer_at};
    ghost use Rattle.run_history.specs.Waits.{ticks_kept, longest_kept, with_ticks};

    /// Returns no waits. It doesn't allocate.
    pub fn new(alloc: Global) -> WaitLists
        ensures { (site : ℕ) → get nat_cmp result.sites site ≡ None }
    {
        WaitLists {
            alloc,
            sites: BTreeMap::new(alloc),
        }
    }

    /// Adds a wait. After an error the contents are unspecified.
    pub fn add(&mut self, wait: WaitLength) -> Result<(), HistoryError>
        ensures ticks { (site : ℕ) → OnOk result (ticks_kept (get nat_cmp self.new.sites site) ≡ with_ticks site (ticks_kept (get nat_cmp self.old.sites site)) wait) }
        ensures longest { (site : ℕ) → OnOk result (longest_kept (get nat_cmp self.new.sites site) ≡ longer_at site (longest_kept (get nat_cmp self.old.sites site)) wait) }
    {
        if let Some(waits) = self.sites.get_mut(&wait.site) {
            return waits.add(wait);
        }
        let waits = SiteWaits::first(self.alloc, wait)?;
        self.sites.insert(wait.site, waits)?;
        Ok(())
    }
}

/// Returns the longer of two waits, the first if they are equally long.
fn longer_of(before: WaitLength, wait: WaitLength) -> WaitLength
    ensures { result ≡ longer_of (Some before) wait }
{
    if before.ticks < wait.ticks {
        wait
    } else {
        before
    }
}

/// Checks whether a clock is in the window, if there is one.
pub(crate) fn is_told(window: Option<Window>, clock: u64) -> bool
    ensures { result ≡ is_told window clock }
{
    match window {
        Some(window) => window.has(clock),
        None => true,
    }
}
