use report_figures::{TickList, Window};
use run_history::Numbers;

/// The numbers of a run and the times of its trace's events, in order, and the window of clocks that are included: all,
/// if there is no window.
#[derive(Clone, Copy)]
pub struct Scope<'a> {
    /// The numbers of the run.
    pub numbers: &'a Numbers,
    /// The times of the trace's events, in order.
    pub times: &'a TickList,
    /// The window, or `None` for the whole run.
    pub window: Option<Window>,
}

impl<'a> Scope<'a> {
    /// Checks whether a clock is included.
    pub(crate) fn has(&self, clock: u64) -> bool {
        match self.window {
            Some(window) => window.has(clock),
            None => true,
        }
    }

    /// Returns the time of the request of that number, from 0 in the order in which requests came, if it is included.
    pub(crate) fn arrived(&self, request: usize) -> Option<u64> {
        let line = self.numbers.arrivals.get(request)?;
        let time = self.times.get(line as usize)?;
        if self.has(time) { Some(time) } else { None }
    }

    /// Returns how many of the first `requests` requests are included.
    pub(crate) fn count(&self, requests: usize) -> u64 {
        if self.window.is_none() {
            return requests as u64;
        }
        let mut count: u64 = 0;
        for request in 0..requests {
            if self.arrived(request).is_some() {
                count = count.saturating_add(1);
            }
        }
        count
    }
}
