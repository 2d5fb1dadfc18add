// Summaries of several places, so that a search can skip them.
ghost use Rattle.std.specs.Prelude.{◌≡◌};
ghost use Rattle.stride_rule.specs.Clients.{goes_before};
ghost use Rattle.stride_rule.specs.Summaries.{Covers, Includes, may_help as may_help_in};

use crate::clients::{Client, is_earlier};
use crate::rows::Row;
use ready_tree::{Bounds, Needs};

/// A summary of several places.
#[derive(Clone, Copy)]
pub struct Summary {
    /// The needs of the threads there.
    pub needs: Needs,
    /// A lower bound of the passes there, with the number.
    pub pass: u64,
    /// A lower bound of the numbers at that pass.
    pub number: u32,
}

impl Summary {
    /// The summary of no threads.
    pub const NONE: Summary = Summary {
        needs: Needs::NONE,
        pass: u64::MAX,
        number: u32::MAX,
    };

    /// Returns whether a pass with a number comes before the lower bound.
    fn is_after(&self, pass: u64, number: u32) -> bool
        ensures { result ≡ goes_before pass number self.now.pass self.now.number }
    {
        is_earlier(pass, number, self.pass, self.number)
    }

    /// Returns the summary of these places and others.
    pub fn join(&self, other: &Summary) -> Summary
        ensures left { Includes result self.now }
        ensures right { Includes result other.now }
    {
        let needs = self.needs.join(&other.needs);
        if self.is_after(other.pass, other.number) {
            Summary { needs, ..*other }
        } else {
            Summary { needs, ..*self }
        }
    }

    /// Returns the summary of these places and one more.
    pub fn with(&self, place: &Option<Row>) -> Summary
        ensures covers { Covers result place.now }
        ensures keeps { Includes result self.now }
    {
        match place {
            Some(row) => self.join(&Summary {
                needs: Needs::of(row.need),
                pass: row.client.pass,
                number: row.client.thread.number,
            }),
            None => *self,
        }
    }

    /// Returns whether a thread here may be the first whose need is met, given the best so far.
    pub fn may_help(&self, bounds: &Bounds, best: &Option<Client>) -> bool
        ensures { result ≡ may_help_in bounds.now best.now self.now }
    {
        match best {
            Some(client) => self.is_before(client) && bounds.meet_some(&self.needs),
            None => bounds.meet_some(&self.needs),
        }
    }

    /// Returns whether the lower bound comes before a client.
    fn is_before(&self, client: &Client) -> bool
        ensures { result ≡ goes_before self.now.pass self.now.number client.now.pass client.now.thread.number }
    {
        is_earlier(self.pass, self.number, client.pass, client.thread.number)
    }
}
