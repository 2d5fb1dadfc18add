ghost use Rattle.std.specs.Prelude.{◌≡◌, ◌≤◌, ◌<◌, ◌^◌, ◌+◌, length, not, IfOk, OnOk, OnErr, ℕ, pos, unsigned_abs};
ghost use Rattle.std.specs.List.{position_or_len};

use crate::averages::{first_averages_of, next_average_of, next_averages_of};
use crate::segments::SegmentRecord;
use std::alloc::AllocError;

/// An edge of the blocking graph: a pair of nodes with records, their number, and the averages of
/// their cost and of the change of each resource, scaled by 256.
#[derive(Clone, Copy, PartialEq, Eq)]
pub struct EdgeLine {
    /// The node from which the edge leads.
    pub from: u32,
    /// The node to which it leads.
    pub to: u32,
    /// The number of its records.
    pub count: u64,
    /// The average cost, scaled by 256.
    pub cost: i128,
    /// The average change of each resource, scaled by 256.
    pub change: [i128; 8],
}

impl EdgeLine {
    ghost use Rattle.blocking_graph.specs.Edges.{first_edge, next_edge, is_before, is_of};
    ghost use Rattle.blocking_graph.specs.Graph.{IsEdge, IsSegment};

    /// Returns the edge of a pair's first record.
    pub(crate) fn first(segment: &SegmentRecord) -> EdgeLine
        requires { IsSegment segment.now }
        ensures { result ≡ first_edge segment.now }
    {
        EdgeLine {
            from: segment.from,
            to: segment.to,
            count: 1,
            cost: 256 * i128::from(segment.cost),
            change: first_averages_of(&segment.change),
        }
    }

    /// Returns the edge after one more record of its pair.
    pub(crate) fn with(&self, segment: &SegmentRecord) -> EdgeLine
        requires edge { IsEdge self.now }
        requires segment { IsSegment segment.now }
        requires room { self.now.count < 2 ^ 40 }
        ensures { result ≡ next_edge self.now segment.now }
    {
        EdgeLine {
            from: self.from,
            to: self.to,
            count: self.count + 1,
            cost: next_average_of(self.cost, i128::from(segment.cost)),
            change: next_averages_of(&self.change, &segment.change),
        }
    }

    /// Returns whether the edge comes before that of a record.
    pub(crate) fn is_before(&self, segment: &SegmentRecord) -> bool
        ensures { result ≡ is_before self.now segment.now }
    {
        self.from < segment.from || self.from == segment.from && self.to < segment.to
    }

    /// Returns whether the edge is that of a record.
    pub(crate) fn is_of(&self, segment: &SegmentRecord) -> bool
        ensures { result ≡ is_of self.now segment.now }
    {
        self.from == segment.from && self.to == segment.to
    }
}
