ghost use Rattle.std.specs.Prelude.{◌≡◌, ◌≤◌, ◌<◌, ◌^◌, length, vec_len, vec_capacity, not, OnOk, OnErr, IsOk, IfSome};
ghost use Rattle.std.specs.List.{position_or_len, AllByRecursion};
ghost use Rattle.blocking_graph.specs.Edges.{is_before, edges_with, count_of};
ghost use Rattle.blocking_graph.specs.Graph.{IsEdge, IsRising, IsSegment};
ghost use Rattle.blocking_graph.specs.Pairs.{edge_between};

use crate::edges::EdgeLine;
use crate::segments::SegmentRecord;
use std::alloc::AllocError;

/// Returns the index of a record's edge: that of the first edge that doesn't come before it, found by binary
/// search.
fn place_of(edges: &[EdgeLine], segment: &SegmentRecord) -> usize
    requires { IsRising edges.now }
    ensures place { result ≡ position_or_len (λ edge. not (is_before edge segment.now)) edges.now }
    ensures within { result ≤ length edges.now }
{
    edges.partition_point(|edge| edge.is_before(segment))
}

/// Returns the edge of a record's pair of nodes, if there is one.
pub(crate) fn edge_of(edges: &[EdgeLine], segment: &SegmentRecord) -> Option<EdgeLine>
    requires { IsRising edges.now }
    ensures { result ≡ edge_between edges.now segment.now.from segment.now.to }
{
    let place = place_of(edges, segment);
    if place < edges.len() && edges[place].is_of(segment) {
        Some(edges[place])
    } else {
        None
    }
}

/// Adds a record to the edges, which are ordered by `from`, then `to`. It doesn't allocate if there is room
/// for one more edge.
pub(crate) fn add(edges: &mut Vec<EdgeLine>, segment: &SegmentRecord) -> Result<(), AllocError>
    requires edges { AllByRecursion IsEdge edges.old.items }
    requires rising { IsRising edges.old.items }
    requires segment { IsSegment segment.now }
    requires room { count_of edges.old.items < 2 ^ 40 }
    ensures ok { OnOk result (edges.new.items ≡ edges_with edges.old.items segment.now) }
    ensures err { OnErr result (edges.new.items ≡ edges.old.items) }
    ensures succeeds { vec_len edges.old < vec_capacity edges.old → IsOk result }
    ensures eight { length segment.now.change ≡ 8 }
{
    let place = place_of(edges.as_slice(), segment);
    if place < edges.len() && edges[place].is_of(segment) {
        let next = edges[place].with(segment);
        edges[place] = next;
    } else {
        edges.insert(place, EdgeLine::first(segment))?;
    }
    Ok(())
}
