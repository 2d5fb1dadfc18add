ghost use Rattle.std.specs.Prelude.{◌≡◌, ◌≤◌, ◌<◌, ◌^◌, ◌+◌, ◌*◌, ℕ, List, pos, ◌*ℤ◌, ◌+ℤ◌, ◌-ℤ◌, length, unsigned_abs, slice_index_or, IfSome};
ghost use Rattle.std.specs.List.{AllByRecursion};
ghost use Rattle.std.specs.BTreeMap.{get};
ghost use Rattle.std.specs.Ordering.{nat_cmp};
ghost use Rattle.blocking_graph.specs.Averages.{floor_div};
ghost use Rattle.blocking_graph.specs.Edges.{count_of, edges_from, edges_with};
ghost use Rattle.blocking_graph.specs.Graph.{IsEdge, IsRising, IsSegment};
ghost use Rattle.blocking_graph.specs.Sums.{weight, weight_or_0, edge_after, average_by_count, IsSumOf, IsKeptOf, AreSumsOf, IsMoved};

use crate::adding::edge_of;
use crate::edges::EdgeLine;
use crate::segments::SegmentRecord;
use std::collections::BTreeMap;

/// The sums over the edges from a node: the number of their records, and for each resource the sum of
/// count times average change, scaled by 256.
#[derive(Clone, Copy)]
pub struct NodeSums {
    /// The number of records.
    pub count: u64,
    /// The sums, by resource.
    pub change: [i128; 8],
}

/// Returns the edge's count times its average change of the resource.
fn weight_of(edge: &EdgeLine, resource: usize) -> i128
    requires edge { IsEdge edge.now }
    requires count { edge.now.count ≤ 2 ^ 40 }
    requires resource { resource < 8 }
    ensures value { result ≡ weight edge.now resource }
    ensures small { unsigned_abs result ≤ 2 ^ 79 }
{
    i128::from(edge.count) * edge.change[resource]
}

fn weight_or_0_of(edge: &Option<EdgeLine>, resource: usize) -> i128
    requires edge { IfSome edge.now (λ edge. IsEdge edge × (edge.count ≤ 2 ^ 40)) }
    requires resource { resource < 8 }
    ensures value { result ≡ weight_or_0 edge.now resource }
    ensures small { unsigned_abs result ≤ 2 ^ 79 }
{
    match edge {
        Some(edge) => weight_of(edge, resource),
        None => 0,
    }
}

/// Returns a sum in which one term is replaced by another.
fn moved_by(total: i128, before: i128, after: i128) -> i128
    requires total { unsigned_abs total ≤ 2 ^ 79 }
    requires before { unsigned_abs before ≤ 2 ^ 79 }
    requires after { unsigned_abs after ≤ 2 ^ 79 }
    ensures { result ≡ (total -ℤ before) +ℤ after }
{
    total - before + after
}

/// Returns a sum divided by a count above 0, rounded down.
#[tactic(auto, using(crate::proofs::PredictionLemmas::quotients))]
fn rounded_down(total: i128, count: u64) -> i128
    requires some { 0 < count }
    requires small { unsigned_abs total ≤ count * 2 ^ 39 }
    ensures value { result ≡ floor_div total count }
    ensures small { unsigned_abs result ≤ 2 ^ 39 }
{
    total.div_euclid(i128::from(count))
}

impl NodeSums {
    /// Returns the average change of the resource over the records, rounded down, or 0 if there are none.
    pub(crate) fn average(&self, resource: usize) -> i128
        requires small { unsigned_abs (slice_index_or self.now.change resource (pos 0)) ≤ self.now.count * 2 ^ 39 }
        requires resource { resource < 8 }
        ensures value { result ≡ average_by_count (slice_index_or self.now.change resource (pos 0)) self.now.count }
        ensures small { unsigned_abs result ≤ 2 ^ 39 }
    {
        if self.count == 0 {
            0
        } else {
            rounded_down(self.change[resource], self.count)
        }
    }

    /// Returns the sums after one more record, which replaced an edge, if there was one, by another.
    fn moved(&self, before: &Option<EdgeLine>, after: &EdgeLine) -> NodeSums
        requires count { self.now.count < 2 ^ 40 }
        requires small { (k : ℕ) → k < 8 → unsigned_abs (slice_index_or self.now.change k (pos 0)) ≤ 2 ^ 79 }
        requires before { IfSome before.now (λ edge. IsEdge edge × (edge.count ≤ 2 ^ 40)) }
        requires after { IsEdge after.now }
        requires after_count { after.now.count ≤ 2 ^ 40 }
        ensures { IsMoved self.now result before.now after.now }
    {
        let mut change = [0; 8];
        for resource in 0..8 {
            let from = weight_or_0_of(before, resource);
            let to = weight_of(after, resource);
            change[resource] = moved_by(self.change[resource], from, to);
        }
        NodeSums {
            count: self.count + 1,
            change,
        }
    }
}

/// Returns a pair's edge after one more record.
fn edge_with(edge: &Option<EdgeLine>, segment: &SegmentRecord) -> EdgeLine
    requires edge { IfSome edge.now (λ edge. IsEdge edge × (edge.count < 2 ^ 40)) }
    requires segment { IsSegment segment.now }
    ensures value { result ≡ edge_after edge.now segment.now }
    ensures eight { length segment.now.change ≡ 8 }
{
    match edge {
        Some(edge) => edge.with(segment),
        None => EdgeLine::first(segment),
    }
}

/// Returns the sums of a node, or zeros.
fn sums_at(sums: &BTreeMap<u32, NodeSums>, node: u32) -> NodeSums
    ensures { (edges : List EdgeLine) → IsKeptOf edges (get nat_cmp sums.now node) → IsSumOf edges result }
{
    match sums.get(&node) {
        Some(sums) => *sums,
        None => NodeSums {
            count: 0,
            change: [0; 8],
        },
    }
}

/// Returns the sums of the node from which a record leads, after the record.
pub(crate) fn sums_with(
    sums: &BTreeMap<u32, NodeSums>,
    edges: &[EdgeLine],
    segment: &SegmentRecord,
) -> NodeSums
    requires sums { AreSumsOf edges.now sums.now }
    requires edges { AllByRecursion IsEdge edges.now }
    requires rising { IsRising edges.now }
    requires segment { IsSegment segment.now }
    requires room { count_of edges.now < 2 ^ 40 }
    ensures { IsSumOf (edges_from (edges_with edges.now segment.now) segment.now.from) result }
{
    let before = edge_of(edges, segment);
    let after = edge_with(&before, segment);
    sums_at(sums, segment.from).moved(&before, &after)
}
