ghost use Rattle.std.specs.Prelude.{◌≡◌, ◌≤◌, ◌<◌, ◌^◌, ℕ, List, pos, ◌*ℤ◌, unsigned_abs, slice_index, ◌*◌, length};
ghost use Rattle.blocking_graph.specs.declared.edges.EdgeLine.{EdgeLine};
ghost use Rattle.blocking_graph.specs.Edges.{prediction};
ghost use Rattle.scheduler.specs.Scores.{score, score_by};
ghost use Rattle.scheduler.specs.Search.{IsRankOf, is_rank_below};

use blocking_graph::Graph;
use resource_monitor::{Measure, Monitor};

/// The rank of a node: the score, then the number of the node's last choice, then its number.
#[derive(Clone, Copy)]
pub struct Rank {
    /// The node's score.
    pub score: i128,
    /// The number of the node's last choice, or 0.
    pub last: u64,
    /// The node's number.
    pub node: u32,
}

/// Returns the pressures of the eight resources. They don't change during a choice.
pub(crate) fn pressures_of<C: Measure>(monitor: &Monitor<C>) -> [u32; 8]
    ensures scores { (edges : List EdgeLine) → (node : ℕ) → score_by result edges node ≡ score monitor.now edges node }
    ensures most { (resource : ℕ) → resource < 8 → slice_index result resource ≤ 1000 }
{
    let mut pressures = [0; 8];
    for resource in 0..8u32 {
        pressures[resource as usize] = monitor.pressure(resource);
    }
    pressures
}

/// Returns the pressure on a resource times the prediction of the node for it.
fn expected_strain(graph: &Graph, pressure: u32, node: u32, resource: u32) -> i128
    requires there { resource < 8 }
    requires most { pressure ≤ 1000 }
    ensures value { result ≡ pos pressure *ℤ prediction graph.now.edges node resource }
    ensures small { unsigned_abs result ≤ 1000 * 2 ^ 39 }
{
    if pressure == 0 {
        return 0;
    }
    i128::from(pressure) * graph.predicted(node, resource)
}

/// Returns the score of a node: the sum of pressure times prediction over the eight resources.
fn score_of(graph: &Graph, pressures: &[u32; 8], node: u32) -> i128
    requires { (resource : ℕ) → resource < 8 → slice_index pressures.now resource ≤ 1000 }
    ensures { result ≡ score_by pressures.now graph.now.edges node }
{
    let mut total: i128 = 0;
    for resource in 0..8u32 {
        total += expected_strain(graph, pressures[resource as usize], node, resource);
    }
    total
}

/// Returns the rank of a node.
pub(crate) fn rank_of(lasts: &[u64], graph: &Graph, pressures: &[u32; 8], node: u32) -> Rank
    requires there { node < length lasts.now }
    requires most { (resource : ℕ) → resource < 8 → slice_index pressures.now resource ≤ 1000 }
    ensures rank { IsRankOf (score_by pressures.now graph.now.edges) (slice_index lasts.now) result }
    ensures node { result.node ≡ node }
{
    Rank {
        score: score_of(graph, pressures, node),
        last: lasts[node as usize],
        node,
    }
}

/// Returns whether a rank is below another.
pub(crate) fn is_below(rank: &Rank, other: &Rank) -> bool
    ensures { result ≡ is_rank_below rank.now other.now }
{
    rank.score < other.score
        || rank.score <= other.score
            && (rank.last < other.last || rank.last == other.last && rank.node < other.node)
}
