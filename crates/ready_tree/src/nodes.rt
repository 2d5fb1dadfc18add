// The tree above the blocks: node i has the children 2 * i and 2 * i + 1, and the leaves, one for each block, are the
// second half of the nodes.
ghost use Rattle.std.specs.Prelude.{◌≡◌, ◌≢◌, ℕ, ◌+◌, ◌*◌, ◌/◌, ◌<◌, ◌≤◌, ◌^◌, length, IfOk};
ghost use Rattle.ready_tree.specs.Nodes.{AreJoined, AreJoinedBut, IsLevel, node_at, IsBlank};

use crate::needs::Needs;
use std::alloc::{AllocError, Global};

/// The number of places of a block.
pub(crate) const BLOCK: usize = 16;

/// Returns the least power of 2 that isn't less.
fn leaves_for(count: usize) -> usize
    requires some { 1 ≤ count }
    requires small { count < 2 ^ 40 }
    ensures level { IsLevel result 1 }
    ensures enough { count ≤ result }
    ensures some { 1 ≤ result }
    ensures small { result < 2 ^ 41 }
{
    let mut leaves = 1;
    while leaves < count {
        leaves *= 2;
    }
    leaves
}

/// Returns the nodes of a tree over the blocks of this number of places, without waiting threads.
pub(crate) fn blank_nodes(alloc: Global, places: usize) -> Result<Vec<Needs>, AllocError>
    requires { places < 2 ^ 40 }
    ensures { IfOk result (λ nodes. IsBlank nodes.items places) }
{
    let leaves = leaves_for(places / BLOCK + 1);
    let nodes = vec![in alloc; Needs::NONE; 2 * leaves]?;
    Ok(nodes)
}

/// Returns the needs of a node.
pub(crate) fn needs_at(nodes: &[Needs], node: usize) -> Needs
    requires { node < length nodes.now }
    ensures { result ≡ node_at nodes.now node }
{
    nodes[node]
}

/// Sets each inner node above this one to the join of its two children.
pub(crate) fn renew_above(nodes: &mut [Needs], changed: usize)
    requires there { changed < length nodes.old }
    requires inner { 1 ≤ changed }
    requires others { AreJoinedBut nodes.old (changed / 2) }
    ensures joined { AreJoined nodes.new }
    ensures leaves { (leaf : ℕ) → length nodes.old / 2 ≤ leaf → node_at nodes.new leaf ≡ node_at nodes.old leaf }
{
    let mut node = changed;
    while node > 1 {
        node /= 2;
        let left = needs_at(nodes, 2 * node);
        let right = needs_at(nodes, 2 * node + 1);
        nodes[node] = left.join(&right);
    }
}

/// Sets the needs of a leaf, and updates the nodes above it.
pub(crate) fn set_leaf(nodes: &mut [Needs], leaf: usize, needs: &Needs)
    requires joined { AreJoined nodes.old }
    requires behind { length nodes.old / 2 ≤ leaf }
    requires there { leaf < length nodes.old }
    ensures joined { AreJoined nodes.new }
    ensures leaf { node_at nodes.new leaf ≡ needs.now }
    ensures others { (other : ℕ) → length nodes.old / 2 ≤ other → other ≢ leaf → node_at nodes.new other ≡ node_at nodes.old other }
{
    nodes[leaf] = *needs;
    renew_above(nodes, leaf);
}
