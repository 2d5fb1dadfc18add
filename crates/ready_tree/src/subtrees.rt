// The search for a leaf at which a need is met: it skips subtrees in which none is, moving up, and descends into the
// first in which one is. From the root it only descends.
ghost use Rattle.std.specs.Prelude.{◌≡◌, ℕ, ◌-◌, ◌*◌, ◌/◌, ◌<◌, ◌≤◌, ◌^◌, List, length, false, IfSome};
ghost use Rattle.ready_tree.specs.declared.bounds.Bounds.{Bounds as BoundsOf};
ghost use Rattle.ready_tree.specs.declared.needs.Needs.{Needs as NeedsOf};
ghost use Rattle.ready_tree.specs.Needs.{is_some_met};
ghost use Rattle.ready_tree.specs.Next.{IsNextLeaf, IsNextSubtree, IsReached};
ghost use Rattle.ready_tree.specs.Nodes.{AreJoined, node_at};

use crate::bounds::Bounds;
use crate::needs::Needs;
use crate::nodes::needs_at;

/// A node of a level of the tree with its subtree, in a search from a leaf on. A level begins at a power of 2, which is
/// its number of nodes.
#[derive(Clone, Copy)]
pub(crate) struct Subtree {
    /// The leaf at which the search starts.
    pub first: usize,
    /// The first node of the level.
    pub level: usize,
    /// The node.
    pub node: usize,
}

impl Subtree {
    /// Returns the subtree that begins where this one ends, if there is one, as large as possible.
    fn next(self) -> Option<Subtree>
        requires to { self.node < 2 * self.level }
        requires small { self.level < 2 ^ 62 }
        ensures past { (bounds : BoundsOf) → (nodes : List NeedsOf) → AreJoined nodes → IsReached bounds nodes self → is_some_met bounds (node_at nodes self.node) ≡ false → IsNextSubtree bounds nodes self.first result }
        ensures nearer { IfSome result (λ next. 2 * next.level - next.node < 2 * self.level - self.node) }
    {
        let node = self.node + 1;
        if node == 2 * self.level {
            return None;
        }
        if node % 2 == 0 {
            return Some(Subtree {
                level: self.level / 2,
                node: node / 2,
                ..self
            });
        }
        Some(Subtree { node, ..self })
    }
}

/// Returns the first subtree in which a need is met, if there is one: no leaf from this one on and before the subtree
/// has one.
pub(crate) fn next_subtree(nodes: &[Needs], bounds: &Bounds, first: usize) -> Option<Subtree>
    requires joined { AreJoined nodes.now }
    requires behind { length nodes.now / 2 ≤ first }
    requires there { first < length nodes.now }
    ensures { IsNextSubtree bounds.now nodes.now first result }
{
    let mut subtree = Subtree {
        first,
        level: nodes.len() / 2,
        node: first,
    };
    while !bounds.meet_some(&needs_at(nodes, subtree.node)) {
        subtree = subtree.next()?;
    }
    Some(subtree)
}

/// Returns the first leaf of a subtree below which a need is met, if there is one.
pub(crate) fn first_leaf_in(nodes: &[Needs], bounds: &Bounds, subtree: Subtree) -> usize
    requires joined { AreJoined nodes.now }
    requires reached { IsReached bounds.now nodes.now subtree }
    ensures { IsNextLeaf bounds.now nodes.now subtree.first result }
{
    let leaves = nodes.len() / 2;
    let mut half = subtree;
    while half.level < leaves {
        half.level *= 2;
        half.node *= 2;
        if !bounds.meet_some(&needs_at(nodes, half.node)) {
            half.node += 1;
        }
    }
    half.node
}

/// Returns the first leaf below which a need is met, if there is one; in any case none before it has one.
pub(crate) fn first_leaf(nodes: &[Needs], bounds: &Bounds) -> usize
    requires { AreJoined nodes.now }
    ensures behind { length nodes.now / 2 ≤ result }
    ensures there { result < length nodes.now }
    ensures before { (leaf : ℕ) → length nodes.now / 2 ≤ leaf → leaf < result → is_some_met bounds.now (node_at nodes.now leaf) ≡ false }
{
    let root = Subtree {
        first: nodes.len() / 2,
        level: 1,
        node: 1,
    };
    first_leaf_in(nodes, bounds, root)
}
