ghost use Rattle.std.specs.Prelude.{◌≡◌, ◌≢◌, ℕ, ◌<◌, ◌≤◌, ◌^◌, [], OnOk};
ghost use Rattle.ready_tree.specs.Needs.{is_some_met};
ghost use Rattle.ready_tree.specs.Nodes.{AreJoined};
ghost use Rattle.ready_tree.specs.NeedTrees.{queues_of, needs_of, IsNextQueue};

use crate::bounds::Bounds;
use crate::needs::Needs;
use crate::nodes::{BLOCK, blank_nodes, needs_at, set_leaf};
use crate::subtrees::{first_leaf_in, next_subtree};
use std::alloc::{AllocError, Global};
use std::marker::Model;

/// The needs of the threads of several queues, by the numbers of the queues, with a tree of joined needs above them.
/// Contracts see the list of its nodes, of which the second half stands for the queues.
#[derive(Drop)]
pub struct NeedTree {
    nodes: Vec<Needs>,
}

impl Model for NeedTree {
    ghost use Rattle.std.specs.Prelude.{List};
    ghost use Rattle.ready_tree.specs.declared.needs.Needs.{Needs};

    ghost Value = { List Needs };

    ghost use Rattle.ready_tree.specs.NeedTrees.{AreJoinedIf};

    ghost view = { λ tree. tree.nodes.items };

    ghost invariant = { λ tree. AreJoinedIf tree.nodes.items };
}

impl NeedTree {
    /// Returns a tree without queues. It doesn't allocate.
    pub fn new(alloc: Global) -> NeedTree
        ensures { result ≡ [] }
    {
        NeedTree {
            nodes: Vec::new(alloc),
        }
    }

    /// Returns the number of queues that have a place.
    pub fn len(&self) -> usize
        ensures { result ≡ queues_of self.now }
    {
        self.nodes.len() / 2
    }

    /// Makes a place for a queue, and for those with lower numbers. If an allocation fails, nothing changes.
    pub fn make_place(&mut self, queue: u32) -> Result<(), AllocError>
        ensures more { queues_of self.old ≤ queues_of self.new }
        ensures same { (other : ℕ) → other < queues_of self.old → needs_of self.new other ≡ needs_of self.old other }
        ensures place { OnOk result (queue < queues_of self.new) }
    {
        if (queue as usize) < self.nodes.len() / 2 {
            return Ok(());
        }
        let alloc = *self.nodes.allocator();
        let mut nodes = blank_nodes(alloc, BLOCK * queue as usize)?;
        copy_leaves(&self.nodes, &mut nodes);
        self.nodes = nodes;
        Ok(())
    }

    /// Sets the needs of the threads of a queue. Its time is linear in the height of the tree.
    pub fn put(&mut self, queue: usize, needs: &Needs)
        requires { queue < queues_of self.old }
        ensures same { queues_of self.new ≡ queues_of self.old }
        ensures needs { needs_of self.new queue ≡ needs.now }
        ensures others { (other : ℕ) → other ≢ queue → needs_of self.new other ≡ needs_of self.old other }
    {
        let leaf = self.nodes.len() / 2 + queue;
        set_leaf(&mut self.nodes, leaf, needs);
    }

    /// Returns the first queue from this number on in which a need may be met. It takes at most four steps for each
    /// level of the tree.
    pub fn next(&self, from: usize, bounds: &Bounds) -> Option<usize>
        ensures { IsNextQueue bounds.now self.now from result }
    {
        let leaves = self.nodes.len() / 2;
        if from >= leaves {
            return None;
        }
        let subtree = next_subtree(&self.nodes, bounds, leaves + from)?;
        Some(first_leaf_in(&self.nodes, bounds, subtree) - leaves)
    }
}

/// Copies the leaves of one tree to the first leaves of a larger one.
fn copy_leaves(nodes: &[Needs], larger: &mut [Needs])
    requires joined { AreJoined larger.old }
    requires room { queues_of nodes.now ≤ queues_of larger.old }
    ensures joined { AreJoined larger.new }
    ensures same { (queue : ℕ) → queue < queues_of nodes.now → needs_of larger.new queue ≡ needs_of nodes.now queue }
{
    let leaves = nodes.len() / 2;
    let first = larger.len() / 2;
    for queue in 0..leaves {
        set_leaf(larger, first + queue, &needs_at(nodes, leaves + queue));
    }
}
