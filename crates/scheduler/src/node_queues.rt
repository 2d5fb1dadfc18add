ghost use Rattle.std.specs.Prelude.{◌≡◌, ◌≢◌, ◌<◌, ◌++◌, ◌∷◌, [], ℕ, Bool, None, length, slice_set, IsSome, IfSome, OnOk, OnErr};
ghost use Rattle.std.specs.BTreeMap.{get};
ghost use Rattle.std.specs.Ordering.{nat_cmp};
ghost use Rattle.cap_word.specs.declared.threads.ThreadId.{ThreadId as ThreadIdOf};
ghost use Rattle.ready_tree.specs.Entries.{entries_of};
ghost use Rattle.ready_tree.specs.NeedTrees.{needs_of, queues_of};
ghost use Rattle.ready_tree.specs.Trees.{CoversAll};
ghost use Rattle.scheduler.specs.NodeQueues.{AreCovered, IsNextNode};
ghost use Rattle.scheduler.specs.Queues.{AreExact, without_entry, places_in, entries_in};
ghost use Rattle.scheduler.specs.Search.{IsFoundIf};

use crate::choices::Choice;
use crate::finding::{Found, first_met};
use crate::queues::{Queues, join, leave_at, needs_in, place_in};
use ready_tree::{Bounds, Entry, NeedTree};
use std::alloc::{AllocError, Global};
use std::collections::BTreeMap;

/// The queues of the nodes at which threads wait, with a tree of their needs above them.
#[derive(Drop)]
pub(crate) struct NodeQueues {
    /// The queues by the numbers of their nodes.
    pub queues: Queues,
    /// The tree.
    pub above: NeedTree,
}

impl NodeQueues {
    /// Returns no queues. It doesn't allocate.
    pub(crate) fn new(alloc: Global) -> NodeQueues
        ensures queues { result.queues.entries ≡ [] }
        ensures covered { AreCovered result.queues result.above }
    {
        NodeQueues {
            queues: BTreeMap::new(alloc),
            above: NeedTree::new(alloc),
        }
    }

    /// Appends a thread to a node's queue.
    pub(crate) fn join(&mut self, alloc: Global, node: u32, entry: Entry) -> Result<(), AllocError>
        requires covered { AreCovered self.old.queues self.old.above }
        ensures covered { AreCovered self.new.queues self.new.above }
        ensures queue { OnOk result (entries_in self.new.queues node ≡ entries_in self.old.queues node ++ entry ∷ []) }
        ensures others { (other : ℕ) → other ≢ node → entries_in self.new.queues other ≡ entries_in self.old.queues other }
        ensures nodes { (other : ℕ) → other ≢ node → IsSome (get nat_cmp self.new.queues other) → IsSome (get nat_cmp self.old.queues other) }
        ensures err { OnErr result ((other : ℕ) → entries_in self.new.queues other ≡ entries_in self.old.queues other) }
        ensures err_nodes { OnErr result ((other : ℕ) → IsSome (get nat_cmp self.new.queues other) → IsSome (get nat_cmp self.old.queues other)) }
    {
        self.above.make_place(node)?;
        let joined = join(&mut self.queues, alloc, node, entry);
        renew(&mut self.above, &self.queues, node);
        joined
    }

    /// Removes the thread at a place from a node's queue. A queue that is then empty is freed.
    pub(crate) fn leave_at(&mut self, node: u32, place: usize)
        requires covered { AreCovered self.old.queues self.old.above }
        requires place { place < length (places_in self.old.queues node) }
        ensures covered { AreCovered self.new.queues self.new.above }
        ensures queue { entries_in self.new.queues node ≡ entries_of (slice_set (places_in self.old.queues node) place None) }
        ensures others { (other : ℕ) → other ≢ node → entries_in self.new.queues other ≡ entries_in self.old.queues other }
        ensures nodes { (other : ℕ) → IsSome (get nat_cmp self.new.queues other) → IsSome (get nat_cmp self.old.queues other) }
    {
        leave_at(&mut self.queues, node, place);
        renew(&mut self.above, &self.queues, node);
    }

    /// Removes the choice's thread from its node's queue.
    pub(crate) fn leave(&mut self, choice: &Choice)
        requires covered { AreCovered self.old.queues self.old.above }
        ensures covered { AreCovered self.new.queues self.new.above }
        ensures queue { entries_in self.new.queues choice.now.node ≡ without_entry choice.now.thread (entries_in self.old.queues choice.now.node) }
        ensures others { (other : ℕ) → other ≢ choice.now.node → entries_in self.new.queues other ≡ entries_in self.old.queues other }
        ensures nodes { (other : ℕ) → IsSome (get nat_cmp self.new.queues other) → IsSome (get nat_cmp self.old.queues other) }
    {
        if let Some(place) = place_in(&self.queues, choice) {
            self.leave_at(choice.node, place);
        }
    }

    /// Returns the next node, from this number on, at which the need of some thread may be met. It takes at most four
    /// steps for each level of the tree.
    pub(crate) fn next(&self, from: usize, bounds: &Bounds) -> Option<u32>
        requires { AreCovered self.now.queues self.now.above }
        ensures { IsNextNode bounds.now self.now.queues from result }
    {
        let node = self.above.next(from, bounds)?;
        if node > u32::MAX as usize {
            return None;
        }
        Some(node as u32)
    }

    /// Returns the first thread of a node's queue whose need is met. If the needs determine which threads pass a test,
    /// it is the first that passes.
    pub(crate) fn first_at(&self, node: u32, bounds: &Bounds) -> Option<Found>
        ensures found { (test : ThreadIdOf → Bool) → AreExact bounds.now test (entries_in self.now.queues node) → IsFoundIf test (places_in self.now.queues node) result }
        ensures there { IfSome result (λ found. IsSome (get nat_cmp self.now.queues node)) }
    {
        first_met(self.queues.get(&node)?, bounds)
    }
}

/// Updates the tree with the needs of the threads at a node.
fn renew(above: &mut NeedTree, queues: &Queues, node: u32)
    requires { node < queues_of above.old }
    ensures same { queues_of above.new ≡ queues_of above.old }
    ensures here { CoversAll (needs_of above.new node) (entries_in queues.now node) }
    ensures others { (other : ℕ) → other ≢ node → needs_of above.new other ≡ needs_of above.old other }
{
    let needs = needs_in(queues, node);
    above.put(node as usize, &needs);
}
