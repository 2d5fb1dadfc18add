ghost use Rattle.std.specs.Prelude.{◌≡◌, ◌≢◌, ◌≤◌, ◌<◌, ◌+◌, ◌∷◌, [], ◌++◌, ℕ, None, length, take, vec_len, slice_index, slice_set, position, IsSome, IfOk, OnOk, OnErr};
ghost use Rattle.std.specs.BTreeMap.{get};
ghost use Rattle.std.specs.Ordering.{nat_cmp};
ghost use Rattle.ready_tree.specs.Entries.{entries_of, is_of};
ghost use Rattle.ready_tree.specs.Trees.{CoversAll};
ghost use Rattle.scheduler.specs.Queues.{places_in, entries_in};

use crate::choices::Choice;
use ready_tree::{Entry, Needs, ReadyTree};
use std::alloc::{AllocError, Global};
use std::collections::BTreeMap;

/// The queues of the nodes at which threads wait.
pub(crate) type Queues = BTreeMap<u32, ReadyTree>;

/// Makes a place for the last choice of a node, which is initially 0.
pub(crate) fn make_place(lasts: &mut Vec<u64>, node: u32) -> Result<(), AllocError>
    ensures same { (other : ℕ) → slice_index lasts.new.items other ≡ slice_index lasts.old.items other }
    ensures longer { vec_len lasts.old ≤ vec_len lasts.new }
    ensures kept { take (vec_len lasts.old) lasts.new.items ≡ lasts.old.items }
    ensures place { OnOk result (node < vec_len lasts.new) }
    ensures err { OnErr result (lasts.new.items ≡ lasts.old.items) }
{
    let places = node as usize + 1;
    if lasts.len() < places {
        lasts.resize(places, 0)?;
    }
    Ok(())
}

/// Returns a queue of one thread.
fn queue_of_one(alloc: Global, entry: Entry) -> Result<ReadyTree, AllocError>
    ensures { IfOk result (λ queue. entries_of queue ≡ entry ∷ []) }
{
    let mut queue = ReadyTree::new(alloc);
    queue.push(entry)?;
    Ok(queue)
}

/// Appends a thread to a node's queue.
pub(crate) fn join(
    queues: &mut Queues,
    alloc: Global,
    node: u32,
    entry: Entry,
) -> Result<(), AllocError>
    ensures queue { OnOk result (entries_in queues.new node ≡ entries_in queues.old node ++ entry ∷ []) }
    ensures others { (other : ℕ) → other ≢ node → entries_in queues.new other ≡ entries_in queues.old other }
    ensures nodes { (other : ℕ) → other ≢ node → IsSome (get nat_cmp queues.new other) → IsSome (get nat_cmp queues.old other) }
    ensures err { OnErr result ((other : ℕ) → entries_in queues.new other ≡ entries_in queues.old other) }
    ensures err_nodes { OnErr result ((other : ℕ) → IsSome (get nat_cmp queues.new other) → IsSome (get nat_cmp queues.old other)) }
{
    if let Some(queue) = queues.get_mut(&node) {
        queue.push(entry)?;
        return Ok(());
    }
    let queue = queue_of_one(alloc, entry)?;
    queues.insert(node, queue)?;
    Ok(())
}

/// Removes the thread at a place from a node's queue. A queue that is then empty is freed.
pub(crate) fn leave_at(queues: &mut Queues, node: u32, place: usize)
    requires { place < length (places_in queues.old node) }
    ensures queue { entries_in queues.new node ≡ entries_of (slice_set (places_in queues.old node) place None) }
    ensures others { (other : ℕ) → other ≢ node → entries_in queues.new other ≡ entries_in queues.old other }
    ensures nodes { (other : ℕ) → IsSome (get nat_cmp queues.new other) → IsSome (get nat_cmp queues.old other) }
{
    let mut is_empty = false;
    if let Some(queue) = queues.get_mut(&node) {
        queue.remove(place);
        is_empty = queue.len() == 0;
    }
    if is_empty {
        queues.remove(&node);
    }
}

/// Returns the place of a thread in a node's queue. It tests each place before that.
pub(crate) fn place_in(queues: &Queues, choice: &Choice) -> Option<usize>
    ensures { result ≡ position (is_of choice.now.thread) (places_in queues.now choice.now.node) }
{
    queues.get(&choice.node)?.place_of(choice.thread)
}

/// Returns the needs of the threads at a node together.
pub(crate) fn needs_in(queues: &Queues, node: u32) -> Needs
    ensures { CoversAll result (entries_in queues.now node) }
{
    match queues.get(&node) {
        Some(queue) => queue.needs(),
        None => Needs::NONE,
    }
}
