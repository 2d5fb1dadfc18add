ghost use Rattle.std.specs.Prelude.{◌≡◌, ◌<◌, ◌++◌, ◌∷◌, [], None, length, position, slice_set, OnOk, OnErr};
ghost use Rattle.ready_tree.specs.Entries.{entries_of, place_at, may_go, is_of};
ghost use Rattle.ready_tree.specs.Trees.{CoversAll};

use crate::bounds::Bounds;
use crate::entries::Entry;
use crate::needs::Needs;
use crate::places::{append, empty, first_met, first_of, make_room, needs_of_all, renew, skipped};
use cap_word::ThreadId;
use std::alloc::{AllocError, Global};
use std::marker::Model;

/// Threads in order of joining, each with its need. Contracts see the list of its places; the place of a thread that
/// has left is empty. A thread keeps its place until the next `push`.
#[derive(Drop)]
pub struct ReadyTree {
    places: Vec<Option<Entry>>,
    nodes: Vec<Needs>,
    live: usize,
}

impl Model for ReadyTree {
    ghost use Rattle.std.specs.Prelude.{List, Option};
    ghost use Rattle.ready_tree.specs.declared.entries.Entry.{Entry};

    ghost Value = { List (Option Entry) };

    ghost use Rattle.ready_tree.specs.Kept.{places_of, IsKept};

    ghost view = { places_of };

    ghost invariant = { IsKept };
}

impl ReadyTree {
    /// Returns a queue without threads. It doesn't allocate.
    pub fn new(alloc: Global) -> ReadyTree
        ensures { result ≡ [] }
    {
        ReadyTree {
            places: Vec::new(alloc),
            nodes: Vec::new(alloc),
            live: 0,
        }
    }

    /// Returns the number of places.
    pub fn places(&self) -> usize
        ensures { result ≡ length self.now }
    {
        self.places.len()
    }

    /// Returns the number of waiting threads.
    pub fn len(&self) -> usize
        ensures { result ≡ length (entries_of self.now) }
    {
        self.live
    }

    /// Returns the thread at a place with its need, or `None` if it has left.
    pub fn at(&self, place: usize) -> Option<Entry>
        requires { place < length self.now }
        ensures { result ≡ place_at self.now place }
    {
        self.places[place]
    }

    /// Appends a thread. If an allocation fails, the same threads wait in the same order.
    pub fn push(&mut self, entry: Entry) -> Result<(), AllocError>
        ensures ok { OnOk result (entries_of self.new ≡ entries_of self.old ++ entry ∷ []) }
        ensures err { OnErr result (entries_of self.new ≡ entries_of self.old) }
    {
        make_room(&mut self.places, &mut self.nodes, self.live)?;
        append(&mut self.places, &mut self.nodes, entry)?;
        self.live += 1;
        Ok(())
    }

    /// Returns the first place at which a need is met. Its time is linear in the height of the tree, plus one block.
    pub fn first(&self, bounds: &Bounds) -> Option<usize>
        ensures { result ≡ position (may_go bounds.now) self.now }
    {
        let start = skipped(&self.places, &self.nodes, bounds);
        first_met(&self.places, start, bounds)
    }

    /// Returns the needs of the threads together. If there is a tree, it reads no thread.
    pub fn needs(&self) -> Needs
        ensures { CoversAll result (entries_of self.now) }
    {
        needs_of_all(&self.places, &self.nodes)
    }

    /// Returns the first place of a thread. It tests each place before that.
    pub fn place_of(&self, thread: ThreadId) -> Option<usize>
        ensures { result ≡ position (is_of thread) self.now }
    {
        first_of(&self.places, thread)
    }

    /// Removes the thread at a place. It doesn't allocate.
    pub fn remove(&mut self, place: usize)
        requires { place < length self.old }
        ensures { self.new ≡ slice_set self.old place None }
    {
        self.live = empty(&mut self.places, place, self.live);
        renew(&self.places, &mut self.nodes, place);
    }
}
