ghost use Rattle.std.specs.Prelude.{◌≡◌, ◌+◌, ◌/◌, ◌-◌, ◌*◌, ◌<◌, ◌≤◌, ◌^◌, List, ◌++◌, length, replicate, slice_set, slice_index, IfOk, OnOk, OnErr};
ghost use Rattle.thread_waits.specs.Least.{IsLeast};
ghost use Rattle.thread_waits.specs.Minima.{AreMinima, AreMinimaBut, leaves_in};

use std::alloc::{AllocError, Global};
use std::marker::Model;

/// Numbers by place, with their minimum: the leaves of a binary tree in which every inner node is the minimum of its
/// two children. Contracts see it as the list of its numbers.
#[derive(Drop)]
pub struct MinTree {
    nodes: Vec<u64>,
}

impl Model for MinTree {
    ghost use Rattle.std.specs.Prelude.{List, ℕ};

    ghost Value = { List ℕ };

    ghost use Rattle.thread_waits.specs.Trees.{leaves_of, IsTree};

    ghost view = { leaves_of };

    ghost invariant = { IsTree };
}

impl MinTree {
    /// The number of a place without one.
    pub const NONE: u64 = u64::MAX;

    /// Returns a tree of `count` places without numbers.
    ///
    /// # Errors
    ///
    /// `AllocError` if an allocation fails.
    pub fn new(alloc: Global, count: usize) -> Result<MinTree, AllocError>
        requires some { 1 ≤ count }
        requires fits { count < 2 ^ 40 }
        ensures { IfOk result (λ tree. tree ≡ replicate count (2 ^ 64 - 1)) }
    {
        let nodes = vec![in alloc; MinTree::NONE; 2 * count]?;
        Ok(MinTree { nodes })
    }

    /// Returns the number of places.
    pub fn len(&self) -> usize
        ensures count { result ≡ length self.now }
        ensures some { 1 ≤ result }
        ensures small { result < 2 ^ 62 }
    {
        self.nodes.len() / 2
    }

    /// Returns the number at a place.
    pub fn get(&self, place: usize) -> u64
        requires { place < length self.now }
        ensures { result ≡ slice_index self.now place }
    {
        self.nodes[self.nodes.len() / 2 + place]
    }

    /// Sets the number at a place. The time is logarithmic in the number of places.
    pub fn set(&mut self, place: usize, number: u64)
        requires { place < length self.old }
        ensures { self.new ≡ slice_set self.old place number }
    {
        let leaf = self.nodes.len() / 2 + place;
        self.nodes[leaf] = number;
        renew_above(&mut self.nodes, leaf);
    }

    /// Returns the least number.
    pub fn least(&self) -> u64
        ensures { IsLeast self.now result }
    {
        let nodes = self.nodes.as_slice();
        nodes[1]
    }

    /// Increases the number of places to `count`; the new places have no numbers.
    pub fn grow(&mut self, alloc: Global, count: usize) -> Result<(), AllocError>
        requires more { length self.old ≤ count }
        requires fits { count < 2 ^ 40 }
        ensures ok { OnOk result (self.new ≡ self.old ++ replicate (count - length self.old) (2 ^ 64 - 1)) }
        ensures err { OnErr result (self.new ≡ self.old) }
    {
        let places = self.len();
        let mut grown = MinTree::new(alloc, count)?;
        for place in 0..places {
            grown.set(place, self.get(place));
        }
        *self = grown;
        Ok(())
    }
}

// Sets each inner node above this one to the minimum of its two children.
fn renew_above(nodes: &mut [u64], changed: usize)
    requires there { changed < length nodes.old }
    requires inner { 1 ≤ changed }
    requires others { AreMinimaBut nodes.old (changed / 2) }
    ensures minima { AreMinima nodes.new }
    ensures leaves { leaves_in nodes.new ≡ leaves_in nodes.old }
{
    let mut node = changed;
    while node > 1 {
        node /= 2;
        nodes[node] = nodes[2 * node].min(nodes[2 * node + 1]);
    }
}
