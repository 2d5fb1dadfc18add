// The minima of blocks of places, which are the leaves of the trees.
ghost use Rattle.std.specs.Prelude.{◌≡◌, ℕ, ◌/◌, ◌<◌, ◌≤◌, [], All, None, length, slice_index_or, slice_set};
ghost use Rattle.thread_waits.specs.Counted.{IsLeafOf, IsTreeOf, amount_of, wake_of};
ghost use Rattle.thread_waits.specs.Waiting.{IsWaitInRangeIf};

use crate::kinds::{amount_number, wake_number};
use crate::min_tree::MinTree;
use crate::waits::Wait;

/// The number of places in a block.
pub(crate) const BLOCK: usize = 16;

// Returns the wait at a place, after another place was set.
fn at_with(
    places: &[Option<Wait>],
    changed: usize,
    next: Option<Wait>,
    place: usize,
) -> Option<Wait>
    requires { place < length places.now }
    ensures { result ≡ slice_index_or (slice_set places.now changed next) place None }
{
    if place == changed {
        next
    } else {
        places[place]
    }
}

// Returns the least wake time in the block of a place, after the place is set.
fn least_wake(places: &[Option<Wait>], place: usize, next: Option<Wait>) -> u64
    requires there { place < length places.now }
    requires in_range { All IsWaitInRangeIf places.now }
    requires next_in_range { IsWaitInRangeIf next }
    ensures { IsLeafOf wake_of (slice_set places.now place next) (place / 16) result }
{
    let start = place / BLOCK * BLOCK;
    let end = places.len().min(start + BLOCK);
    let mut least = MinTree::NONE;
    for other in start..end {
        let wait = at_with(places, place, next, other);
        least = least.min(wake_number(wait));
    }
    least
}

// Returns the least amount of a resource that is waited for in the block of a place, after the place is set.
fn least_amount(places: &[Option<Wait>], resource: usize, place: usize, next: Option<Wait>) -> u64
    requires there { place < length places.now }
    ensures { IsLeafOf (amount_of resource) (slice_set places.now place next) (place / 16) result }
{
    let start = place / BLOCK * BLOCK;
    let end = places.len().min(start + BLOCK);
    let mut least = MinTree::NONE;
    for other in start..end {
        let wait = at_with(places, place, next, other);
        least = least.min(amount_number(resource, wait));
    }
    least
}

/// Updates the tree of times for a place that is about to be set.
pub(crate) fn renew_sleepers(
    tree: &mut MinTree,
    places: &[Option<Wait>],
    place: usize,
    next: Option<Wait>,
)
    requires there { place < length places.now }
    requires in_range { All IsWaitInRangeIf places.now }
    requires next_in_range { IsWaitInRangeIf next }
    requires before { IsTreeOf wake_of places.now tree.old }
    ensures { IsTreeOf wake_of (slice_set places.now place next) tree.new }
{
    if wake_number(places[place]) == MinTree::NONE && wake_number(next) == MinTree::NONE {
        return;
    }
    tree.set(place / BLOCK, least_wake(places, place, next));
}

// Updates the tree of a resource for a place that is about to be set.
fn renew_taker(
    tree: &mut MinTree,
    places: &[Option<Wait>],
    resource: usize,
    place: usize,
    next: Option<Wait>,
)
    requires there { place < length places.now }
    requires before { IsTreeOf (amount_of resource) places.now tree.old }
    ensures { IsTreeOf (amount_of resource) (slice_set places.now place next) tree.new }
{
    if amount_number(resource, places[place]) == MinTree::NONE
        && amount_number(resource, next) == MinTree::NONE
    {
        return;
    }
    tree.set(place / BLOCK, least_amount(places, resource, place, next));
}

/// Updates the trees of all resources for a place that is about to be set.
pub(crate) fn renew_takers(
    trees: &mut Vec<MinTree>,
    places: &[Option<Wait>],
    place: usize,
    next: Option<Wait>,
)
    requires there { place < length places.now }
    requires eight { length trees.old.items ≡ 8 }
    requires before { (r : ℕ) → r < 8 → IsTreeOf (amount_of r) places.now (slice_index_or trees.old.items r []) }
    ensures eight { length trees.new.items ≡ 8 }
    ensures after { (r : ℕ) → r < 8 → IsTreeOf (amount_of r) (slice_set places.now place next) (slice_index_or trees.new.items r []) }
{
    for r in 0..8usize {
        let tree = &mut trees[r];
        renew_taker(tree, places, r, place, next);
    }
}
