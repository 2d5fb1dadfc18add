// Updates of the counts and trees, one part at a time.
ghost use Rattle.std.specs.Prelude.{◌≡◌, ℕ, ◌+◌, ◌<◌, ◌≤◌, ◌^◌, ◌++◌, [], ◌∷◌, cond, length, replicate, OnOk, IfOk, IfSome, slice_index, slice_index_or, None};
ghost use Rattle.thread_waits.specs.Counted.{is_at, IsGrown, no_number};

use crate::min_tree::MinTree;
use crate::waits::Wait;
use std::alloc::{AllocError, Global};

/// Increments the count of a channel, if there is one.
pub(crate) fn count_in(counts: &mut [usize; 64], channel: Option<usize>)
    requires below { IfSome channel (λ channel. channel < 64) }
    requires small { (k : ℕ) → k < 64 → slice_index counts.old k < 2 ^ 63 }
    ensures counted { (k : ℕ) → k < 64 → slice_index counts.new k ≡ slice_index counts.old k + cond (is_at channel k) 1 0 }
    ensures size { length counts.new ≡ 64 }
{
    if let Some(channel) = channel {
        counts[channel] += 1;
    }
}

/// Decrements the count of a channel, if there is one.
pub(crate) fn count_out(counts: &mut [usize; 64], channel: Option<usize>)
    requires below { IfSome channel (λ channel. channel < 64) }
    requires some { (k : ℕ) → k < 64 → cond (is_at channel k) 1 0 ≤ slice_index counts.old k }
    ensures { (k : ℕ) → k < 64 → slice_index counts.new k + cond (is_at channel k) 1 0 ≡ slice_index counts.old k }
{
    if let Some(channel) = channel {
        counts[channel] -= 1;
    }
}

/// Returns one place, at which no thread waits.
pub(crate) fn one_place(alloc: Global) -> Result<Vec<Option<Wait>>, AllocError>
    ensures { IfOk result (λ places. places.items ≡ None ∷ []) }
{
    let mut places = Vec::with_capacity(alloc, 1)?;
    places.push(None)?;
    Ok(places)
}

/// Returns a tree with one block for each resource.
pub(crate) fn one_block_each(alloc: Global) -> Result<Vec<MinTree>, AllocError>
    ensures { IfOk result (λ trees. trees.items ≡ replicate 8 (replicate 1 no_number)) }
{
    let mut trees = Vec::with_capacity(alloc, 8)?;
    for made in 0..8u32 {
        let tree = MinTree::new(alloc, 1)?;
        trees.push(tree)?;
        // The loop invariant uses the count.
        let _made = made;
    }
    Ok(trees)
}

/// Grows a tree to at least `count` leaves.
pub(crate) fn grow_tree(tree: &mut MinTree, alloc: Global, count: usize) -> Result<(), AllocError>
    requires { count < 2 ^ 40 }
    ensures grown { IsGrown no_number tree.old tree.new }
    ensures ok { OnOk result (count ≤ length tree.new) }
{
    if count <= tree.len() {
        return Ok(());
    }
    tree.grow(alloc, count)?;
    Ok(())
}

/// Grows each tree to at least `count` leaves.
pub(crate) fn grow_trees(
    trees: &mut Vec<MinTree>,
    alloc: Global,
    count: usize,
) -> Result<(), AllocError>
    requires small { count < 2 ^ 40 }
    requires eight { length trees.old.items ≡ 8 }
    ensures eight { length trees.new.items ≡ 8 }
    ensures grown { (r : ℕ) → r < 8 → IsGrown no_number (slice_index_or trees.old.items r []) (slice_index_or trees.new.items r []) }
    ensures ok { OnOk result ((r : ℕ) → r < 8 → count ≤ length (slice_index_or trees.new.items r [])) }
{
    for r in 0..8usize {
        let tree = &mut trees[r];
        grow_tree(tree, alloc, count)?;
    }
    Ok(())
}

/// Grows the places to `count`; no thread waits at a new one.
pub(crate) fn grow_places(places: &mut Vec<Option<Wait>>, count: usize) -> Result<(), AllocError>
    requires { length places.old.items ≤ count }
    ensures most { length places.new.items ≤ count }
    ensures longer { length places.old.items ≤ length places.new.items }
    ensures same { (k : ℕ) → slice_index_or places.new.items k None ≡ slice_index_or places.old.items k None }
    ensures ok { OnOk result (length places.new.items ≡ count) }
{
    places.reserve_exact(count - places.len())?;
    for made in places.len()..count {
        places.push(None)?;
        // The loop invariant uses the count.
        let _made = made;
    }
    Ok(())
}
