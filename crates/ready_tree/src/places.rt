// The places of a queue with the tree above their blocks. If there is only one block, there is no tree.
ghost use Rattle.std.specs.Prelude.{◌≡◌, ℕ, ◌+◌, ◌*◌, ◌/◌, ◌<◌, ◌≤◌, ◌^◌, ◌++◌, ◌∷◌, [], None, Some, Option, true, false, length, position, slice_set, IfOk, OnOk, OnErr};
ghost use Rattle.ready_tree.specs.declared.entries.Entry.{Entry};
ghost use Rattle.ready_tree.specs.Entries.{entries_of, place_at, may_go, is_of, is_taken};
ghost use Rattle.ready_tree.specs.Trees.{Covers, CoversAll, IsAboveIf, IsAboveButIf, HasPlaces, HasRoom, IsBlankIf, IsGathered};
ghost use Rattle.ready_tree.specs.NeedTrees.{AreJoinedIf};

use crate::bounds::Bounds;
use crate::entries::Entry;
use crate::needs::Needs;
use crate::nodes::{BLOCK, blank_nodes, needs_at, renew_above};
use crate::subtrees::first_leaf;
use cap_word::ThreadId;
use std::alloc::{AllocError, Global};

/// More threads than a queue can have: a thread's place is a `u32`.
const TOO_MANY: usize = 1 << 33;

/// Returns whether the need of the thread at a place is met.
fn is_met_at(place: &Option<Entry>, bounds: &Bounds) -> bool
    ensures { result ≡ may_go bounds.now place.now }
{
    match place {
        None => false,
        Some(entry) => bounds.meet(entry.need),
    }
}

/// Returns a number of places from the first on that have no need that is met.
pub(crate) fn skipped(places: &[Option<Entry>], nodes: &[Needs], bounds: &Bounds) -> usize
    requires { IsAboveIf nodes.now places.now }
    ensures { (place : ℕ) → place < result → place < length places.now → may_go bounds.now (place_at places.now place) ≡ false }
{
    if nodes.is_empty() {
        return 0;
    }
    let blocks = first_leaf(nodes, bounds) - nodes.len() / 2;
    blocks.min(places.len() / BLOCK + 1) * BLOCK
}

/// Returns the first place at which a need is met, given that none before `start` is.
pub(crate) fn first_met(places: &[Option<Entry>], start: usize, bounds: &Bounds) -> Option<usize>
    requires { (place : ℕ) → place < start → place < length places.now → may_go bounds.now (place_at places.now place) ≡ false }
    ensures { result ≡ position (may_go bounds.now) places.now }
{
    for place in start..places.len() {
        if is_met_at(&places[place], bounds) {
            return Some(place);
        }
    }
    None
}

/// Returns whether it is the thread's place.
fn is_place_of(place: &Option<Entry>, thread: ThreadId) -> bool
    ensures { result ≡ is_of thread place.now }
{
    match place {
        None => false,
        Some(entry) => entry.thread.slot == thread.slot && entry.thread.number == thread.number,
    }
}

/// Returns the first place of a thread.
pub(crate) fn first_of(places: &[Option<Entry>], thread: ThreadId) -> Option<usize>
    ensures { result ≡ position (is_of thread) places.now }
{
    places.iter().position(|place| is_place_of(place, thread))
}

/// Returns the needs joined with those of the thread at a place.
fn with(needs: &Needs, place: &Option<Entry>) -> Needs
    ensures covers { Covers result place.now }
    ensures keeps { (other : Option Entry) → Covers needs.now other → Covers result other }
{
    match place {
        None => *needs,
        Some(entry) => needs.join(&Needs::of(entry.need)),
    }
}

/// Returns the needs of the threads at the places from one on and before another.
fn needs_between(places: &[Option<Entry>], start: usize, end: usize) -> Needs
    requires { end ≤ length places.now }
    ensures { (other : ℕ) → start ≤ other → other < end → Covers result (place_at places.now other) }
{
    let mut needs = Needs::NONE;
    for other in start..end {
        needs = with(&needs, &places[other]);
    }
    needs
}

/// Returns the needs of the threads in the block of a place.
fn needs_of_block(places: &[Option<Entry>], place: usize) -> Needs
    requires { place < length places.now }
    ensures { (other : ℕ) → other < length places.now → other / 16 ≡ place / 16 → Covers result (place_at places.now other) }
{
    let start = place / BLOCK * BLOCK;
    let end = places.len().min(start + BLOCK);
    needs_between(places, start, end)
}

/// Returns the needs of the threads at the places. If there is a tree, it reads only its root.
pub(crate) fn needs_of_all(places: &[Option<Entry>], nodes: &[Needs]) -> Needs
    requires { IsAboveIf nodes.now places.now }
    ensures { CoversAll result (entries_of places.now) }
{
    if nodes.is_empty() {
        return needs_between(places, 0, places.len());
    }
    needs_at(nodes, 1)
}

/// Updates the tree after a change at a place.
pub(crate) fn renew(places: &[Option<Entry>], nodes: &mut [Needs], place: usize)
    requires there { place < length places.now }
    requires above { IsAboveButIf nodes.old places.now (place / 16) }
    ensures { IsAboveIf nodes.new places.now }
{
    if nodes.is_empty() {
        return;
    }
    let leaf = nodes.len() / 2 + place / BLOCK;
    nodes[leaf] = needs_of_block(places, place);
    renew_above(nodes, leaf);
}

/// Appends a thread, for which there is room.
pub(crate) fn append(
    places: &mut Vec<Option<Entry>>,
    nodes: &mut Vec<Needs>,
    entry: Entry,
) -> Result<(), AllocError>
    requires above { IsAboveIf nodes.old.items places.old.items }
    requires room { HasRoom nodes.old.items places.old.items }
    ensures above { IsAboveIf nodes.new.items places.new.items }
    ensures nodes { length nodes.new.items ≡ length nodes.old.items }
    ensures ok { OnOk result (places.new.items ≡ places.old.items ++ Some entry ∷ []) }
    ensures err { OnErr result (places.new.items ≡ places.old.items) }
{
    let place = places.len();
    places.push(Some(entry))?;
    renew(places, nodes, place);
    Ok(())
}

/// Empties a place, and returns the number of remaining threads.
pub(crate) fn empty(places: &mut [Option<Entry>], place: usize, live: usize) -> usize
    requires there { place < length places.old }
    requires live { live ≡ length (entries_of places.old) }
    ensures places { places.new ≡ slice_set places.old place None }
    ensures live { result ≡ length (entries_of places.new) }
{
    let left = match places[place] {
        None => live,
        Some(_) => live - 1,
    };
    places[place] = None;
    left
}

/// Returns the nodes of a tree for this number of places, or none if they are one block.
fn nodes_for(alloc: Global, count: usize) -> Result<Vec<Needs>, AllocError>
    requires { count < 2 ^ 40 }
    ensures { IfOk result (λ nodes. IsBlankIf nodes.items count) }
{
    if count < BLOCK {
        return Ok(Vec::new(alloc));
    }
    blank_nodes(alloc, count)
}

/// Appends the thread at a place, for which there is room.
fn keep(
    kept: &mut Vec<Option<Entry>>,
    nodes: &mut Vec<Needs>,
    place: &Option<Entry>,
) -> Result<(), AllocError>
    requires above { IsAboveIf nodes.old.items kept.old.items }
    requires room { HasRoom nodes.old.items kept.old.items }
    ensures above { IsAboveIf nodes.new.items kept.new.items }
    ensures nodes { length nodes.new.items ≡ length nodes.old.items }
    ensures same { OnOk result (entries_of kept.new.items ≡ entries_of kept.old.items ++ entries_of (place.now ∷ [])) }
    ensures full { OnOk result (length kept.new.items ≡ length kept.old.items + length (entries_of (place.now ∷ []))) }
{
    match place {
        None => Ok(()),
        Some(entry) => append(kept, nodes, *entry),
    }
}

/// Returns the threads at places without gaps, with room for half as many more.
fn gathered(
    alloc: Global,
    places: &[Option<Entry>],
    live: usize,
) -> Result<(Vec<Option<Entry>>, Vec<Needs>), AllocError>
    requires { live ≡ length (entries_of places.now) }
    ensures { IfOk result (λ made. IsGathered places.now made.0.items made.1.items) }
{
    if live >= TOO_MANY {
        return Err(AllocError);
    }
    let count = live + live / 2;
    let mut nodes = nodes_for(alloc, count)?;
    let mut kept = Vec::with_capacity(alloc, count + 1)?;
    for place in places {
        keep(&mut kept, &mut nodes, place)?;
    }
    Ok((kept, nodes))
}

/// Returns whether there is no room for one more. If there is a tree, the places never exceed the capacity that was
/// allocated for them, so they don't double.
fn is_full(places: &Vec<Option<Entry>>, nodes: &[Needs]) -> bool
    ensures { result ≡ false → HasRoom nodes.now places.now.items }
{
    if nodes.is_empty() {
        places.len() >= BLOCK
    } else {
        places.len() >= places.capacity() || places.len() / BLOCK >= nodes.len() / 2
    }
}

/// Returns whether there is a thread at a place.
fn is_taken(place: &Option<Entry>) -> bool
    ensures { result ≡ is_taken place.now }
{
    match place {
        Some(_) => true,
        None => false,
    }
}

/// Rebuilds the tree above the places, block by block.
fn rebuild(places: &[Option<Entry>], nodes: &mut [Needs])
    requires joined { AreJoinedIf nodes.old }
    requires room { HasRoom nodes.old places.now }
    ensures above { IsAboveIf nodes.new places.now }
    ensures room { HasRoom nodes.new places.now }
{
    let mut end = 0;
    while end < places.len() {
        let start = end;
        end = places.len().min(start + BLOCK);
        renew(&places[..end], nodes, start);
    }
}

/// Removes the empty places, without an allocation.
fn gather(
    places: &mut Vec<Option<Entry>>,
    nodes: &mut Vec<Needs>,
    live: usize,
) -> Result<(), AllocError>
    requires above { IsAboveIf nodes.old.items places.old.items }
    requires live { live ≡ length (entries_of places.old.items) }
    requires room { HasPlaces nodes.old.items live }
    ensures same { entries_of places.new.items ≡ entries_of places.old.items }
    ensures above { IsAboveIf nodes.new.items places.new.items }
    ensures room { OnOk result (HasRoom nodes.new.items places.new.items) }
{
    places.retain(|place| is_taken(place));
    let count = nodes.len();
    nodes.clear();
    nodes.resize(count, Needs::NONE)?;
    rebuild(places, nodes);
    Ok(())
}

/// Returns whether at least a fifth of the places are empty, so that they are removed in place. If three quarters are
/// empty, less memory is allocated for the rest.
fn is_roomy(places: &Vec<Option<Entry>>, nodes: &[Needs], live: usize) -> bool
    ensures { result ≡ true → HasPlaces nodes.now live }
{
    let room = places.capacity();
    room / 4 <= live && live <= room - room / 5 && live / BLOCK < nodes.len() / 2
}

/// Makes room for one more. It is amortized: so many threads join before the next time that each costs a few steps.
pub(crate) fn make_room(
    places: &mut Vec<Option<Entry>>,
    nodes: &mut Vec<Needs>,
    live: usize,
) -> Result<(), AllocError>
    requires above { IsAboveIf nodes.old.items places.old.items }
    requires live { live ≡ length (entries_of places.old.items) }
    ensures same { entries_of places.new.items ≡ entries_of places.old.items }
    ensures above { IsAboveIf nodes.new.items places.new.items }
    ensures room { OnOk result (HasRoom nodes.new.items places.new.items) }
{
    if !is_full(places, nodes) {
        return Ok(());
    }
    if is_roomy(places, nodes, live) {
        return gather(places, nodes, live);
    }
    let alloc = *places.allocator();
    let (kept, tree) = gathered(alloc, places, live)?;
    *places = kept;
    *nodes = tree;
    Ok(())
}
