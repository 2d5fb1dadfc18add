// The places of threads, in order of start. A place is emptied when its thread ends, and empty places are removed when
// there is no room for one more. The hints give the place of a thread by the slot of its record. A hint is used only if
// that place is the thread's, so there is no invariant on them.
ghost use Rattle.std.specs.Prelude.{◌≡◌, ◌+◌, ◌≤◌, ◌^◌, None, length, slice_set, IsTrue, OnOk, OnErr, Some, [], ◌∷◌, ◌++◌, ◌<◌};
ghost use Rattle.std.specs.List.{AllByRecursion};
ghost use Rattle.stride_rule.specs.Levels.{AreLevels};
ghost use Rattle.stride_rule.specs.Rows.{IsPlaceIf, IsPlaceOf, clients_of, is_of, is_there, needs_in, pass_of, row_at, row_grown, row_told};

use crate::clients::Client;
use crate::levels::Levels;
use crate::rows::Row;
use cap_word::ThreadId;
use ready_tree::Need;
use std::alloc::AllocError;

/// Returns whether it is the thread's place.
fn is_row_of(place: &Option<Row>, number: u32) -> bool
    ensures { result ≡ is_of number place.now }
{
    match place {
        Some(row) => row.client.thread.number == number,
        None => false,
    }
}

/// Returns whether a place exists and is the thread's.
fn is_place_of(places: &[Option<Row>], place: usize, number: u32) -> bool
    ensures { IsTrue result → IsPlaceOf number places.now place }
{
    place < places.len() && is_row_of(&places[place], number)
}

/// Searches for the place of a thread from the first place on.
fn search_place(places: &[Option<Row>], number: u32) -> Option<usize>
    ensures { IsPlaceIf number places.now result }
{
    for place in 0..places.len() {
        if is_row_of(&places[place], number) {
            return Some(place);
        }
    }
    None
}

/// Returns the hint for a thread.
fn hint_of(hints: &[usize], slot: u32) -> usize {
    match hints.get(slot as usize) {
        Some(place) => *place,
        None => 0,
    }
}

/// Returns the place of a thread. It searches only if the hint is wrong.
pub(crate) fn place_of(places: &[Option<Row>], hints: &[usize], thread: ThreadId) -> Option<usize>
    ensures { IsPlaceIf thread.number places.now result }
{
    let hint = hint_of(hints, thread.slot);
    if is_place_of(places, hint, thread.number) {
        return Some(hint);
    }
    search_place(places, thread.number)
}

/// Adds the stride of the thread at a place to its pass, and returns the old pass.
pub(crate) fn grow_at(places: &mut Vec<Option<Row>>, place: usize) -> u64
    requires there { place < length places.old.items }
    requires room { AllByRecursion (λ client. client.pass + client.stride ≤ 2 ^ 61) (clients_of places.old.items) }
    ensures pass { result ≡ pass_of (row_at places.old.items place) }
    ensures grown { places.new.items ≡ slice_set places.old.items place (row_grown (row_at places.old.items place)) }
{
    match places[place] {
        Some(row) => {
            let before = row.client.pass;
            places[place] = Some(Row {
                client: Client {
                    pass: before + u64::from(row.client.stride),
                    ..row.client
                },
                ..row
            });
            before
        }
        None => 0,
    }
}

/// Sets the need of the thread at a place.
pub(crate) fn tell_at(places: &mut Vec<Option<Row>>, place: usize, need: Need)
    requires { place < length places.old.items }
    ensures { places.new.items ≡ slice_set places.old.items place (row_told need (row_at places.old.items place)) }
{
    if let Some(row) = places[place] {
        places[place] = Some(Row { need, ..row });
    }
}

/// Empties the place of a thread that has left.
pub(crate) fn empty_at(places: &mut Vec<Option<Row>>, place: usize)
    requires { place < length places.old.items }
    ensures { places.new.items ≡ slice_set places.old.items place None }
{
    places[place] = None;
}

/// Records the place of a thread as a hint, if there is room.
fn note(hints: &mut [usize], place: usize, row: &Option<Row>) {
    if let Some(row) = row {
        let slot = row.client.thread.slot as usize;
        if slot < hints.len() {
            hints[slot] = place;
        }
    }
}

/// Records the place of each thread as a hint.
fn note_all(hints: &mut [usize], places: &[Option<Row>]) {
    for place in 0..places.len() {
        note(hints, place, &places[place]);
    }
}

fn has_row(place: &Option<Row>) -> bool
    ensures { result ≡ is_there place.now }
{
    match place {
        Some(_) => true,
        None => false,
    }
}

/// Removes the empty places.
fn gather(places: &mut Vec<Option<Row>>)
    ensures clients { clients_of places.new.items ≡ clients_of places.old.items }
    ensures needs { needs_in places.new.items ≡ needs_in places.old.items }
    ensures shorter { length places.new.items ≤ length places.old.items }
{
    places.retain(|place| has_row(place));
}

/// Makes room for one more. It is amortized: so many threads start before the next removal that each costs a few steps.
pub(crate) fn make_room(
    places: &mut Vec<Option<Row>>,
    hints: &mut Vec<usize>,
    levels: &mut Levels,
) -> Result<(), AllocError>
    requires { AreLevels levels.old places.old.items }
    ensures levels { AreLevels levels.new places.new.items }
    ensures clients { clients_of places.new.items ≡ clients_of places.old.items }
    ensures needs { needs_in places.new.items ≡ needs_in places.old.items }
{
    if places.len() < places.capacity() {
        return Ok(());
    }
    gather(places);
    note_all(hints, places);
    levels.renew_all(places.as_slice());
    let gathered = places.len();
    if places.capacity() / 2 <= gathered {
        places.reserve(gathered + 1)?;
    }
    Ok(())
}

/// Appends a thread, and records its place as a hint.
pub(crate) fn append(
    places: &mut Vec<Option<Row>>,
    hints: &mut Vec<usize>,
    levels: &mut Levels,
    row: Row,
) -> Result<(), AllocError>
    requires { AreLevels levels.old places.old.items }
    ensures levels { AreLevels levels.new places.new.items }
    ensures ok { OnOk result (places.new.items ≡ places.old.items ++ Some row ∷ []) }
    ensures err { OnErr result (places.new.items ≡ places.old.items) }
{
    let slot = row.client.thread.slot as usize;
    if hints.len() <= slot {
        hints.resize(slot + 1, 0)?;
    }
    let place = places.len();
    levels.add(place, &Some(row))?;
    places.push(Some(row))?;
    hints[slot] = place;
    Ok(())
}
