// The effects of calls on one thread, by its number.
ghost use Rattle.std.specs.Prelude.{◌≡◌, ◌+◌, ◌≤◌, ◌^◌, IsSome};
ghost use Rattle.std.specs.List.{AllByRecursion};
ghost use Rattle.stride_rule.specs.Clients.{client_of, pass_in, grown, without};
ghost use Rattle.stride_rule.specs.declared.levels.Levels.{Levels as LevelsOf};
ghost use Rattle.stride_rule.specs.Levels.{AreLevels};
ghost use Rattle.stride_rule.specs.Rows.{clients_of, needs_in};
ghost use Rattle.stride_rule.specs.State.{AreOnce};
ghost use Rattle.stride_rule.specs.Told.{with_need, without_need};

use crate::levels::Levels;
use crate::places::{empty_at, grow_at, place_of, tell_at};
use crate::rows::Row;
use cap_word::ThreadId;
use ready_tree::Need;

/// Adds the stride of a thread to its pass, and returns the old pass, or 0 if there is no such thread.
pub(crate) fn grow(places: &mut Vec<Option<Row>>, hints: &[usize], thread: ThreadId) -> u64
    requires once { AreOnce (clients_of places.old.items) }
    requires room { AllByRecursion (λ client. client.pass + client.stride ≤ 2 ^ 61) (clients_of places.old.items) }
    ensures levels { (levels : LevelsOf) → AreLevels levels places.old.items → AreLevels levels places.new.items }
    ensures pass { result ≡ pass_in thread.number (clients_of places.old.items) }
    ensures grown { clients_of places.new.items ≡ grown thread.number (clients_of places.old.items) }
    ensures needs { needs_in places.new.items ≡ needs_in places.old.items }
{
    match place_of(places.as_slice(), hints, thread) {
        Some(place) => grow_at(places, place),
        None => 0,
    }
}

/// Sets the need of a thread.
pub(crate) fn tell(
    places: &mut Vec<Option<Row>>,
    hints: &[usize],
    levels: &mut Levels,
    thread: ThreadId,
    need: Need,
)
    requires once { AreOnce (clients_of places.old.items) }
    requires levels { AreLevels levels.old places.old.items }
    requires there { IsSome (client_of thread.number (clients_of places.old.items)) }
    ensures levels { AreLevels levels.new places.new.items }
    ensures clients { clients_of places.new.items ≡ clients_of places.old.items }
    ensures needs { needs_in places.new.items ≡ with_need thread.number need (needs_in places.old.items) }
{
    if let Some(place) = place_of(places.as_slice(), hints, thread) {
        tell_at(places, place, need);
        levels.renew(places.as_slice(), place);
    }
}

/// Removes a thread.
pub(crate) fn take_out(
    places: &mut Vec<Option<Row>>,
    hints: &[usize],
    levels: &mut Levels,
    thread: ThreadId,
)
    requires once { AreOnce (clients_of places.old.items) }
    requires levels { AreLevels levels.old places.old.items }
    ensures levels { AreLevels levels.new places.new.items }
    ensures clients { clients_of places.new.items ≡ without thread.number (clients_of places.old.items) }
    ensures needs { needs_in places.new.items ≡ without_need thread.number (needs_in places.old.items) }
{
    if let Some(place) = place_of(places.as_slice(), hints, thread) {
        empty_at(places, place);
        levels.renew(places.as_slice(), place);
    }
}
