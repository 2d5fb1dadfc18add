ghost use Rattle.std.specs.Prelude.{◌≡◌, ◌<◌, ◌&&◌, ◌||◌, Bool, not, IfSome, length, position};
ghost use Rattle.ready_tree.specs.declared.needs.Need.{Need as NeedOf};
ghost use Rattle.ready_tree.specs.Entries.{entries_of};
ghost use Rattle.ready_tree.specs.Needs.{is_met};
ghost use Rattle.cap_word.specs.declared.threads.ThreadId.{ThreadId as ThreadIdOf};
ghost use Rattle.scheduler.specs.LawfulChoice.{is_eligible};
ghost use Rattle.scheduler.specs.Queues.{AreExact, passes_at};
ghost use Rattle.scheduler.specs.Search.{IsFoundIf};

use crate::eligibility::may_go_on;
use cap_word::{Ready, ThreadId};
use ready_tree::{Bounded, Bounds, ReadyTree};

/// An eligible thread, with its place in its queue.
#[derive(Clone, Copy)]
pub struct Found {
    /// The place.
    pub place: usize,
    /// The thread.
    pub thread: ThreadId,
}

/// Returns whether an arrival makes a thread eligible: one is queued, and the gate is open or no thread that isn't at
/// `accept` is ready.
fn arrival_at_gate<W: Ready>(world: &W, arrival: bool, gate_open: bool) -> bool
    ensures { result ≡ (arrival && (gate_open || not (W.any_elsewhere world.now))) }
{
    arrival && (gate_open || !world.any_elsewhere())
}

/// Returns what is available for eligible threads: while the gate is closed and a thread that isn't at `accept` is
/// ready, no arrival.
pub fn bounds_at_gate<W: Bounded>(world: &W, gate_open: bool) -> Bounds
    ensures { (thread : ThreadIdOf) → (need : NeedOf) → W.vouches world.now thread need → is_met result need ≡ is_eligible (W.is_ready world.now) (W.at_accept world.now) (W.any_elsewhere world.now) gate_open thread }
{
    let bounds = world.bounds();
    let arrival = arrival_at_gate(world, bounds.arrival, gate_open);
    Bounds { arrival, ..bounds }
}

/// Returns the first place with an eligible thread. It asks each thread before it, and none after it.
fn first_asked<R: Ready>(queue: &ReadyTree, ready: &R, gate_open: bool) -> Option<usize>
    ensures { result ≡ position (passes_at (is_eligible (R.is_ready ready.now) (R.at_accept ready.now) (R.any_elsewhere ready.now) gate_open)) queue.now }
{
    for place in 0..queue.places() {
        if let Some(entry) = queue.at(place) {
            if may_go_on(ready, gate_open, entry.thread) {
                return Some(place);
            }
        }
    }
    None
}

/// Returns the thread at a place, which is the first that passes some test.
fn found_at(queue: &ReadyTree, place: Option<usize>) -> Option<Found>
    requires { IfSome place (λ there. there < length queue.now) }
    ensures { (test : ThreadIdOf → Bool) → place ≡ position (passes_at test) queue.now → IsFoundIf test queue.now result }
{
    let Some(there) = place else {
        return None;
    };
    let Some(entry) = queue.at(there) else {
        return None;
    };
    Some(Found {
        place: there,
        thread: entry.thread,
    })
}

/// Returns the first eligible thread of a queue. It asks each thread before it.
pub(crate) fn first_of<R: Ready>(queue: &ReadyTree, ready: &R, gate_open: bool) -> Option<Found>
    ensures { IsFoundIf (is_eligible (R.is_ready ready.now) (R.at_accept ready.now) (R.any_elsewhere ready.now) gate_open) queue.now result }
{
    found_at(queue, first_asked(queue, ready, gate_open))
}

/// Returns the first thread of a queue whose need is met. If the needs determine which threads pass a test, it is the
/// first that passes.
pub(crate) fn first_met(queue: &ReadyTree, bounds: &Bounds) -> Option<Found>
    ensures { (test : ThreadIdOf → Bool) → AreExact bounds.now test (entries_of queue.now) → IsFoundIf test queue.now result }
{
    found_at(queue, queue.first(bounds))
}
