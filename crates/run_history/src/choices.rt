// What the choice of a thread means, from what is known of the thread.
ghost use Rattle.std.specs.Prelude.{◌≡◌, ◌+◌, ◌^◌, ◌≤◌, Some, IfOk, OnErr, IsTrue, MatchBool, if◌then◌else◌};
ghost use Rattle.run_history.specs.Known.{at_accept, request_of, next_request, waited};

use crate::happenings::{Happening, Wait};
use crate::history::HistoryError;
use crate::threads::{Standing, Thread};

/// Checks whether a thread with this record waits at `accept`; `accepts` has at each site's number whether its call is
/// `accept`.
pub(crate) fn is_at_accept(known: Option<Thread>, accepts: &[bool]) -> bool
    ensures { result ≡ at_accept accepts.now known }
{
    match known {
        None => false,
        Some(thread) => match thread.standing {
            Standing::Runs => false,
            Standing::Waits { site, .. } => accepts.get(site as usize).copied().unwrap_or(false),
            Standing::Ended => false,
        },
    }
}

/// Returns the request that a thread with this record serves.
pub(crate) fn request_served(known: Option<Thread>) -> Option<u64>
    ensures { result ≡ request_of known }
{
    match known {
        None => None,
        Some(thread) => thread.request,
    }
}

/// Returns the request that it serves once it is chosen, given the number of requests taken before.
pub(crate) fn request_after(known: Option<Thread>, takes: bool, taken: u64) -> Option<u64>
    ensures { result ≡ next_request takes taken known }
{
    if takes {
        Some(taken)
    } else {
        request_served(known)
    }
}

/// Returns the number of requests taken then.
pub(crate) fn count_taken(taken: u64, takes: bool) -> Result<u64, HistoryError>
    ensures ok { IfOk result (λ more. more ≡ (if takes then taken + 1 else taken)) }
    ensures err { OnErr result (2 ^ 64 ≤ taken + 1) }
{
    if !takes {
        return Ok(taken);
    }
    match taken.checked_add(1) {
        Some(more) => Ok(more),
        None => Err(HistoryError::Count),
    }
}

/// Returns the happening of the choice at that clock.
pub(crate) fn waiting_over(
    known: Option<Thread>,
    thread: u32,
    clock: u64,
    takes: bool,
    taken: u64,
) -> Happening
    ensures { result ≡ waited takes taken thread clock known }
{
    match known {
        None => Happening::Started { thread, clock },
        Some(before) => match before.standing {
            Standing::Runs => Happening::Nothing,
            Standing::Waits { site, since, .. } => Happening::Waited(Wait {
                thread,
                site,
                since,
                until: clock,
                request: request_after(None, takes, taken),
            }),
            Standing::Ended => Happening::Nothing,
        },
    }
}
