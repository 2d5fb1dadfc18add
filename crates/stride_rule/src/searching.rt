ghost use Rattle.std.specs.Prelude.{◌≡◌, true, None};
ghost use Rattle.scheduler.specs.LawfulChoice.{is_eligible};
ghost use Rattle.stride_rule.specs.Search.{better, found_with, found_at, found_among, is_before_best, met_with};

use crate::clients::{Client, is_client_before, is_client_running};
use crate::rows::Row;
use cap_word::Ready;
use ready_tree::Bounds;
use scheduler::may_go_on;

/// The state of a search through the clients.
#[derive(Clone, Copy)]
pub struct Found {
    /// The first of the eligible clients so far.
    pub best: Option<Client>,
    /// Whether each waiting client so far is eligible.
    pub all: bool,
}

/// Returns the first of the best so far and this client.
fn better_of(best: Option<Client>, client: &Client) -> Option<Client>
    ensures { result ≡ better best client.now }
{
    match best {
        Some(best) => {
            if is_client_before(client, &best) {
                Some(*client)
            } else {
                Some(best)
            }
        }
        None => Some(*client),
    }
}

/// Returns the state after one more client, which is asked unless its segment is in progress.
fn looked_at<R: Ready>(
    found: Found,
    running: Option<u32>,
    client: &Client,
    gate_open: bool,
    ready: &R,
) -> Found
    ensures { result ≡ found_with (is_eligible (R.is_ready ready.now) (R.at_accept ready.now) (R.any_elsewhere ready.now) gate_open) running found client.now }
{
    if is_client_running(running, client) {
        found
    } else if may_go_on(ready, gate_open, client.thread) {
        Found {
            best: better_of(found.best, client),
            all: found.all,
        }
    } else {
        Found {
            best: found.best,
            all: false,
        }
    }
}

/// Returns the state after one more place.
fn looked_at_place<R: Ready>(
    found: Found,
    running: Option<u32>,
    place: &Option<Row>,
    gate_open: bool,
    ready: &R,
) -> Found
    ensures { result ≡ found_at (is_eligible (R.is_ready ready.now) (R.at_accept ready.now) (R.any_elsewhere ready.now) gate_open) running found place.now }
{
    match place {
        Some(row) => looked_at(found, running, &row.client, gate_open, ready),
        None => found,
    }
}

/// Returns the state after all clients. Each waiting client is asked once.
pub(crate) fn search<R: Ready>(
    places: &[Option<Row>],
    running: Option<u32>,
    gate_open: bool,
    ready: &R,
) -> Found
    ensures { result ≡ found_among (is_eligible (R.is_ready ready.now) (R.at_accept ready.now) (R.any_elsewhere ready.now) gate_open) running (record { best = None; all = true }) places.now }
{
    let mut found = Found {
        best: None,
        all: true,
    };
    for place in places {
        found = looked_at_place(found, running, place, gate_open, ready);
    }
    found
}

/// Returns whether a client comes before the best so far, or there is none so far.
fn is_before_best_so_far(client: &Client, best: &Option<Client>) -> bool
    ensures { result ≡ is_before_best client.now best.now }
{
    match best {
        Some(best) => is_client_before(client, best),
        None => true,
    }
}

/// Returns the first of the best so far and the client at one more place, if its need is met.
pub(crate) fn met_at(best: Option<Client>, place: &Option<Row>, bounds: &Bounds) -> Option<Client>
    ensures { result ≡ met_with bounds.now best place.now }
{
    match place {
        Some(row) => {
            if is_before_best_so_far(&row.client, &best) && bounds.meet(row.need) {
                Some(row.client)
            } else {
                best
            }
        }
        None => best,
    }
}
