ghost use Rattle.std.specs.Prelude.{◌≡◌, ◌-◌};
ghost use Rattle.stride_rule.specs.Rows.{clients_of};
ghost use Rattle.stride_rule.specs.Spread.{apart_in, first_pass, most_among, most_with, least_among, least_with};

use crate::rows::Row;

/// Returns the greatest pass minus the least, or 0 if there are no clients.
pub(crate) fn apart(places: &[Option<Row>]) -> u64
    ensures { result ≡ apart_in (clients_of places.now) }
{
    match pass_of_first(places) {
        Some(pass) => apart_from(pass, places),
        None => 0,
    }
}

/// Returns the pass of the first client.
fn pass_of_first(places: &[Option<Row>]) -> Option<u64>
    ensures { result ≡ first_pass (clients_of places.now) }
{
    for place in places {
        if let Some(row) = place {
            return Some(row.client.pass);
        }
    }
    None
}

/// Returns the greater of a pass and that at a place.
fn most_of(pass: u64, place: &Option<Row>) -> u64
    ensures { result ≡ most_with pass place.now }
{
    match place {
        Some(row) => pass.max(row.client.pass),
        None => pass,
    }
}

/// Returns the lesser of a pass and that at a place.
fn least_of(pass: u64, place: &Option<Row>) -> u64
    ensures { result ≡ least_with pass place.now }
{
    match place {
        Some(row) => pass.min(row.client.pass),
        None => pass,
    }
}

/// Returns the greatest difference between a pass and those at the places.
fn apart_from(pass: u64, places: &[Option<Row>]) -> u64
    ensures { result ≡ most_among pass places.now - least_among pass places.now }
{
    let mut most = pass;
    let mut least = pass;
    for place in places {
        most = most_of(most, place);
        least = least_of(least, place);
    }
    most - least
}
