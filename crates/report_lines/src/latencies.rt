use crate::lines::RequestsLine;
use crate::requests::Asked;
use crate::scopes::Scope;
use crate::ticks::cut;
use report_figures::{TickList, spread_of};
use report_text::Text;
use std::alloc::AllocError;

/// The latency of a request, from its arrival to an answer, with its number and the thread that took it.
#[derive(Clone, Copy)]
struct Latency {
    request: usize,
    ticks: u64,
    arrived: u64,
    thread: u32,
}

/// A request that was answered: its arrival, its last answer, and the thread that took it.
#[derive(Clone, Copy)]
struct Taken {
    arrived: u64,
    last: u64,
    thread: u32,
}

/// Appends the lines on requests: how many came, were dropped, were taken and were answered, and the latencies from a
/// request's time in the trace to its first and to its last answer. Returns the request with the longest latency to its
/// last answer, the earliest of equally long ones.
///
/// `firsts` has the clocks of the first answers, at the places of their requests. It is overwritten with latencies, so
/// that no further list is allocated.
pub fn put_requests(
    text: &mut Text,
    scope: Scope,
    firsts: &mut TickList,
    dropped: u64,
) -> Result<Option<Asked>, AllocError> {
    let arrivals = scope.numbers.arrivals.len();
    let takes = scope.numbers.takers.len();
    let slowest = to_latencies(firsts, scope)?;
    let line = RequestsLine {
        came: scope.count(arrivals),
        dropped,
        taken: scope.count(takes),
        answered: firsts.len() as u64,
    };
    text.line(&line);
    text.words("\n");
    put_latencies(text, FIRST, firsts, slowest)?;
    cut(firsts, 0);
    put_lasts(text, scope, firsts)
}

/// Appends the line on latencies to the last answer. Returns the request with the longest one, the earliest of equally
/// long ones.
fn put_lasts(
    text: &mut Text,
    scope: Scope,
    ticks: &mut TickList,
) -> Result<Option<Asked>, AllocError> {
    let slowest = add_latencies(ticks, scope)?;
    put_latencies(text, LAST, ticks, slowest)?;
    match slowest {
        Some(latency) => Ok(Some(Asked {
            request: latency.request as u64,
            is_slowest: true,
            until: Some(latency.arrived.saturating_add(latency.ticks)),
        })),
        None => Ok(None),
    }
}

/// Returns the slower of two requests, the first if they are equally slow.
fn slower_of(before: Option<Latency>, latency: Latency) -> Option<Latency> {
    match before {
        Some(slow) if slow.ticks >= latency.ticks => Some(slow),
        _ => Some(latency),
    }
}

/// Replaces the clock of each first answer by the request's latency to its first answer. Returns the longest one, the
/// earliest of equally long ones.
fn to_latencies(firsts: &mut TickList, scope: Scope) -> Result<Option<Latency>, AllocError> {
    let mut slowest: Option<Latency> = None;
    let mut count: usize = 0;
    for request in 0..firsts.len() {
        let first = firsts.at(request);
        if let Some(
            Taken {
                arrived,
                thread,
                ..
            },
        ) = taken_of(scope, request)
        {
            let latency = Latency {
                request,
                ticks: first.saturating_sub(arrived),
                arrived,
                thread,
            };
            slowest = slower_of(slowest, latency);
            if count < firsts.len() {
                firsts.set(count, latency.ticks)?;
                count += 1;
            }
        }
    }
    cut(firsts, count);
    Ok(slowest)
}

/// Adds the latency of each answered request to its last answer. Returns the longest one, the earliest of equally long
/// ones.
fn add_latencies(ticks: &mut TickList, scope: Scope) -> Result<Option<Latency>, AllocError> {
    let mut slowest: Option<Latency> = None;
    for request in 0..scope.numbers.answers.len() {
        if let Some(
            Taken {
                arrived,
                last,
                thread,
            },
        ) = taken_of(scope, request)
        {
            let latency = Latency {
                request,
                ticks: last.saturating_sub(arrived),
                arrived,
                thread,
            };
            slowest = slower_of(slowest, latency);
            ticks.push(latency.ticks)?;
        }
    }
    Ok(slowest)
}

/// Returns the request of that number, if it is in the scope and was answered.
fn taken_of(scope: Scope, request: usize) -> Option<Taken> {
    let arrived = scope.arrived(request)?;
    match (
        scope.numbers.answers.get(request),
        scope.numbers.takers.as_slice().get(request),
    ) {
        (Some(given), Some(thread)) => Some(Taken {
            arrived,
            last: given.last,
            thread: *thread,
        }),
        _ => None,
    }
}

/// The forms of the lines on latencies to the first and to the last answer.
const FIRST: &str =
    "latency to the first answer: least $, median $, 90th $, 99th $, greatest $ (arrived $, thread $)\n";

const LAST: &str =
    "latency to the last answer: least $, median $, 90th $, 99th $, greatest $ (arrived $, thread $)\n";

/// Appends the line on latencies in that form, in ticks, or nothing if there are none.
fn put_latencies(
    text: &mut Text,
    form: &str,
    ticks: &mut TickList,
    slowest: Option<Latency>,
) -> Result<(), AllocError> {
    if let (Some(spread), Some(slowest)) = (spread_of(ticks)?, slowest) {
        text.form(
            form,
            &[
                spread.least,
                spread.median,
                spread.ninetieth,
                spread.ninety_ninth,
                spread.greatest,
                slowest.arrived,
                u64::from(slowest.thread),
            ],
        )
    }
    Ok(())
}
