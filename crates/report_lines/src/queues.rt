use crate::scopes::Scope;
use crate::ticks::cut;
use crate::waits::put_part;
use report_figures::TickList;
use report_text::Text;
use run_history::{Queued, queued_of};
use std::alloc::AllocError;

/// The request that was longest in the queue: its number, from 0, and its time in the queue.
#[derive(Clone, Copy)]
struct Longest {
    request: usize,
    queued: Queued,
}

/// Appends the row on the time of requests in the queue, from their arrival to the `accept` that took them, or nothing
/// if none was taken. `room` is overwritten with the ticks.
pub fn put_queue(text: &mut Text, scope: Scope, room: &mut TickList) {
    cut(room, 0);
    if put_row(text, scope, room).is_err() {
        text.lack()
    }
}

/// Adds the time in the queue of each request in the scope. Returns the one with the longest time, the earliest of
/// equally long ones.
fn add_queued(ticks: &mut TickList, scope: Scope) -> Result<Option<Longest>, AllocError> {
    let mut longest: Option<Longest> = None;
    for request in 0..scope.numbers.takers.len() {
        if let Some(queued) = queued_in(scope, request) {
            longest = match longest {
                Some(before) if ticks_of(before.queued) >= ticks_of(queued) => Some(before),
                _ => Some(Longest { request, queued }),
            };
            ticks.push(ticks_of(queued))?;
        }
    }
    Ok(longest)
}

/// Returns the time in the queue of the request of that number, if it is in the scope.
fn queued_in(scope: Scope, request: usize) -> Option<Queued> {
    let queued = queued_of(scope.numbers, scope.times, request)?;
    if scope.has(queued.arrived) {
        Some(queued)
    } else {
        None
    }
}

/// Returns the number of ticks that a request was in the queue.
pub(crate) fn ticks_of(queued: Queued) -> u64 {
    queued.taken.saturating_sub(queued.arrived)
}

/// Appends the row.
fn put_row(text: &mut Text, scope: Scope, ticks: &mut TickList) -> Result<(), AllocError> {
    let Some(longest) = add_queued(ticks, scope)? else {
        return Ok(());
    };
    text.words("  queue, from arrival to accept: ");
    put_part(text, ticks)?;
    text.form(
        " (request $, thread $, until $)\n",
        &[
            (longest.request as u64).saturating_add(1),
            u64::from(longest.queued.thread),
            longest.queued.taken,
        ],
    );
    Ok(())
}
