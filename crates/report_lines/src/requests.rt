// The parts of a request's time, in order: the queue, the segments, and each wait with its place.

use crate::queues::ticks_of;
use crate::scopes::Scope;
use crate::told::{LinesError, told_by};
use cap_text::Lines;
use report_text::Text;
use run_history::{Happening, History, Numbers, Part, Parts, queued_of};
use source_places::Places;
use std::alloc::{AllocError, Global};

/// The maximum number of parts of the slowest request that are listed; of a request that the user asks for, all are.
const LISTED: usize = 20;

/// A request that is shown in parts.
#[derive(Clone, Copy)]
pub struct Asked {
    /// Its number, from 0, in the order in which requests are taken.
    pub request: u64,
    /// Whether it is shown as the slowest.
    pub is_slowest: bool,
    /// The clock of its last answer, if it has one.
    pub until: Option<u64>,
}

impl Asked {
    /// Returns the request of that number, from 1.
    pub fn of(numbers: &Numbers, number: u64) -> Asked {
        let request = number.saturating_sub(1);
        Asked {
            request,
            is_slowest: false,
            until: match numbers.answers.get(request as usize) {
                Some(given) => Some(given.last),
                None => None,
            },
        }
    }
}

/// Appends the parts of a request's time, up to its last answer, if it has one.
pub fn put_parts(
    alloc: Global,
    text: &mut Text,
    places: &Places,
    scope: Scope,
    log: &[u8],
    accepts: &[bool],
    asked: Asked,
) -> Result<(), LinesError> {
    text.form("request $", &[asked.request.saturating_add(1)]);
    text.words(if asked.is_slowest {
        ", the slowest"
    } else {
        ""
    });
    let Some(queued) = queued_of(scope.numbers, scope.times, asked.request as usize) else {
        put_untaken(text, scope.numbers.arrivals.len() as u64, asked.request);
        return Ok(());
    };
    text.form(
        ": arrived $, taken by thread $, and its parts until when\n",
        &[queued.arrived, u64::from(queued.thread)],
    );
    text.form("  queue: $, $\n", &[ticks_of(queued), queued.taken]);
    let mut parts = Parts::new(alloc, asked.request);
    let read = match read_parts(alloc, &mut parts, log, accepts, asked) {
        Ok(other) => {
            let end = end_of(parts.parts.as_slice(), queued.taken);
            put_listed(alloc, text, places, parts.parts.as_slice(), asked);
            put_rest(text, end, asked.until, other);
            Ok(())
        }
        Err(error) => Err(error),
    };
    drop(parts);
    read
}

/// Appends why a request of that number, from 0, has no parts; `came` is the number of requests that came.
fn put_untaken(text: &mut Text, came: u64, request: u64) {
    if request < came {
        text.words(": no accept took it\n")
    } else {
        text.words(": ");
        text.counted(came, "request came", "requests came");
        text.words(" in all\n")
    }
}

/// Reads a log for the parts of a request, up to its last answer, if it has one. Returns the thread that put that
/// answer, if it isn't the one that took the request.
fn read_parts(
    alloc: Global,
    parts: &mut Parts,
    log: &[u8],
    accepts: &[bool],
    asked: Asked,
) -> Result<Option<u32>, LinesError> {
    let mut history = History::new(alloc);
    for line in Lines::new(log) {
        let told = told_by(&mut history, line, accepts)?;
        parts.add(told)?;
        if is_over(parts.parts.as_slice(), asked.until) {
            return Ok(None);
        }
        if let Some(thread) = answering_in(told, asked.until) {
            return Ok(Some(thread));
        }
    }
    Ok(None)
}

/// Returns the thread whose segment ends at the clock of the last answer, if this one does.
fn answering_in(told: Happening, until: Option<u64>) -> Option<u32> {
    match (told, until) {
        (Happening::Ran { segment, .. }, Some(clock)) if segment.ended == clock => {
            Some(segment.thread)
        }
        _ => None,
    }
}

/// Returns the clock at which the last of these parts ends, of a request that was taken at that clock.
fn end_of(parts: &[Part], taken: u64) -> u64 {
    match parts.last() {
        Some(Part::Runs { ended, .. }) => *ended,
        Some(Part::Waits { until, .. }) => *until,
        None => taken,
    }
}

/// Appends the time from the end of the parts to the last answer, if another thread put it.
fn put_rest(text: &mut Text, end: u64, until: Option<u64>, other: Option<u32>) {
    if let (Some(clock), Some(thread)) = (until, other) {
        if end < clock {
            let ticks = clock.saturating_sub(end);
            text.form(
                "  until thread $ answers: $, $\n",
                &[u64::from(thread), ticks, clock],
            )
        }
    }
}

/// Checks whether the last of these parts ends with the last answer.
fn is_over(parts: &[Part], until: Option<u64>) -> bool {
    match (parts.last(), until) {
        (Some(Part::Runs { ended, .. }), Some(clock)) => *ended >= clock,
        _ => false,
    }
}

/// Appends a line for each part, in order. Of the slowest request at most 20 are listed, those that took longest,
/// followed by the number of the others and their total ticks.
fn put_listed(alloc: Global, text: &mut Text, places: &Places, parts: &[Part], asked: Asked) {
    let most = if asked.is_slowest {
        LISTED
    } else {
        parts.len()
    };
    match longest_left_out(alloc, parts, most) {
        Ok(Some(bound)) => put_longer(text, places, parts, bound),
        Ok(None) => {
            for part in parts {
                put_part(text, places, *part);
            }
        }
        Err(AllocError) => text.lack(),
    }
}

/// Returns the ticks of the longest part that isn't listed, if at most `most` are, or `None` if all are.
fn longest_left_out(alloc: Global, parts: &[Part], most: usize) -> Result<Option<u64>, AllocError> {
    let mut ticks = Vec::new(alloc);
    for part in parts {
        ticks.push(length_of(*part))?;
    }
    ticks.sort_unstable();
    let left_out = parts.len().saturating_sub(most);
    if left_out == 0 {
        return Ok(None);
    }
    Ok(ticks.as_slice().get(left_out - 1).copied())
}

/// Appends a line for each part that is longer than `bound`, and one for all others.
fn put_longer(text: &mut Text, places: &Places, parts: &[Part], bound: u64) {
    let mut others: u64 = 0;
    let mut total: u64 = 0;
    for part in parts {
        let length = length_of(*part);
        if length > bound {
            put_part(text, places, *part);
        } else {
            others = others.saturating_add(1);
            total = total.saturating_add(length);
        }
    }
    text.words("  ");
    text.counted(others, "shorter part", "shorter parts");
    text.form(": $\n", &[total])
}

/// Returns the length of a part in ticks.
fn length_of(part: Part) -> u64 {
    match part {
        Part::Runs { began, ended } => ended.saturating_sub(began),
        Part::Waits { since, until, .. } => until.saturating_sub(since),
    }
}

/// Appends the line of a part.
fn put_part(text: &mut Text, places: &Places, part: Part) {
    let end = match part {
        Part::Runs { ended, .. } => {
            text.words("  runs");
            ended
        }
        Part::Waits { site, until, .. } => {
            text.words("  waits at ");
            places.put_site(text, site);
            until
        }
    };
    text.form(": $, $\n", &[length_of(part), end])
}
