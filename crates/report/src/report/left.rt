use crate::report::values::put_blocked;
use crate::report::{Course, is_one};
use report_text::Text;
use run_history::{History, Standing, Wait};
use source_places::Places;
use std::alloc::Global;
use thread_core::World;

/// The maximum number of threads that are listed.
const LISTED: u64 = 20;

/// Appends a line for each thread that is left after the last entry, up to 20, and the number of the others. Returns
/// how many threads are left.
pub(crate) fn put_left(
    alloc: Global,
    text: &mut Text,
    places: &Places,
    history: &History,
    course: &Course,
    world: Option<&World>,
) -> u64 {
    let mut left: u64 = 0;
    for thread in 0..course.threads {
        if let Some(standing) = standing_left(history, thread) {
            if left < LISTED {
                let last = last_take(course, thread, standing);
                put_standing(alloc, text, places, thread, standing, world);
                put_last(text, places, last);
            }
            left = left.saturating_add(1);
        }
    }
    if left > LISTED {
        text.words("left: ");
        text.counted(left - LISTED, "more thread\n", "more threads\n");
    }
    left
}

/// Returns the state of a thread that has run and hasn't ended.
fn standing_left(history: &History, thread: u32) -> Option<Standing> {
    match history.thread(thread) {
        Some(known) => match known.standing {
            Standing::Ended => None,
            standing => Some(standing),
        },
        None => None,
    }
}

/// Appends where a thread that is left is, with the values of its call if the world at the stop is available.
fn put_standing(
    alloc: Global,
    text: &mut Text,
    places: &Places,
    thread: u32,
    standing: Standing,
    world: Option<&World>,
) {
    match standing {
        Standing::Waits { site, since, .. } => {
            text.form("left: thread $ waits at ", &[u64::from(thread)]);
            places.put_site_text(text, site);
            text.form(" since $", &[since]);
            if let Some(at_stop) = world {
                put_blocked(alloc, text, places, at_stop, thread);
            }
        }
        _ => text.form(
            "left: thread $, whose segment was cut",
            &[u64::from(thread)],
        ),
    }
}

/// Appends the last wait at `take` of a thread, if there is one, and ends its line.
fn put_last(text: &mut Text, places: &Places, last: Option<Wait>) {
    match last {
        Some(wait) => {
            text.words(", went past ");
            places.put_site_text(text, wait.site);
            text.form(" at $\n", &[wait.until])
        }
        None => text.words("\n"),
    }
}

/// Returns the last wait at `take` of a thread in this state, if there was one since it took its request. Returns
/// `None` if it waits at `accept`, since it is then done with its request.
fn last_take(course: &Course, thread: u32, standing: Standing) -> Option<Wait> {
    match standing {
        Standing::Waits { site, .. } if is_one(course.accepts, site) => None,
        _ => course.takes.lasts.get(&thread).copied(),
    }
}
