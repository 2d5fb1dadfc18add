// Circles of threads that wait for one another's resources at the stop of a run (`wait_circles` defines a circle).

use crate::again::Told;
use crate::again::holders::Holders;
use crate::report::values::blocked_at;
use cap_word::{ModelledCall, ThreadId};
use report_text::Text;
use std::alloc::{AllocError, Global};
use thread_core::World;
use wait_circles::{Step, circles_of};

/// Appends a line for each circle of the threads of a world at its stop, given what each thread holds. `cut` is the
/// thread whose segment was cut off, which waits for nothing.
pub fn put_circles(alloc: Global, text: &mut Text, world: &World, told: &Told, cut: Option<u32>) {
    let mut steps = Vec::new(alloc);
    match add_steps(&mut steps, world, told, cut) {
        Ok(()) => put_all(alloc, text, steps.as_slice()),
        Err(AllocError) => text.lack(),
    }
}

/// Adds the steps of all threads that wait for units of a resource and hold some of any.
fn add_steps(
    steps: &mut Vec<Step>,
    world: &World,
    told: &Told,
    cut: Option<u32>,
) -> Result<(), AllocError> {
    for (thread, id) in &told.threads {
        if cut != Some(*thread) {
            if let Some(wanted) = wanted_by(world, *id) {
                add_held(steps, told.holders.as_slice(), *thread, wanted)?;
            }
        }
    }
    Ok(())
}

/// Returns the resource of which a thread that is blocked at `take` waits for more units than are unused.
fn wanted_by(world: &World, thread: ThreadId) -> Option<u32> {
    let called = blocked_at(world, thread)?;
    let resource = called.first?;
    if called.call == ModelledCall::Take.number() && is_short(world, resource, called.second?) {
        Some(resource)
    } else {
        None
    }
}

/// Checks whether fewer units of a resource are unused.
fn is_short(world: &World, resource: u32, amount: u32) -> bool {
    if resource >= 8 {
        return false;
    }
    amount > world.cap(resource).saturating_sub(world.used(resource))
}

/// Adds a step from each resource of which a thread holds units to the one for which it waits, unless there is such a
/// step. If some thread gave back more of a resource than it took, its holders are unknown, so it is in no circle.
fn add_held(
    steps: &mut Vec<Step>,
    holders: &[Holders],
    thread: u32,
    wanted: u32,
) -> Result<(), AllocError> {
    let mut held: u32 = 1;
    for holder in holders {
        let units = holder.held.get(&thread).copied().unwrap_or(0);
        if units > 0
            && is_owned(holder)
            && thread_between(steps.as_slice(), held, wanted).is_none()
        {
            steps.push(Step {
                thread,
                held,
                wanted,
            })?;
        }
        held = held.saturating_add(1);
    }
    Ok(())
}

/// Checks whether no thread gave back more of a resource than it took.
fn is_owned(holders: &Holders) -> bool {
    for (_, units) in &holders.held {
        if *units < 0 {
            return false;
        }
    }
    true
}

/// Returns the thread of the first step from the one resource to the other.
fn thread_between(steps: &[Step], held: u32, wanted: u32) -> Option<u32> {
    for step in steps {
        if step.held == held && step.wanted == wanted {
            return Some(step.thread);
        }
    }
    None
}

/// Appends the lines of all circles of these steps.
fn put_all(alloc: Global, text: &mut Text, steps: &[Step]) {
    match circles_of(alloc, steps) {
        Ok(circles) => {
            for circle in circles.as_slice() {
                put_circle(text, steps, circle.resources());
            }
        }
        Err(AllocError) => text.lack(),
    }
}

/// Appends the line of a circle of these resources: each thread waits for the resource after its arrow, which the next
/// thread holds.
fn put_circle(text: &mut Text, steps: &[Step], resources: &[u32]) {
    text.words("circle: ");
    let mut held = None;
    for resource in resources {
        if let Some(before) = held {
            put_step(text, steps, before, *resource);
        }
        held = Some(*resource);
    }
    if let (Some(last), Some(first)) = (held, resources.first()) {
        let second = resources.get(1).unwrap_or(first);
        put_step(text, steps, last, *first);
        put_thread(text, steps, *first, *second);
    }
    text.words("\n")
}

/// Appends the thread that holds the one resource and waits for the other, and the other.
fn put_step(text: &mut Text, steps: &[Step], held: u32, wanted: u32) {
    put_thread(text, steps, held, wanted);
    text.form(" → resource $ → ", &[u64::from(wanted)])
}

/// Appends the thread that holds the one resource and waits for the other.
fn put_thread(text: &mut Text, steps: &[Step], held: u32, wanted: u32) {
    let thread = thread_between(steps, held, wanted).unwrap_or(0);
    text.form("thread $", &[u64::from(thread)])
}
