// Where a run has stopped: the threads that never ran, the resources in use, and the segment that was cut off.
//
// All this is read from the world at the stop: pc, registers and the words of the stacks, with the certificate.
// docs/MACHINE.md describes the layout of frames.

use crate::again::holders::Holders;
use crate::report::code::{function_at, operation_at, site_of};
use crate::report::stacks::{below, return_of};
use crate::report::values::{Called, called_at, put_values, thread_of};
use cap_word::{Stop, TrapKind};
use flat_code::Op;
use report_text::Text;
use schedule_log::{Entry, StopLine, read_entry};
use source_places::{Access, Array, Places};
use stack_certificate::FunctionFact;
use stack_image::CODE_START;
use std::alloc::Global;
use thread_core::{Standing, World};

/// The maximum number of threads that are listed.
const LISTED: u64 = 20;

/// The maximum number of callers that are shown.
const MOST_CALLS: u32 = 8;

/// The return address of a thread's last frame.
const END_STUB: u32 = CODE_START;

/// Appends what the world at a stop shows in addition to the log: the number of threads that never ran, given that
/// `left` threads are left that did; the resources in use, with the holders of the resources 1 to 7 if they are known;
/// and the place of the segment that the last line of the log cuts off, if it does.
pub fn put_stop(
    alloc: Global,
    text: &mut Text,
    places: &Places,
    world: &World,
    left: u64,
    last: &Entry,
    holders: &[Holders],
) {
    let never = u64::from(world.live()).saturating_sub(left);
    if never > 0 {
        text.words("left: ");
        text.counted(never, "thread", "threads");
        text.words(" that never ran\n");
    }
    put_uses(text, world, holders);
    match last {
        Entry::Stop(StopLine::Cut { thread, stop, .. }) => {
            text.form("stopped: thread $", &[u64::from(*thread)]);
            match standing_of(world, *thread) {
                Some(standing) => put_standing(alloc, text, places, world, *stop, standing),
                None => text.words("\n"),
            }
        }
        _ => (),
    }
}

/// Returns the thread whose segment the last line of a log cuts off, if it does.
pub fn cut_in(line: &[u8]) -> Option<u32> {
    match read_entry(line) {
        Ok(Entry::Stop(StopLine::Cut { thread, .. })) => Some(thread),
        _ => None,
    }
}

/// Checks whether any of the resources 1 to 7 is in use.
pub fn is_in_use(world: &World) -> bool {
    for resource in 1..8u32 {
        if world.used(resource) > 0 {
            return true;
        }
    }
    false
}

/// Appends a line for each resource that has a cap and is in use, with its holders if they are known.
fn put_uses(text: &mut Text, world: &World, holders: &[Holders]) {
    for resource in 1..8u32 {
        let used = world.used(resource);
        if used > 0 {
            let cap = world.cap(resource);
            text.form(
                "resource $: $ of $ in use",
                &[u64::from(resource), u64::from(used), u64::from(cap)],
            );
            if let Some(held) = holders.get(resource as usize - 1) {
                put_holders(text, held);
            }
            text.words("\n");
        }
    }
}

/// Appends the holders of units of a resource, the first 20 threads. What a thread gave back beyond what it took was
/// another's.
fn put_holders(text: &mut Text, holders: &Holders) {
    let mut shown: u64 = 0;
    for (thread, units) in &holders.held {
        if *units != 0 {
            if shown < LISTED {
                text.words(if shown == 0 { ": " } else { ", " });
                text.words(if *units < 0 { "-" } else { "" });
                text.form("$ by thread $", &[units.unsigned_abs(), u64::from(*thread)]);
            }
            shown = shown.saturating_add(1);
        }
    }
    if shown > LISTED {
        text.words(", the others by ");
        text.counted(shown - LISTED, "more thread", "more threads")
    }
}

/// Appends in which function, why and at which place a thread in this state was cut off, and its callers.
fn put_standing(
    alloc: Global,
    text: &mut Text,
    places: &Places,
    world: &World,
    stop: Stop,
    standing: Standing,
) {
    let Some((function, fact)) = function_at(world.accepted(), standing.pc) else {
        text.words(" behind its last return");
        put_reason(text, world, stop, standing);
        text.words("\n");
        return;
    };
    let op = operation_at(world.accepted(), function, fact, standing.pc);
    text.words(" in ");
    places.put_function(text, function);
    put_reason(text, world, stop, standing);
    let bound = match stop {
        Stop::Trap(TrapKind::Index) => Some(standing.t1),
        _ => None,
    };
    put_where(alloc, text, places, function, bound, op);
    if let Some(called) = called_at(world, standing.sp, standing.pc) {
        put_values(alloc, text, places, called);
    }
    text.words("\n");
    if is_in_its_frame(stop, op) {
        put_calls(text, places, world, standing.sp, fact);
    }
}

/// Returns pc and registers of a thread, by number, or `None` if it isn't live.
fn standing_of(world: &World, number: u32) -> Option<Standing> {
    world.standing(thread_of(world, number)?)
}

/// Appends why the run stopped.
fn put_reason(text: &mut Text, world: &World, stop: Stop, standing: Standing) {
    match stop {
        Stop::Trap(TrapKind::Index) => put_index(text, standing, " words"),
        Stop::Trap(TrapKind::Table) => put_index(text, standing, " members"),
        Stop::Trap(TrapKind::Resource) => put_resource(text, world, standing),
        Stop::Trap(TrapKind::Channel) => text.words(": a channel outside 0 to 63"),
        Stop::NoChunk => text.words(": no free chunk is large enough"),
        Stop::Fuel => text.words(": the instructions that `--fuel` allows are spent"),
        Stop::Threads => text.words(": 65,535 threads live"),
    }
}

/// Appends why a call on a resource is a trap.
fn put_resource(text: &mut Text, world: &World, standing: Standing) {
    match called_at(world, standing.sp, standing.pc) {
        Some(
            Called {
                first: Some(resource),
                ..
            },
        ) => put_unusable(text, world, resource),
        _ => text.words(": a resource that isn't there, or an amount out of range"),
    }
}

/// Appends what is wrong with a resource: it has no units since `--caps` gives it none, or the amount is out of range.
fn put_unusable(text: &mut Text, world: &World, resource: u32) {
    if resource >= 8 {
        text.words(": a resource above 7")
    } else if resource == 0 {
        text.words(": resource 0, which are the chunks")
    } else if world.cap(resource) == 0 {
        let number = u64::from(resource);
        text.form(
            ": resource $ isn't there; `--caps $=N` gives it N units",
            &[number, number],
        )
    } else {
        text.form(
            ": an amount out of range, as $ of $ units of resource $ are in use",
            &[
                u64::from(world.used(resource)),
                u64::from(world.cap(resource)),
                u64::from(resource),
            ],
        )
    }
}

/// Appends an index and its bound, in words or members.
fn put_index(text: &mut Text, standing: Standing, unit: &str) {
    let index = standing.t0.cast_signed();
    text.words(if index < 0 { ": index -" } else { ": index " });
    text.form(
        "$ of $",
        &[u64::from(index.unsigned_abs()), u64::from(standing.t1)],
    );
    text.words(unit)
}

/// Appends the place of an operation: that of its call, or those at which the function has such an element; a local
/// array is known by its number of words.
fn put_where(
    alloc: Global,
    text: &mut Text,
    places: &Places,
    function: u32,
    bound: Option<u32>,
    op: Option<&Op>,
) {
    let Some(op) = op else {
        return;
    };
    if let Some(access) = access_of(op, bound) {
        places.put_elements(alloc, text, function, access);
    } else if let Some(site) = site_of(op) {
        text.words(", at ");
        places.put_site_text(text, site);
    }
}

/// Returns the element that an operation reads or assigns to; of a local array only if the number of its words is
/// known.
fn access_of(op: &Op, bound: Option<u32>) -> Option<Access> {
    match op {
        Op::LoadArray { a, .. } => Some(Access {
            array: Array::Global(*a),
            assigns: false,
        }),
        Op::StoreArray { a, .. } => Some(Access {
            array: Array::Global(*a),
            assigns: true,
        }),
        Op::LoadLocal { .. } => Some(Access {
            array: Array::Local(bound?),
            assigns: false,
        }),
        Op::StoreLocal { .. } => Some(Access {
            array: Array::Local(bound?),
            assigns: true,
        }),
        _ => None,
    }
}

/// Checks whether sp is certainly the lowest address of the function's frame: it is at every trap, and if no chunk or
/// thread is available. If the fuel is spent, it may be in a prologue, in a return, or between two chunks.
fn is_in_its_frame(stop: Stop, op: Option<&Op>) -> bool {
    match stop {
        Stop::Fuel => match op {
            None => false,
            Some(Op::Return { .. }) => false,
            Some(Op::Call { .. }) => false,
            Some(Op::CallTable { .. }) => false,
            Some(_) => true,
        },
        _ => true,
    }
}

/// Appends a line for each caller of a frame, from its lowest address and its function, the innermost first.
fn put_calls(text: &mut Text, places: &Places, world: &World, sp: u32, innermost: &FunctionFact) {
    let mut low = sp;
    let mut fact = innermost;
    for _ in 0..MOST_CALLS {
        let Some(call) = call_above(world, low, fact) else {
            return;
        };
        if let Some(site) = call.site {
            text.words("  called at ");
            places.put_site(text, site);
            text.words("\n");
        }
        let Some(next) = below(world, low, fact) else {
            return;
        };
        low = next;
        fact = call.caller;
    }
    if return_of(world, low, fact).unwrap_or(0) > END_STUB {
        text.words("  and by more calls above\n")
    }
}

/// A call to which a frame returns: its site, and its function.
#[derive(Clone, Copy)]
struct CallAbove<'a> {
    site: Option<u32>,
    caller: &'a FunctionFact,
}

/// Returns the call to which a frame returns, or `None` if that isn't known, or for the first frame of a thread.
fn call_above<'a>(world: &'a World, low: u32, fact: &FunctionFact) -> Option<CallAbove<'a>> {
    let returns = return_of(world, low, fact)?;
    if returns <= END_STUB {
        return None;
    }
    let call = returns - 4;
    let (function, caller) = function_at(world.accepted(), call)?;
    let op = operation_at(world.accepted(), function, caller, call)?;
    Some(CallAbove {
        site: site_of(op),
        caller,
    })
}
