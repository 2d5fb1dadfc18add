// The modelled call at which a thread is, with the values of its arguments, read from its stack.

use crate::report::code::{function_at, operation_at};
use crate::report::stacks::word_at;
use cap_word::{ThreadId, Words};
use flat_code::Op;
use report_text::Text;
use source_places::Places;
use stack_certificate::FunctionFact;
use std::alloc::Global;
use thread_core::{MOST_THREADS, World};

/// A modelled call with the values of its arguments, at most two.
#[derive(Clone, Copy)]
pub(crate) struct Called {
    pub(crate) site: u32,
    /// The call's number.
    pub(crate) call: u32,
    pub(crate) first: Option<u32>,
    pub(crate) second: Option<u32>,
}

/// Returns the thread of that number, or `None` if it isn't live.
pub(crate) fn thread_of(world: &World, number: u32) -> Option<ThreadId> {
    for slot in 0..MOST_THREADS {
        let thread = ThreadId { slot, number };
        if world.standing(thread).is_some() {
            return Some(thread);
        }
    }
    None
}

/// Returns the call at which a thread is blocked, which is just before its next instruction, or `None` if that is no
/// modelled call.
pub(crate) fn blocked_at(world: &World, thread: ThreadId) -> Option<Called> {
    let standing = world.standing(thread)?;
    called_at(world, standing.sp, standing.pc.checked_sub(4)?)
}

/// Returns the modelled call whose words contain an address, given the lowest address of the frame.
pub(crate) fn called_at(world: &World, low: u32, address: u32) -> Option<Called> {
    let (function, fact) = function_at(world.accepted(), address)?;
    match operation_at(world.accepted(), function, fact, address)? {
        Op::Model { site, n, args, .. } => Some(Called {
            site: *site,
            call: *n,
            first: argument_of(world, low, fact, args, 0),
            second: argument_of(world, low, fact, args, 1),
        }),
        _ => None,
    }
}

/// Returns the value of the argument of that number, from 0, from its variable's place in the frame.
fn argument_of(
    world: &World,
    low: u32,
    fact: &FunctionFact,
    args: &Words,
    number: usize,
) -> Option<u32> {
    let variable = *args.as_slice().get(number)?;
    let place = *fact.places.as_slice().get(variable as usize)?;
    word_at(world, u64::from(low) + u64::from(place))
}

/// Appends the call at which the thread of that number is blocked, with its values, `: take(2, 1)`, if they differ from
/// its text.
pub(crate) fn put_blocked(
    alloc: Global,
    text: &mut Text,
    places: &Places,
    world: &World,
    thread: u32,
) {
    if let Some(id) = thread_of(world, thread) {
        if let Some(called) = blocked_at(world, id) {
            put_values(alloc, text, places, called);
        }
    }
}

/// Appends a call with its values, if they differ from its text.
pub(crate) fn put_values(alloc: Global, text: &mut Text, places: &Places, called: Called) {
    let mut written = Text::new(alloc);
    places.put_call(&mut written, called.site);
    let mut valued = Text::new(alloc);
    put_called(&mut valued, places, called);
    match (written.whole(), valued.whole()) {
        (Ok(call), Ok(values)) => {
            if call != values {
                text.words(": ");
                text.words(values)
            }
        }
        _ => text.lack(),
    }
}

/// Appends the name of a call and the values of its arguments.
fn put_called(text: &mut Text, places: &Places, called: Called) {
    places.put_call_name(text, called.site);
    text.words("(");
    if let Some(first) = called.first {
        put_word(text, first);
    }
    if let Some(second) = called.second {
        text.words(", ");
        put_word(text, second);
    }
    text.words(")")
}

/// Appends a word as a signed number.
fn put_word(text: &mut Text, word: u32) {
    let number = word.cast_signed();
    text.words(if number < 0 { "-" } else { "" });
    text.line(&number.unsigned_abs())
}
