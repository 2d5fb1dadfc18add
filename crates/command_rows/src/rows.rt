// Rows of worlds: which threads are ready when, deliveries and drops, what is taken, sleeping threads, starts and ends.

use crate::building::{FUEL, Setup, USUAL, world_of};
use crate::playing::Step::{
    Advance, AnyElsewhere, AnyReady, Arrive, AtAccept, Begin, Clock, Free, IsReady, Live,
    NoneWakes, Proceed, Send, Used, Wakes,
};
use crate::playing::Told::{Blocked, Ended, Ends, Out, Spawned, Waits};
use crate::playing::{Step, plays};
use crate::sources::{
    FOLLOWING, LISTENING, PEERS, RIVALS, SERVER, SLEEPERS, SLEEPING, SLEEPING_BACK, TAKING,
    WAITING, WAITING_BACK, WAITING_TWICE,
};
use std::alloc::Global;

// Queues that hold one item.
const NARROW: Setup = Setup {
    chunk: 4096,
    max_path: 2032,
    chunks: 1024,
    fuel: FUEL,
    backlog: 1,
    cap: 1,
};

// A cap of 3.
const THREE: Setup = Setup {
    chunk: 4096,
    max_path: 2032,
    chunks: 1024,
    fuel: FUEL,
    backlog: 1024,
    cap: 3,
};

// A program, its setup, and the steps with their answers.
const ROWS: [(&[u8], Setup, &[Step]); 14] = [
    (SERVER, USUAL, SECOND_FIRST),
    (SERVER, USUAL, TAKEN_ON_RESUMING),
    (SERVER, NARROW, FULL_QUEUES),
    (TAKING, THREE, UP_TO_THE_CAP),
    (SLEEPING, USUAL, JUST_IN_TIME),
    (SLEEPING_BACK, USUAL, NO_TIME),
    (SLEEPERS, USUAL, SOME_ASLEEP),
    (WAITING, USUAL, NOBODY_SPOKE),
    (WAITING_BACK, USUAL, NO_TIME_TO_SPEAK),
    (WAITING_TWICE, USUAL, MESSAGE_STAYS),
    (RIVALS, USUAL, TAKEN_BY_ANOTHER),
    (PEERS, USUAL, SOME_SPOKE),
    (FOLLOWING, USUAL, NEW_NUMBERS),
    (LISTENING, USUAL, LAST_CHANNEL),
];

// Any thread that is ready may begin: here the second worker before the first.
const SECOND_FIRST: &[Step] = &[
    Begin(0, Spawned(1)),
    IsReady(1, true),
    IsReady(0, false),
    Proceed(Spawned(2)),
    Proceed(Ended(31)),
    Free(1022),
    Live(2),
    IsReady(0, false),
    Begin(2, Blocked(0, 16)),
    Free(1022),
    Begin(1, Blocked(0, 16)),
    Free(1022),
    AtAccept(1, true),
    AtAccept(2, true),
    AnyReady(false),
    Clock(63),
];

// An arrival, a message and a use are taken when the thread resumes, and not before.
const TAKEN_ON_RESUMING: &[Step] = &[
    Begin(0, Spawned(1)),
    Proceed(Spawned(2)),
    Proceed(Ended(31)),
    Begin(2, Blocked(0, 16)),
    Begin(1, Blocked(0, 16)),
    Arrive(5, true),
    IsReady(1, true),
    IsReady(2, true),
    AnyReady(true),
    AnyElsewhere(false),
    Begin(2, Blocked(1, 11)),
    IsReady(1, false),
    AtAccept(2, false),
    AnyElsewhere(true),
    Used(0),
    Begin(2, Blocked(2, 5)),
    Used(1),
    IsReady(2, false),
    Send(4, 6, true),
    IsReady(2, false),
    Send(5, 7, true),
    Send(5, 8, true),
    IsReady(2, true),
    Begin(2, Out(207)),
    Used(1),
    Proceed(Blocked(0, 30)),
    Used(0),
    IsReady(2, false),
];

// A full queue takes no more items; another queue does.
const FULL_QUEUES: &[Step] = &[
    Arrive(0, true),
    Arrive(1, false),
    Begin(0, Spawned(1)),
    Proceed(Spawned(2)),
    Proceed(Ended(31)),
    Send(0, 7, true),
    Send(0, 8, false),
    Send(1, 9, true),
    Arrive(2, false),
    Begin(1, Blocked(0, 16)),
    Begin(1, Blocked(1, 11)),
    Arrive(3, true),
    Arrive(4, false),
];

// The use may reach the cap.
const UP_TO_THE_CAP: &[Step] = &[
    Begin(0, Waits(0)),
    Used(0),
    IsReady(0, true),
    Begin(0, Waits(1)),
    Used(2),
    IsReady(0, true),
    Begin(0, Waits(2)),
    Used(3),
    IsReady(0, false),
    AnyReady(false),
    NoneWakes,
];

// A sleeping thread is ready when the clock is its time.
const JUST_IN_TIME: &[Step] = &[
    Begin(0, Blocked(0, 8)),
    Free(1023),
    Clock(8),
    IsReady(0, false),
    Wakes(0, 50),
    Advance(0, 49),
    IsReady(0, false),
    AnyReady(false),
    Wakes(0, 50),
    Advance(0, 50),
    Clock(58),
    IsReady(0, true),
    AnyReady(true),
    NoneWakes,
    Begin(0, Out(1)),
    Proceed(Ended(15)),
    Free(1024),
    Live(0),
];

// A sleep for a negative number of ticks is over at once.
const NO_TIME: &[Step] = &[
    Begin(0, Waits(0)),
    IsReady(0, true),
    NoneWakes,
    Begin(0, Out(1)),
    Proceed(Ends),
    Live(0),
];

// The earliest sleeping thread that isn't ready counts.
const SOME_ASLEEP: &[Step] = &[
    Begin(0, Spawned(1)),
    Proceed(Spawned(2)),
    Proceed(Spawned(3)),
    Proceed(Ends),
    NoneWakes,
    Begin(1, Waits(0)),
    Begin(2, Waits(0)),
    Begin(3, Waits(0)),
    AnyReady(false),
    Wakes(1, 100),
    Advance(1, 100),
    IsReady(1, true),
    IsReady(3, false),
    Wakes(3, 200),
    Advance(3, 200),
    IsReady(1, true),
    IsReady(3, true),
    IsReady(2, false),
    Wakes(2, 300),
    Advance(2, 299),
    IsReady(2, false),
    Wakes(2, 300),
    Advance(2, 300),
    IsReady(2, true),
    NoneWakes,
    Begin(1, Out(100)),
    Proceed(Ends),
    NoneWakes,
    Live(2),
];

// A thread that waits for a message with a time is ready when the clock is its time, and gets no message.
const NOBODY_SPOKE: &[Step] = &[
    Begin(0, Blocked(0, 15)),
    Free(1023),
    Clock(15),
    IsReady(0, false),
    AtAccept(0, false),
    Wakes(0, 50),
    Send(1, 7, true),
    IsReady(0, false),
    Advance(0, 49),
    IsReady(0, false),
    AnyReady(false),
    Wakes(0, 50),
    Advance(0, 50),
    Clock(65),
    IsReady(0, true),
    AnyReady(true),
    AnyElsewhere(true),
    NoneWakes,
    Begin(0, Out(0)),
    Proceed(Ended(15)),
    Free(1024),
    Live(0),
];

// A negative number of ticks is over at once.
const NO_TIME_TO_SPEAK: &[Step] = &[
    Begin(0, Waits(0)),
    IsReady(0, true),
    NoneWakes,
    Begin(0, Out(0)),
    Proceed(Ends),
    Live(0),
];

// A thread that is woken by a message finds it: nothing was taken.
const MESSAGE_STAYS: &[Step] = &[
    Begin(0, Waits(0)),
    Send(0, 7, true),
    IsReady(0, true),
    AnyElsewhere(true),
    NoneWakes,
    Begin(0, Out(1)),
    Proceed(Waits(2)),
    IsReady(0, true),
    Begin(0, Out(7)),
    Proceed(Ends),
];

// If another thread takes the message first, the one that was ready by it no longer is, and sleeps until its time.
const TAKEN_BY_ANOTHER: &[Step] = &[
    Begin(0, Spawned(1)),
    Proceed(Spawned(2)),
    Proceed(Ends),
    Begin(1, Waits(0)),
    Begin(2, Waits(2)),
    AnyReady(false),
    Wakes(2, 50),
    Send(0, 7, true),
    IsReady(1, true),
    IsReady(2, true),
    NoneWakes,
    Begin(1, Out(7)),
    Proceed(Ends),
    IsReady(2, false),
    AnyReady(false),
    Wakes(2, 50),
    Advance(2, 49),
    IsReady(2, false),
    Advance(2, 50),
    IsReady(2, true),
    NoneWakes,
    Begin(2, Out(0)),
    Proceed(Ends),
    Live(0),
];

// A message wakes all threads that wait on its channel with a time, and the earliest of the others counts.
const SOME_SPOKE: &[Step] = &[
    Begin(0, Spawned(1)),
    Proceed(Spawned(2)),
    Proceed(Spawned(3)),
    Proceed(Ends),
    Begin(1, Waits(0)),
    Begin(2, Waits(0)),
    Begin(3, Waits(0)),
    Wakes(3, 100),
    Send(2, 7, true),
    IsReady(3, true),
    IsReady(2, false),
    Wakes(2, 200),
    Send(1, 8, true),
    IsReady(1, true),
    IsReady(2, true),
    NoneWakes,
    Begin(1, Out(1)),
    Proceed(Ends),
    IsReady(2, true),
    Begin(2, Out(1)),
    Proceed(Ends),
    Advance(3, 100),
    IsReady(3, true),
    NoneWakes,
    Begin(3, Out(1)),
    Proceed(Ends),
    Live(0),
];

// The number of a thread that has ended isn't used again.
const NEW_NUMBERS: &[Step] = &[
    Begin(0, Spawned(1)),
    Proceed(Waits(2)),
    Begin(1, Out(1)),
    Proceed(Ends),
    Live(1),
    Begin(0, Spawned(2)),
    IsReady(1, false),
    IsReady(2, true),
    Proceed(Ends),
    Begin(2, Out(2)),
    Proceed(Ends),
    Live(0),
    Free(1024),
];

// Channel 63 exists.
const LAST_CHANNEL: &[Step] = &[
    Begin(0, Waits(0)),
    IsReady(0, false),
    Send(62, 4, true),
    IsReady(0, false),
    Send(63, 5, true),
    Send(63, 6, true),
    IsReady(0, true),
    AnyElsewhere(true),
    Begin(0, Out(5)),
    Proceed(Ends),
];

// Checks whether the world of a program gives the expected answer at each step.
fn is_row(alloc: Global, source: &[u8], setup: Setup, steps: &[Step]) -> bool {
    match world_of(alloc, source, setup) {
        None => false,
        Some(mut world) => {
            let is_so = plays(&mut world, steps);
            drop(world);
            is_so
        }
    }
}

fn all_hold(alloc: Global, rows: &[(&[u8], Setup, &[Step])]) -> bool {
    for (source, setup, steps) in rows {
        if !is_row(alloc, source, *setup, steps) {
            return false;
        }
    }
    true
}

#[test]
fn worlds(rt: HostRuntime) {
    assert!(rt; all_hold(rt.alloc(), &ROWS));
}
