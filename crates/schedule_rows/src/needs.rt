// Threads with needs, and which of them a choice by needs takes.

ghost use Rattle.std.specs.Prelude.{◌≡◌, ◌+◌, ◌<◌, ◌≤◌, ◌^◌};
ghost use Rattle.ready_tree.specs.Needs.{is_met, is_arrival};
ghost use Rattle.resource_monitor.specs.Pressure.{AnswersCurve, IsReading, curve_value};
ghost use Rattle.resource_monitor.specs.declared.curves.Curve.TheVariants.{Linear};
ghost use Rattle.schedule_rows.specs.Needs.{need_by, IsByNumber, KnowsNeeds};
ghost use Rattle.scheduler.specs.State.{started};

use crate::choices::full_monitor;
use blocking_graph::Graph;
use cap_word::{Ready, ThreadId};
use ready_tree::{Bounded, Bounds, Need};
use resource_monitor::{Measure, Monitor};
use scheduler::Scheduler;
use std::alloc::Global;

/// A world in which the number of a thread determines its need.
#[derive(Clone, Copy)]
struct ByNumber {
    bounds: Bounds,
    elsewhere: bool,
}

impl Ready for ByNumber {
    ghost is_ready = { λ world thread. is_met world.bounds (need_by thread.number) };

    ghost at_accept = { λ world thread. is_arrival (need_by thread.number) };

    ghost any_elsewhere = { λ world. world.elsewhere };

    fn is_ready(&self, thread: ThreadId) -> bool {
        self.bounds.meet(need_by(thread.number))
    }

    fn at_accept(&self, thread: ThreadId) -> bool {
        match need_by(thread.number) {
            Need::Arrival => true,
            Need::Nothing | Need::Event { .. } | Need::Amount { .. } => false,
        }
    }

    fn any_elsewhere(&self) -> bool {
        self.elsewhere
    }
}

impl Bounded for ByNumber {
    ghost vouches = { λ world thread need. IsByNumber thread need };

    fn bounds(&self) -> Bounds {
        self.bounds
    }
}

fn need_by(number: u32) -> Need
    ensures { result ≡ need_by number }
{
    match number {
        1 => Need::Nothing,
        2 => Need::Arrival,
        3 => Need::Event {
            channels: 4,
            from: Need::NEVER,
        },
        4 => Need::Event {
            channels: 0,
            from: 100,
        },
        5 => Need::Event {
            channels: 4,
            from: 50,
        },
        6 => Need::Amount {
            resource: 1,
            amount: 3,
        },
        _ => Need::Event {
            channels: 0,
            from: u64::from(number),
        },
    }
}

// Adds the thread with its need to the queue of node 2. Returns `false` if memory runs out.
fn join(scheduler: &mut Scheduler, number: u32) -> bool
    requires { KnowsNeeds scheduler.old }
    ensures known { KnowsNeeds scheduler.new }
    ensures noted { scheduler.new.noted ≡ scheduler.old.noted }
{
    let thread = ThreadId { slot: 0, number };
    matches!(scheduler.enqueue_for(2, thread, need_by(number)), Ok(()))
}

// Adds `count` threads with decreasing numbers. Returns `false` if memory runs out.
fn join_down(scheduler: &mut Scheduler, first: u32, count: u32) -> bool
    requires started { scheduler.old ≡ started }
    requires fit { count ≤ first }
    ensures known { KnowsNeeds scheduler.new }
    ensures noted { scheduler.new.noted ≡ 0 }
{
    let mut joined = true;
    for before in 0..count {
        joined = join(scheduler, first - before) && joined;
    }
    joined
}

// Returns the number of the thread that is taken, or 0 if none is.
fn taken<C: Measure>(
    scheduler: &mut Scheduler,
    graph: &Graph,
    monitor: &Monitor<C>,
    world: &ByNumber,
) -> u32
    requires known { KnowsNeeds scheduler.old }
    requires room { scheduler.old.noted < 2 ^ 40 }
    ensures known { KnowsNeeds scheduler.new }
    ensures noted { scheduler.new.noted ≤ scheduler.old.noted + 1 }
{
    match scheduler.take_choice(graph, monitor, world) {
        Some(choice) => choice.thread.number,
        None => 0,
    }
}

/// Whether an arrival waits, the channels that have a message, the clock, the unused amount of resource 1, whether a
/// thread is ready that isn't at `accept`, and which thread is taken while the gate is closed, or 0 for none.
type Turn = (bool, u64, u64, u32, bool, u32);

fn world_of(turn: &Turn) -> ByNumber {
    let bounds = Bounds {
        arrival: turn.0,
        channels: turn.1,
        clock: turn.2,
        unused: [0, turn.3, 0, 0, 0, 0, 0, 0],
    };
    ByNumber {
        bounds,
        elsewhere: turn.4,
    }
}

// For threads 6 to 1, which join in this order.
const TURNS: &[Turn] = &[
    (true, 4, 10, 0, true, 5),
    (true, 4, 10, 0, true, 3),
    (true, 4, 10, 0, true, 1),
    (true, 4, 99, 2, true, 0),
    (true, 4, 100, 2, true, 4),
    (true, 4, 0, 3, true, 6),
    (false, 4, 100, 3, false, 0),
    (true, 0, 0, 0, false, 2),
    (true, 4, 100, 3, false, 0),
];

// For threads that wait until the clock is their number, 139 first and 100 last.
const TIMES: &[Turn] = &[
    (false, 0, 99, 0, true, 0),
    (false, 0, 104, 0, true, 104),
    (false, 0, 139, 0, true, 139),
    (false, 0, 115, 0, true, 115),
    (false, 0, 115, 0, true, 114),
    (false, 0, 138, 0, true, 138),
    (false, 0, 100, 0, true, 100),
];

// Checks whether each of at most ten turns takes its expected thread.
fn takes_in_turn<C: Measure>(
    scheduler: &mut Scheduler,
    graph: &Graph,
    monitor: &Monitor<C>,
    turns: &[Turn],
) -> bool
    requires known { KnowsNeeds scheduler.old }
    requires noted { scheduler.old.noted ≡ 0 }
{
    if turns.len() > 10 {
        return false;
    }
    for turn in 0..turns.len() {
        let row = &turns[turn];
        if taken(scheduler, graph, monitor, &world_of(row)) != row.5 {
            return false;
        }
    }
    true
}

// Checks whether a queue of `count` threads has the expected turns.
fn goes_in_turn<C: Measure>(
    alloc: Global,
    monitor: &Monitor<C>,
    first: u32,
    count: u32,
    turns: &[Turn],
) -> bool
    requires { count ≤ first }
{
    let graph = Graph::new(alloc);
    let mut scheduler = Scheduler::new(alloc);
    let joined = join_down(&mut scheduler, first, count);
    let right = takes_in_turn(&mut scheduler, &graph, monitor, turns);
    drop(scheduler);
    drop(graph);
    joined && right
}

// Checks a queue of six threads that wait for different things, and one of forty, over several blocks of places.
fn go_by_needs<C: Measure + Copy>(alloc: Global, call: C) -> bool
    requires { AnswersCurve (C.can_measure call) (C.measure_gives call) Linear }
{
    match full_monitor(alloc, call) {
        Ok(monitor) => {
            let right = goes_in_turn(alloc, &monitor, 6, 6, TURNS)
                && goes_in_turn(alloc, &monitor, 139, 40, TIMES);
            drop(monitor);
            right
        }
        Err(_) => false,
    }
}

#[test]
fn needs(rt: HostRuntime) {
    let linear = |used: u32, cap: u32| -> u32
        requires { IsReading used cap }
        ensures { result ≡ curve_value Linear used cap }
    { 1000 * used / cap };
    assert!(rt; go_by_needs(rt.alloc(), linear));
}
