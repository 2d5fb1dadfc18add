// Waiting threads, and which of them is chosen next.

ghost use Rattle.std.specs.Prelude.{◌≡◌, ◌==◌, ◌+◌, ◌^◌, ◌<◌, ◌≤◌, true};
ghost use Rattle.blocking_graph.specs.Graph.{IsSegment};
ghost use Rattle.scheduler.specs.State.{started};
ghost use Rattle.resource_monitor.specs.Pressure.{AnswersCurve, IsReading, curve_value};
ghost use Rattle.resource_monitor.specs.declared.curves.Curve.TheVariants.{Linear};

use crate::monitors::{gate_follows, monitor_of};
use blocking_graph::{Graph, SegmentRecord};
use cap_word::{Ready, ThreadId};
use resource_monitor::{Curve, Measure, Monitor};
use scheduler::{Choice, Scheduler};
use std::alloc::{AllocError, Global};

/// A world in which one thread is at `accept`, and every thread is ready.
#[derive(Clone, Copy)]
struct OneArrival {
    arrival: u32,
    elsewhere: bool,
}

impl Ready for OneArrival {
    ghost is_ready = { λ world thread. true };

    ghost at_accept = { λ world thread. thread.number == world.arrival };

    ghost any_elsewhere = { λ world. world.elsewhere };

    fn is_ready(&self, _thread: ThreadId) -> bool {
        true
    }

    fn at_accept(&self, thread: ThreadId) -> bool {
        thread.number == self.arrival
    }

    fn any_elsewhere(&self) -> bool {
        self.elsewhere
    }
}

fn thread(number: u32) -> ThreadId {
    ThreadId { slot: 0, number }
}

/// Returns a monitor whose only resource is fully used: its pressure is 1000, and the gate is closed.
pub(crate) fn full_monitor<C: Measure + Copy>(
    alloc: Global,
    call: C,
) -> Result<Monitor<C>, AllocError>
    requires { AnswersCurve (C.can_measure call) (C.measure_gives call) Linear }
{
    match monitor_of(alloc, Curve::Linear, call, 1, 0) {
        Ok(mut monitor) => {
            monitor.observe([0, 1, 0, 0, 0, 0, 0, 0]);
            Ok(monitor)
        }
        Err(error) => Err(error),
    }
}

fn releasing() -> SegmentRecord
    ensures { IsSegment result }
{
    SegmentRecord {
        from: 4,
        to: 2,
        cost: 1,
        change: [0, -1, 0, 0, 0, 0, 0, 0],
    }
}

// Returns a graph in which a segment from node 4 is expected to free the resource, unless memory runs out.
fn releasing_graph(alloc: Global) -> Graph {
    let mut graph = Graph::new(alloc);
    let _noted = graph.note(releasing());
    graph
}

/// A step of a row: a thread that joins, or a choice with its expected thread and node.
#[derive(Clone, Copy)]
enum Step {
    /// The thread of this number joins the queue of this node.
    Join(u32, u32),
    /// This thread at this node is taken, while another is ready that isn't at `accept`.
    Take(u32, u32),
    /// This thread at this node would be taken; the flag says whether another is ready that isn't at `accept`.
    Choose(bool, u32, u32),
    /// None would be taken, while another is ready that isn't at `accept`.
    None,
}

// Adds the thread of this number to the queue of a node. Returns `false` if memory runs out.
fn join(scheduler: &mut Scheduler, number: u32, node: u32) -> bool
    ensures { scheduler.new.noted ≡ scheduler.old.noted }
{
    matches!(scheduler.enqueue(node, thread(number)), Ok(()))
}

// Returns the choice; the flag says whether another thread is ready that isn't at `accept`.
fn chosen<C: Measure>(
    scheduler: &Scheduler,
    graph: &Graph,
    monitor: &Monitor<C>,
    elsewhere: bool,
) -> Option<Choice> {
    let world = OneArrival {
        arrival: 9,
        elsewhere,
    };
    scheduler.choose(graph, monitor, &world)
}

// Makes the choice and takes the thread.
fn taken<C: Measure>(
    scheduler: &mut Scheduler,
    graph: &Graph,
    monitor: &Monitor<C>,
) -> Option<Choice>
    requires { scheduler.old.noted < 2 ^ 40 }
    ensures { scheduler.new.noted ≤ scheduler.old.noted + 1 }
{
    let world = OneArrival {
        arrival: 9,
        elsewhere: true,
    };
    let choice = scheduler.choose(graph, monitor, &world);
    if let Some(taken) = &choice {
        scheduler.note_choice(taken);
    }
    choice
}

// Checks whether the choice is of this thread at this node.
fn is_of(choice: Option<Choice>, number: u32, node: u32) -> bool {
    match choice {
        Some(choice) => choice.thread == thread(number) && choice.node == node,
        None => false,
    }
}

fn goes_so<C: Measure>(
    scheduler: &mut Scheduler,
    graph: &Graph,
    monitor: &Monitor<C>,
    step: Step,
) -> bool
    requires { scheduler.old.noted < 2 ^ 40 }
    ensures { scheduler.new.noted ≤ scheduler.old.noted + 1 }
{
    match step {
        Step::Join(number, node) => join(scheduler, number, node),
        Step::Take(number, node) => is_of(taken(scheduler, graph, monitor), number, node),
        Step::Choose(elsewhere, number, node) => {
            is_of(chosen(scheduler, graph, monitor, elsewhere), number, node)
        }
        Step::None => matches!(chosen(scheduler, graph, monitor, true), None),
    }
}

// Checks whether each of at most 20 steps has its expected result.
fn go_so<C: Measure>(
    scheduler: &mut Scheduler,
    graph: &Graph,
    monitor: &Monitor<C>,
    steps: &[Step],
) -> bool
    requires { scheduler.old ≡ started }
{
    if steps.len() > 20 {
        return false;
    }
    for at in 0..steps.len() {
        if !goes_so(scheduler, graph, monitor, steps[at]) {
            return false;
        }
    }
    true
}

// Checks whether the steps have their expected results, with a new scheduler.
fn hold<C: Measure>(alloc: Global, graph: &Graph, monitor: &Monitor<C>, steps: &[Step]) -> bool {
    let mut scheduler = Scheduler::new(alloc);
    let right = go_so(&mut scheduler, graph, monitor, steps);
    drop(scheduler);
    right
}

// The nodes are chosen by number: node 2 has the lesser one, and is then the one that was taken earlier.
const BY_NUMBER: &[Step] = &[
    Step::Join(1, 4),
    Step::Join(0, 2),
    Step::Take(0, 2),
    Step::Take(1, 4),
    Step::None,
];

// Node 2 was taken earlier. Its arrival waits while another thread is ready, and is first if none is.
const ARRIVAL: &[Step] = &[
    Step::Join(1, 2),
    Step::Join(2, 4),
    Step::Take(1, 2),
    Step::Take(2, 4),
    Step::Join(9, 2),
    Step::Join(3, 4),
    Step::Choose(true, 3, 4),
    Step::Choose(false, 9, 2),
];

// A segment from node 4 that is expected to free the resource comes before it.
const RELEASING_BEFORE_ARRIVAL: &[Step] = &[
    Step::Join(9, 2),
    Step::Join(3, 4),
    Step::Choose(false, 3, 4),
];

// Three nodes of one score are taken in turns, each queue from its front. Two threads are at each, and joined in turns.
const IN_ROUNDS: &[Step] = &[
    Step::Join(1, 4),
    Step::Join(3, 2),
    Step::Join(5, 3),
    Step::Join(2, 4),
    Step::Join(6, 3),
    Step::Join(4, 2),
    Step::Take(3, 2),
    Step::Take(5, 3),
    Step::Take(1, 4),
    Step::Take(4, 2),
    Step::Take(6, 3),
    Step::Take(2, 4),
    Step::None,
];

// A node that frees the resource is served before the others until its queue is empty.
const RELEASING_FIRST: &[Step] = &[
    Step::Join(1, 4),
    Step::Join(3, 2),
    Step::Join(5, 3),
    Step::Join(2, 4),
    Step::Join(6, 3),
    Step::Join(4, 2),
    Step::Take(1, 4),
    Step::Take(2, 4),
    Step::Take(3, 2),
    Step::Take(5, 3),
    Step::Take(4, 2),
    Step::Take(6, 3),
];

// An arrival that is held back lets the next thread pass, and keeps its place.
const PASSED: &[Step] = &[
    Step::Join(9, 2),
    Step::Join(3, 2),
    Step::Take(3, 2),
    Step::None,
    Step::Choose(false, 9, 2),
];

// Checks the rows over a graph without edges.
fn hold_of_none<C: Measure>(alloc: Global, monitor: &Monitor<C>) -> bool {
    let graph = Graph::new(alloc);
    let right = hold(alloc, &graph, monitor, BY_NUMBER)
        && hold(alloc, &graph, monitor, ARRIVAL)
        && hold(alloc, &graph, monitor, IN_ROUNDS)
        && hold(alloc, &graph, monitor, PASSED);
    drop(graph);
    right
}

// Checks the rows over the graph with the edge that frees the resource.
fn hold_of_one<C: Measure>(alloc: Global, monitor: &Monitor<C>) -> bool {
    let graph = releasing_graph(alloc);
    let right = hold(alloc, &graph, monitor, RELEASING_BEFORE_ARRIVAL)
        && hold(alloc, &graph, monitor, RELEASING_FIRST);
    drop(graph);
    right
}

fn go_by_rows<C: Measure + Copy>(alloc: Global, call: C) -> bool
    requires { AnswersCurve (C.can_measure call) (C.measure_gives call) Linear }
{
    match full_monitor(alloc, call) {
        Ok(monitor) => {
            let right = hold_of_none(alloc, &monitor) && hold_of_one(alloc, &monitor);
            drop(monitor);
            right
        }
        Err(_) => false,
    }
}

#[test]
fn choices(rt: HostRuntime) {
    let linear = |used: u32, cap: u32| -> u32
        requires { IsReading used cap }
        ensures { result ≡ curve_value Linear used cap }
    { 1000 * used / cap };
    assert!(rt; go_by_rows(rt.alloc(), linear) && gate_follows(rt.alloc(), linear));
}
