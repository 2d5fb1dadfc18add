ghost use Rattle.std.specs.Prelude.{◌≡◌};
ghost use Rattle.scheduler.specs.State.{last_of, queue_of};
ghost use Rattle.report.specs.Reasons.{IsReason, is_of, reason_by};

use crate::again::reasons::Reason;
use crate::again::ungated::Ungated;
use blocking_graph::Graph;
use cap_word::Ready;
use resource_monitor::{Measure, Monitor};
use scheduler::{Choice, Scheduler};
use std::alloc::Global;

/// Returns the reason for the choice of that thread, which the scheduler makes but hasn't recorded yet. It doesn't
/// allocate.
pub fn reason_of<C: Measure, R: Ready>(
    alloc: Global,
    scheduler: &Scheduler,
    graph: &Graph,
    monitor: &Monitor<C>,
    world: &R,
    thread: u32,
) -> Reason
    ensures { IsReason (queue_of scheduler.now) (R.is_ready world.now) (R.at_accept world.now) (R.any_elsewhere world.now) monitor.now graph.now.edges (last_of scheduler.now) thread result }
{
    let ungated = scheduler.choose(graph, monitor, &Ungated { world });
    let none = Graph::new(alloc);
    let unscored = scheduler.choose(&none, monitor, world);
    reason_from(thread, ungated, unscored)
}

/// Returns the reason for the choice of a thread, given the choice without the gate and the one without scores.
fn reason_from(thread: u32, ungated: Option<Choice>, unscored: Option<Choice>) -> Reason
    ensures { result ≡ reason_by thread ungated unscored }
{
    if !is_choice_of(thread, ungated) {
        Reason::Gate
    } else if is_choice_of(thread, unscored) {
        Reason::Turn
    } else {
        Reason::Score
    }
}

/// Checks whether a choice is that of a thread.
fn is_choice_of(thread: u32, choice: Option<Choice>) -> bool
    ensures { result ≡ is_of thread choice }
{
    match choice {
        None => false,
        Some(chosen) => chosen.thread.number == thread,
    }
}
