ghost use Rattle.std.specs.Prelude.{◌≡◌, ◌<◌, ◌^◌, None, IfSome, OnOk, OnErr};
ghost use Rattle.scheduler.specs.LawfulChoice.{is_eligible};
ghost use Rattle.scheduler.specs.Scores.{score};
ghost use Rattle.rule_state.specs.Rules.{AreKnownTo, HasNone, HasStarted, HasTaken, HasRejoined, HasLeft, IsLawfulOf, IsUnderWay, MayStart, noted_of};

use crate::nodes::START;
use crate::strides::StridesAtNodes;
use blocking_graph::Graph;
use cap_word::ThreadId;
use ready_tree::{Bounded, Need};
use resource_monitor::{Measure, Monitor};
use scheduler::{Choice, Scheduler};
use std::alloc::AllocError;

/// The state of a rule: the threads among which it chooses.
#[derive(Drop)]
pub enum RuleState {
    /// By the blocking graph and the pressure on resources.
    Graph { scheduler: Scheduler },
    /// By strides.
    Stride { strides: StridesAtNodes },
}

impl RuleState {
    /// Adds a new thread: it waits at node 0, without a need.
    pub fn start(&mut self, thread: ThreadId) -> Result<(), AllocError>
        requires { MayStart self.old thread }
        ensures ok { OnOk result (HasStarted self.old self.new thread) }
        ensures err { OnErr result (self.new ≡ self.old) }
    {
        match self {
            RuleState::Graph { scheduler } => scheduler.enqueue(START, thread),
            RuleState::Stride { strides } => strides.start(thread),
        }
    }

    /// Chooses the thread that runs next, and returns it with the node at which it waits, or `None` if no waiting
    /// thread is eligible. A thread is eligible if it is ready and, if it is at `accept`, the gate is open or no thread
    /// that isn't at `accept` is ready. The choice is noted, and its segment begins. It doesn't allocate.
    pub fn take<C: Measure, W: Bounded>(
        &mut self,
        graph: &Graph,
        monitor: &Monitor<C>,
        world: &W,
    ) -> Option<Choice>
        requires known { AreKnownTo (W.vouches world.now) self.old }
        requires none_under_way { HasNone self.old }
        requires room { noted_of self.old < 2 ^ 40 }
        ensures lawful { IsLawfulOf self.old (is_eligible (W.is_ready world.now) (W.at_accept world.now) (W.any_elsewhere world.now) monitor.now.is_open) (score monitor.now graph.now.edges) result }
        ensures taken { IfSome result (λ choice. HasTaken self.old self.new (is_eligible (W.is_ready world.now) (W.at_accept world.now) (W.any_elsewhere world.now) monitor.now.is_open) choice) }
        ensures under_way { IfSome result (λ choice. IsUnderWay self.new choice.thread) }
        ensures none { result ≡ None → self.new ≡ self.old }
    {
        match self {
            RuleState::Graph { scheduler } => scheduler.take_choice(graph, monitor, world),
            RuleState::Stride { strides } => strides.take(monitor.gate(), world),
        }
    }

    /// Ends the segment in progress: its thread waits at a node, with its need.
    pub fn rejoin(&mut self, thread: ThreadId, node: u32, need: Need) -> Result<(), AllocError>
        requires { IsUnderWay self.old thread }
        ensures ok { OnOk result (HasRejoined self.old self.new thread node need) }
        ensures err { OnErr result (self.new ≡ self.old) }
    {
        match self {
            RuleState::Graph { scheduler } => scheduler.enqueue_for(node, thread, need),
            RuleState::Stride { strides } => {
                strides.rejoin(thread, node, need);
                Ok(())
            }
        }
    }

    /// Ends the segment in progress: its thread has ended. It doesn't allocate.
    pub fn leave(&mut self, thread: ThreadId)
        requires { IsUnderWay self.old thread }
        ensures { HasLeft self.old self.new thread }
    {
        match self {
            RuleState::Graph { scheduler: _ } => (),
            RuleState::Stride { strides } => strides.leave(thread),
        }
    }
}
