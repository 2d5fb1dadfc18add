ghost use Rattle.std.specs.Prelude.{◌≡◌, ◌<◌, ◌^◌, Contains, IfSome, None, OnOk, OnErr};
ghost use Rattle.scheduler.specs.LawfulChoice.{is_eligible, IsLawfulChoice};
ghost use Rattle.scheduler.specs.Scores.{score};

use crate::choices::Choice;
use crate::choosing::{as_choice, best_met, best_of};
use crate::finding::bounds_at_gate;
use crate::node_queues::NodeQueues;
use crate::queues::make_place;
use blocking_graph::Graph;
use cap_word::{Ready, ThreadId};
use ready_tree::{Bounded, Entry, Need};
use resource_monitor::{Measure, Monitor};
use std::alloc::{AllocError, Global};
use std::marker::Model;

/// The threads that wait at the nodes of the blocking graph. Contracts see the queue of each node, the number of the
/// last choice of each node, and the number of choices.
#[derive(Drop)]
pub struct Scheduler {
    queues: NodeQueues,
    lasts: Vec<u64>,
    noted: u64,
}

impl Model for Scheduler {
    ghost use Rattle.std.specs.Prelude.{length};
    ghost use Rattle.scheduler.specs.Queues.{queues_of};
    ghost use Rattle.scheduler.specs.State.{SchedulerState, IsKept};

    ghost Value = { SchedulerState };

    ghost view = { λ s. record { queues = queues_of s.queues.queues (length s.lasts.items); lasts = s.lasts.items; noted = s.noted } };

    ghost invariant = { λ s. IsKept s.queues.queues s.queues.above s.lasts.items s.noted };
}

impl Scheduler {
    ghost use Rattle.scheduler.specs.State.{started, queue_of, last_of, AreKnown, IsJoined, IsNoted, IsTaken, IsTold};

    /// Returns a scheduler without threads. It doesn't allocate.
    pub fn new(alloc: Global) -> Scheduler
        ensures { result ≡ started }
    {
        Scheduler {
            queues: NodeQueues::new(alloc),
            lasts: Vec::new(alloc),
            noted: 0,
        }
    }

    /// Appends a thread to a node's queue that needs nothing, or that only `choose` may choose.
    pub fn enqueue(&mut self, node: u32, thread: ThreadId) -> Result<(), AllocError>
        ensures ok { OnOk result (IsJoined self.old self.new node thread) }
        ensures told { OnOk result (IsTold self.old self.new node (record { thread = thread; need = Need.Nothing })) }
        ensures err { OnErr result (self.new ≡ self.old) }
    {
        self.enqueue_for(node, thread, Need::Nothing)
    }

    /// Appends a thread to a node's queue, with its need.
    pub fn enqueue_for(&mut self, node: u32, thread: ThreadId, need: Need) -> Result<(), AllocError>
        ensures ok { OnOk result (IsJoined self.old self.new node thread) }
        ensures told { OnOk result (IsTold self.old self.new node (record { thread = thread; need = need })) }
        ensures err { OnErr result (self.new ≡ self.old) }
    {
        let places = self.lasts.len();
        make_place(&mut self.lasts, node)?;
        let alloc = *self.lasts.allocator();
        match self.queues.join(alloc, node, Entry { thread, need }) {
            Ok(()) => Ok(()),
            Err(refusal) => {
                self.lasts.truncate(places);
                Err(refusal)
            }
        }
    }

    /// Returns the thread that runs next, with its node, or `None` if no queued thread is eligible. A thread is
    /// eligible if it is ready and, if it is at `accept`, the gate is open or no thread that isn't at `accept` is
    /// ready. Of the nodes with an eligible thread, the choice takes the one with the least score; of these the one
    /// whose last choice is the longest ago; and of these the one with the least number. The thread is the first
    /// eligible one in that node's queue. It doesn't allocate.
    pub fn choose<C: Measure, R: Ready>(
        &self,
        graph: &Graph,
        monitor: &Monitor<C>,
        ready: &R,
    ) -> Option<Choice>
        ensures queued { IfSome result (λ choice. Contains (queue_of self.now choice.node) choice.thread) }
        ensures lawful { IsLawfulChoice (queue_of self.now) (is_eligible (R.is_ready ready.now) (R.at_accept ready.now) (R.any_elsewhere ready.now) monitor.now.is_open) (score monitor.now graph.now.edges) (last_of self.now) result }
    {
        let best = best_of(
            &self.queues.queues,
            self.lasts.as_slice(),
            graph,
            monitor,
            ready,
        );
        as_choice(best)
    }

    /// Makes the same choice as `choose`, and notes it. It asks no thread: the needs determine which threads are
    /// eligible, and the world guarantees them. Nodes without an eligible thread are skipped; each of the others costs
    /// two searches, along the tree above the nodes and the tree above its queue, and a score. It doesn't allocate.
    pub fn take_choice<C: Measure, W: Bounded>(
        &mut self,
        graph: &Graph,
        monitor: &Monitor<C>,
        world: &W,
    ) -> Option<Choice>
        requires known { AreKnown (W.vouches world.now) self.old }
        requires room { self.old.noted < 2 ^ 40 }
        ensures queued { IfSome result (λ choice. Contains (queue_of self.old choice.node) choice.thread) }
        ensures lawful { IsLawfulChoice (queue_of self.old) (is_eligible (W.is_ready world.now) (W.at_accept world.now) (W.any_elsewhere world.now) monitor.now.is_open) (score monitor.now graph.now.edges) (last_of self.old) result }
        ensures noted { IfSome result (λ choice. IsNoted self.old self.new choice) }
        ensures taken { IfSome result (λ choice. IsTaken self.old self.new choice) }
        ensures none { result ≡ None → self.new ≡ self.old }
    {
        let bounds = bounds_at_gate(world, monitor.gate());
        let lasts = self.lasts.as_slice();
        let best = best_met(&self.queues, lasts, graph, monitor, &bounds);
        let Some(candidate) = best else {
            return None;
        };
        self.queues.leave_at(candidate.rank.node, candidate.place);
        self.noted += 1;
        self.lasts[candidate.rank.node as usize] = self.noted;
        Some(Choice {
            thread: candidate.thread,
            node: candidate.rank.node,
        })
    }

    /// Removes the chosen thread from its queue, and records the choice as the last of its node. It doesn't allocate.
    pub fn note_choice(&mut self, choice: &Choice)
        requires queued { Contains (queue_of self.old choice.now.node) choice.now.thread }
        requires room { self.old.noted < 2 ^ 40 }
        ensures { IsNoted self.old self.new choice.now }
    {
        self.queues.leave(choice);
        self.noted += 1;
        self.lasts[choice.node as usize] = self.noted;
    }
}
