ghost use Rattle.std.specs.Prelude.{◌≡◌, ◌+◌, ◌<◌, ◌≤◌};

use crate::again::deciding::reason_of;
use crate::again::reasons::Choices;
use blocking_graph::{Graph, SegmentRecord};
use cap_word::{Ready, ThreadId};
use resource_monitor::{Measure, Monitor};
use scheduler::{Choice, Scheduler};
use std::alloc::{AllocError, Global};
use std::marker::Model;

/// The maximum number of choices, and of segments, of a run that is repeated: below 2^40.
const MOST: u64 = 1_000_000_000_000;

/// The data of a run that is repeated, in addition to its world: the threads that wait at the nodes of the blocking
/// graph, the graph, the resources, and the reasons for the choices so far.
#[derive(Drop)]
pub struct Choosing<C: Measure> {
    alloc: Global,
    scheduler: Scheduler,
    graph: Graph,
    monitor: Monitor<C>,
    caps: [u32; 8],
    choices: Choices,
    noted: u64,
    recorded: u64,
}

impl<C: Measure> Model for Choosing<C> {
    ghost use Rattle.std.specs.Prelude.{◌≡◌, ◌≤◌};
    ghost use Rattle.blocking_graph.specs.Edges.{count_of};
    ghost use Rattle.report.specs.Courses.{Course};

    ghost Value = { Course };

    ghost view = { λ c. record { scheduler = c.scheduler; graph = c.graph; monitor = c.monitor; choices = c.choices } };

    ghost invariant = { λ c. (c.scheduler.noted ≡ c.noted) × (c.noted ≤ 1000000000000) × (c.monitor.caps ≡ c.caps) × (count_of c.graph.edges ≡ c.recorded) × (c.recorded ≤ 1000000000000) };
}

impl<C: Measure> Choosing<C> {
    ghost use Rattle.std.specs.Prelude.{◌≡◌, IfSome, OnOk, true};
    ghost use Rattle.blocking_graph.specs.Edges.{edges_with};
    ghost use Rattle.blocking_graph.specs.Graph.{IsSegment};
    ghost use Rattle.resource_monitor.specs.Monitor.{NoneAbove};
    ghost use Rattle.scheduler.specs.State.{IsJoined};
    ghost use Rattle.report.specs.Courses.{start_of, seen, Decides};

    /// Returns the state before the first choice of a run whose resources begin so, with these caps. It doesn't
    /// allocate.
    pub fn new(alloc: Global, monitor: Monitor<C>, caps: [u32; 8]) -> Choosing<C>
        requires { monitor.caps ≡ caps }
        ensures { result ≡ start_of monitor }
    {
        Choosing {
            alloc,
            scheduler: Scheduler::new(alloc),
            graph: Graph::new(alloc),
            monitor,
            caps,
            choices: Choices {
                by_gate: 0,
                by_score: 0,
                by_turn: 0,
            },
            noted: 0,
            recorded: 0,
        }
    }

    /// Returns the counts of reasons for the choices so far.
    pub fn choices(&self) -> Choices
        ensures { result ≡ self.now.choices }
    {
        self.choices
    }

    /// Returns the caps of the resources.
    pub fn caps(&self) -> [u32; 8]
        ensures { result ≡ self.now.monitor.caps }
    {
        self.caps
    }

    /// Checks whether the gate is open.
    pub fn is_open(&self) -> bool
        ensures { result ≡ self.now.monitor.is_open }
    {
        self.monitor.gate()
    }

    /// Updates the gate from these uses of the resources.
    pub fn observe(&mut self, uses: [u32; 8])
        requires { NoneAbove uses self.old.monitor.caps }
        ensures { self.new ≡ record self.old { monitor = seen self.old.monitor uses } }
    {
        self.monitor.observe(uses);
    }

    /// Puts a thread that begins to wait into the queue of a node.
    pub fn wait(&mut self, node: u32, thread: ThreadId) -> Result<(), AllocError>
        ensures ok { OnOk result (IsJoined self.old.scheduler self.new.scheduler node thread) }
        ensures others { self.new ≡ record self.old { scheduler = self.new.scheduler } }
    {
        self.scheduler.enqueue(node, thread)
    }

    /// Makes the choice at these uses of the resources: updates the gate, chooses a thread, removes it from its node,
    /// and counts the reason. Returns `None` if no thread is eligible, or if a count would be 10^12 or more.
    pub fn choose<R: Ready>(&mut self, uses: [u32; 8], world: &R) -> Option<Choice>
        requires { NoneAbove uses self.old.monitor.caps }
        ensures { IfSome result (Decides (R.is_ready world.now) (R.at_accept world.now) (R.any_elsewhere world.now) uses self.old self.new) }
    {
        self.monitor.observe(uses);
        if self.noted >= MOST {
            return None;
        }
        let choice = self.scheduler.choose(&self.graph, &self.monitor, world)?;
        let reason = reason_of(
            self.alloc,
            &self.scheduler,
            &self.graph,
            &self.monitor,
            world,
            choice.thread.number,
        );
        self.choices = self.choices.with(reason)?;
        self.scheduler.note_choice(&choice);
        self.noted += 1;
        Some(choice)
    }

    /// Takes up the record of a segment. Returns `false` if memory runs out, or if there would be 10^12 records.
    pub fn note(&mut self, segment: SegmentRecord) -> bool
        requires { IsSegment segment }
        ensures noted { result ≡ true → self.new.graph.edges ≡ edges_with self.old.graph.edges segment }
        ensures others { self.new ≡ record self.old { graph = self.new.graph } }
    {
        if self.recorded >= MOST {
            return false;
        }
        match self.graph.note(segment) {
            Ok(()) => {
                self.recorded += 1;
                true
            }
            Err(_) => false,
        }
    }
}
