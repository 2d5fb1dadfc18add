ghost use Rattle.std.specs.Prelude.{◌≡◌, ◌<◌, ◌≤◌, IfOk, List, None, OnOk, Option, Some, ℕ};
ghost use Rattle.thread_core.specs.Making.{IsEventInRange};
ghost use Rattle.lawful_log.specs.Setup.{Setup};
ghost use Rattle.lawful_log.specs.State.{State, start_of};

use crate::deliveries::coming_entry;
use crate::ends::Failure;
use crate::lines::write_line;
use crate::looking::Next;
use crate::uses::uses_of;
use blocking_graph::Graph;
use cap_io::Sink;
use event_trace::{Event, TraceReader};
use resource_monitor::{Measure, Monitor};
use rule_state::RuleState;
use schedule_log::{Entry, LogWriter};
use scheduler::Choice;
use std::alloc::{AllocError, Global};
use std::marker::Model;
use thread_core::{Turn, World};

/// A segment in progress: the choice that took its thread, the uses at that choice, and what the thread did last.
#[derive(Clone, Copy)]
pub struct Under {
    /// The choice that took its thread.
    pub choice: Choice,
    /// The uses of the eight resources at that choice.
    pub before: [u32; 8],
    /// What the thread did last.
    pub turn: Turn,
}

/// The data of a run in addition to its world.
#[derive(Drop)]
pub struct Course<C: Measure> {
    pub(crate) rule: RuleState,
    pub(crate) graph: Graph,
    pub(crate) monitor: Monitor<C>,
    pub(crate) reader: TraceReader,
    pub(crate) next: Next,
    pub(crate) under: Option<Under>,
}

impl<C: Measure> Model for Course<C> {
    ghost use Rattle.run_course.specs.Kept.{Kept};

    ghost Value = { Kept };

    ghost view = { λ c. record { rule = c.rule; graph = c.graph; monitor = c.monitor; reader = c.reader; next = c.next; under = c.under } };
}

impl<C: Measure + Drop> Course<C> {
    ghost use Rattle.run_course.specs.Starts.{IsAtStartBy, KeepsRun};
    ghost use Rattle.run_course.specs.Counts.{CountsPart};
    ghost use Rattle.run_course.specs.Output.{output_of};
    ghost use Rattle.run_course.specs.Ranks.{lines_rank, long_rank};
    ghost use Rattle.run_course.specs.Rules.{HasNothing, rule_of};
    ghost use Rattle.run_course.specs.Sound.{IsSound};
    ghost use Rattle.run_course.specs.Stands.{ChoiceStands, IsAtChoice, IsAtPoint, StandsBetween};
    ghost use Rattle.run_course.specs.Steps.{PartEnds};
    ghost use Rattle.run_course.specs.Rest.{Rest, bytes_of};

    /// Returns the start of a run: thread 0 waits at node 0.
    pub fn new(
        alloc: Global,
        world: &World,
        rule: RuleState,
        monitor: Monitor<C>,
    ) -> Result<Course<C>, AllocError>
        requires sound { IsSound world.now.accepted }
        requires fresh { HasNothing rule }
        ensures { IfOk result (λ course. (g : Setup) (left : Rest) →
            IsAtStartBy (rule_of rule) g world.now monitor → (course.under ≡ None)
            × StandsBetween g (start_of g (bytes_of left) world.now.machine) course world.now
            left) }
    {
        let mut rule = rule;
        let Ok(()) = rule.start(world.main_thread()) else {
            drop(rule);
            drop(monitor);
            return Err(AllocError);
        };
        let Ok(reader) = TraceReader::new(alloc) else {
            drop(rule);
            drop(monitor);
            return Err(AllocError);
        };
        Ok(Course {
            rule,
            graph: Graph::new(alloc),
            monitor,
            reader,
            next: Next::Unread,
            under: None,
        })
    }

    /// Returns the segment in progress, if there is one.
    pub fn under(&self) -> Option<Under>
        ensures { result ≡ self.now.under }
    {
        self.under
    }

    /// Returns the graph of the segments that have ended.
    pub fn graph(&self) -> &Graph
        ensures { result.now ≡ self.now.graph }
    {
        &self.graph
    }

    /// Delivers the due event: it joins its queue, or is dropped.
    pub fn deliver<K: Sink>(
        &mut self,
        world: &mut World,
        event: Event,
        writer: &mut LogWriter,
        out: &mut K,
    ) -> Result<(), Failure>
        requires between { world.old.machine.running ≡ None }
        requires in_range { IsEventInRange event.kind }
        requires unrefused { writer.old.refused ≡ None }
        ensures ends { (g : Setup) (state : State) (left : Rest) →
            IsAtPoint g state self.old world.old left (Some event) →
            event.time ≤ world.old.machine.clock →
            PartEnds g state left self.new world.new left (output_of writer.old (K.taken out.old))
            (output_of writer.new (K.taken out.new)) result }
        ensures counts { CountsPart result (K.faults out.old) (K.faults out.new) }
        ensures unrefused { OnOk result (writer.new.refused ≡ None) }
        ensures long_rank { long_rank self.new world.new ≡ long_rank self.old world.old }
        ensures lines_rank { self.old.next ≡ Next.Event event →
            lines_rank self.new < lines_rank self.old }
        ensures keeps { KeepsRun world.old world.new }
    {
        let delivered = world.deliver(event);
        self.next = Next::Unread;
        write_line(
            writer,
            out,
            &coming_entry(world.clock(), event.kind, delivered),
        )
    }

    /// Chooses a thread, whose segment begins.
    pub fn choose<K: Sink>(
        &mut self,
        world: &mut World,
        writer: &mut LogWriter,
        out: &mut K,
    ) -> Result<(), Failure>
        requires stands { ChoiceStands self.old world.old }
        requires unrefused { writer.old.refused ≡ None }
        ensures ends { (g : Setup) (state : State) (left : Rest) (next : Option Event) →
            IsAtChoice g state self.old world.old left next →
            PartEnds g state left self.new world.new left (output_of writer.old (K.taken out.old))
            (output_of writer.new (K.taken out.new)) result }
        ensures counts { CountsPart result (K.faults out.old) (K.faults out.new) }
        ensures unrefused { OnOk result (writer.new.refused ≡ None) }
        ensures falls { long_rank self.new world.new < long_rank self.old world.old }
        ensures keeps { KeepsRun world.old world.new }
    {
        let before = uses_of(world);
        self.monitor.observe(before);
        let taken = self.rule.take(&self.graph, &self.monitor, world);
        let Some(choice) = taken else { unreachable!() };
        let entry = Entry::Run {
            clock: world.clock(),
            thread: choice.thread.number,
            node: choice.node,
        };
        let turn = world.begin(choice.thread);
        let under = Under {
            choice,
            before,
            turn,
        };
        self.under = Some(under);
        write_line(writer, out, &entry)
    }
}
