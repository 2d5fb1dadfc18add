ghost use Rattle.std.specs.Prelude.{◌≡◌, ◌<◌, ◌≤◌, ◌^◌, IfErr, IfOk, List, None, OnOk, Option, Some, length, slice_index, ℕ};
ghost use Rattle.blocking_graph.specs.Edges.{count_of};
ghost use Rattle.lawful_log.specs.Setup.{Setup};
ghost use Rattle.lawful_log.specs.State.{State};
ghost use Rattle.run_course.specs.Starts.{KeepsRun};
ghost use Rattle.run_course.specs.Counts.{CountsPart};
ghost use Rattle.run_course.specs.Output.{Output, output_of};
ghost use Rattle.run_course.specs.Ranks.{FallsTo, long_rank, rank, under_rank};
ghost use Rattle.run_course.specs.Recorded.{HasSmallCaps, IsRecorded};
ghost use Rattle.run_course.specs.Stands.{HasTurn, SegmentStands, Stands, StandsInside, StandsWithin};
ghost use Rattle.run_course.specs.Steps.{ActsTo, PartEnds, StepEnds};
ghost use Rattle.run_course.specs.Ways.{HasTicked};
ghost use Rattle.run_course.specs.Rest.{Rest};
ghost use Rattle.thread_core.specs.Turns.{MayProceed};

use crate::course::{Course, Under};
use crate::deliveries::signed_word;
use crate::ends::{Failure, Halt, goes_on};
use crate::lines::write_line;
use crate::uses::uses_of;
use blocking_graph::{SegmentRecord, changes};
use cap_io::Sink;
use cap_word::{SiteKey, ThreadId};
use resource_monitor::Measure;
use schedule_log::{Entry, LogWriter};
use thread_core::{Turn, World};

/// The node of threads that have ended.
const END: u32 = 1;

impl<C: Measure + Drop> Course<C> {
    /// Writes what the thread of the segment in progress did last, and continues the segment.
    pub fn pass<K: Sink>(
        &mut self,
        world: &mut World,
        under: Under,
        writer: &mut LogWriter,
        out: &mut K,
    ) -> Result<Option<Halt>, Failure>
        requires stands { SegmentStands self.old world.old under }
        requires unrefused { writer.old.refused ≡ None }
        ensures ends { (g : Setup) (state : State) (left : Rest) →
            StandsWithin g state self.old world.old left under →
            StepEnds g state left self.new world.new left (output_of writer.old (K.taken out.old))
            (output_of writer.new (K.taken out.new)) result }
        ensures counts { CountsPart result (K.faults out.old) (K.faults out.new) }
        ensures unrefused { OnOk result (writer.new.refused ≡ None) }
        ensures falls { self.old.under ≡ Some under →
            FallsTo (rank self.old world.old) result (rank self.new world.new) }
        ensures keeps { KeepsRun world.old world.new }
    {
        let turn = under.turn;
        match turn {
            Turn::Out { value } => goes_on(self.put(world, under, value, writer, out)),
            Turn::Spawned { thread } => goes_on(self.spawn(world, under, thread)),
            Turn::Blocked { key, cost } => {
                goes_on(self.block(world, under, &key, cost, writer, out))
            }
            Turn::Ended { cost } => goes_on(self.end(world, under, cost, writer, out)),
            Turn::Cut { stop, cost } => Ok(Some(Halt::Cut {
                thread: under.choice.thread,
                stop,
                cost,
            })),
            Turn::Memory => Err(Failure::Memory),
        }
    }

    /// Writes a value that was put.
    fn put<K: Sink>(
        &mut self,
        world: &mut World,
        under: Under,
        value: u32,
        writer: &mut LogWriter,
        out: &mut K,
    ) -> Result<(), Failure>
        requires turn { HasTurn self.old world.old under (Turn.Out value) }
        requires unrefused { writer.old.refused ≡ None }
        ensures ends { (g : Setup) (state : State) (left : Rest) →
            StandsWithin g state self.old world.old left under →
            PartEnds g state left self.new world.new left (output_of writer.old (K.taken out.old))
            (output_of writer.new (K.taken out.new)) result }
        ensures counts { CountsPart result (K.faults out.old) (K.faults out.new) }
        ensures unrefused { OnOk result (writer.new.refused ≡ None) }
        ensures falls { self.old.under ≡ Some under →
            long_rank self.new world.new < long_rank self.old world.old }
        ensures keeps { KeepsRun world.old world.new }
    {
        let entry = Entry::Out {
            thread: under.choice.thread.number,
            value: signed_word(value),
        };
        self.proceed(world, under);
        write_line(writer, out, &entry)
    }

    /// Takes up a thread that has started.
    fn spawn(&mut self, world: &mut World, under: Under, thread: ThreadId) -> Result<(), Failure>
        requires { HasTurn self.old world.old under (Turn.Spawned thread) }
        ensures ends { (g : Setup) (state : State) (left : Rest) (now : Output) →
            StandsWithin g state self.old world.old left under →
            PartEnds g state left self.new world.new left now now result }
        ensures only_memory { IfErr result (λ failure. failure ≡ Failure.Memory) }
        ensures falls { IfOk result (λ _. self.old.under ≡ Some under →
            long_rank self.new world.new < long_rank self.old world.old) }
        ensures keeps { KeepsRun world.old world.new }
    {
        self.rule.start(thread)?;
        self.proceed(world, under);
        Ok(())
    }

    /// Continues the segment.
    fn proceed(&mut self, world: &mut World, under: Under)
        requires { MayProceed world.old world.old.stopped }
        ensures goes_on { (g : Setup) (state : State) (left : Rest) →
            StandsInside g state self.old world.old left under.choice under.before →
            Stands g state self.new world.new left }
        ensures ticks { (g : Setup) (state : State) (left : Rest) →
            StandsInside g state self.old world.old left under.choice under.before →
            HasTicked state.machine world.new.machine }
        ensures acts { world.old.stopped ≡ None →
            ActsTo world.old.setting world.old.machine world.new.machine }
        ensures falls { (g : Setup) (state : State) (left : Rest) →
            StandsInside g state self.old world.old left under.choice under.before →
            1 ≤ under_rank self.old.under →
            long_rank self.new world.new < long_rank self.old world.old }
        ensures keeps { KeepsRun world.old world.new }
    {
        let choice = under.choice;
        let before = under.before;
        let turn = world.proceed();
        let now = Under {
            choice,
            before,
            turn,
        };
        self.under = Some(now);
    }

    /// Ends the segment at a blocking call.
    fn block<K: Sink>(
        &mut self,
        world: &World,
        under: Under,
        key: &SiteKey,
        cost: u64,
        writer: &mut LogWriter,
        out: &mut K,
    ) -> Result<(), Failure>
        requires turn { HasTurn self.old world.now under (Turn.Blocked key.now cost) }
        requires unrefused { writer.old.refused ≡ None }
        ensures ends { (g : Setup) (state : State) (left : Rest) →
            StandsWithin g state self.old world.now left under →
            PartEnds g state left self.new world.now left (output_of writer.old (K.taken out.old))
            (output_of writer.new (K.taken out.new)) result }
        ensures counts { CountsPart result (K.faults out.old) (K.faults out.new) }
        ensures unrefused { OnOk result (writer.new.refused ≡ None) }
        ensures over { OnOk result (self.new.under ≡ None) }
    {
        let thread = under.choice.thread;
        let node = self.graph.node_of(key)?;
        self.record(world, under, node, cost)?;
        let need = world.need_of(thread);
        self.rule.rejoin(thread, node, need)?;
        self.under = None;
        let key = *key;
        let free = world.free();
        let entry = Entry::Block {
            thread: thread.number,
            node,
            key,
            cost,
            free,
        };
        write_line(writer, out, &entry)
    }

    /// Ends the segment with its thread.
    fn end<K: Sink>(
        &mut self,
        world: &World,
        under: Under,
        cost: u64,
        writer: &mut LogWriter,
        out: &mut K,
    ) -> Result<(), Failure>
        requires turn { HasTurn self.old world.now under (Turn.Ended cost) }
        requires unrefused { writer.old.refused ≡ None }
        ensures ends { (g : Setup) (state : State) (left : Rest) →
            StandsWithin g state self.old world.now left under →
            PartEnds g state left self.new world.now left (output_of writer.old (K.taken out.old))
            (output_of writer.new (K.taken out.new)) result }
        ensures counts { CountsPart result (K.faults out.old) (K.faults out.new) }
        ensures unrefused { OnOk result (writer.new.refused ≡ None) }
        ensures over { OnOk result (self.new.under ≡ None) }
    {
        let thread = under.choice.thread;
        self.record(world, under, END, cost)?;
        self.rule.leave(thread);
        self.under = None;
        let free = world.free();
        let entry = Entry::End {
            thread: thread.number,
            cost,
            free,
        };
        write_line(writer, out, &entry)
    }

    /// Records a segment that has ended at a node.
    fn record(&mut self, world: &World, under: Under, node: u32, cost: u64) -> Result<(), Failure>
        requires cost { cost < 2 ^ 40 }
        requires before { (r : ℕ) → r < 8 → slice_index under.before r ≤ 1000000 }
        requires caps { HasSmallCaps world.now }
        requires uses { length world.now.machine.exchange.uses ≡ 8 }
        requires room { count_of self.old.graph.edges < 2 ^ 40 }
        ensures ok { OnOk result (IsRecorded self.old self.new world.now under node cost) }
        ensures err { IfErr result (λ failure. (failure ≡ Failure.Memory) × (self.new ≡ self.old)) }
    {
        let after = uses_of(world);
        let before = under.before;
        let change = changes(&before, &after);
        let segment = SegmentRecord {
            from: under.choice.node,
            to: node,
            cost,
            change,
        };
        self.graph.note(segment)?;
        Ok(())
    }
}
