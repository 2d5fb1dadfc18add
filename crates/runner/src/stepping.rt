// One step of a run.
ghost use Rattle.std.specs.Prelude.{◌≡◌, None, OnOk};
ghost use Rattle.lawful_log.specs.Setup.{Setup};
ghost use Rattle.lawful_log.specs.State.{State};
ghost use Rattle.run_course.specs.Counts.{CountsPart, CountsStep};
ghost use Rattle.run_course.specs.Output.{output_of};
ghost use Rattle.run_course.specs.Ranks.{FallsTo, rank};
ghost use Rattle.run_course.specs.Rest.{BackTo, Rest};
ghost use Rattle.run_course.specs.Stands.{IsAtPoint, PointStands, Stands, StandsBetween, StandsSomehow};
ghost use Rattle.run_course.specs.Starts.{KeepsRun};
ghost use Rattle.run_course.specs.Steps.{StepEnds};

use crate::waiting::wait;
use cap_io::{Sink, Source};
use event_trace::Event;
use resource_monitor::Measure;
use run_course::{Course, Failure, Halt, Looked, goes_on};
use schedule_log::LogWriter;
use thread_core::World;

/// Makes one step of a run: within a segment, or at a choice point.
pub(crate) fn step<S: Source, K: Sink, C: Measure + Drop>(
    course: &mut Course<C>,
    world: &mut World,
    trace: &mut S,
    writer: &mut LogWriter,
    out: &mut K,
) -> Result<Option<Halt>, Failure>
    requires stands { StandsSomehow course.old world.old }
    requires unrefused { writer.old.refused ≡ None }
    ensures ends { BackTo (S.left trace.old) (S.left trace.new) (λ before left.
        (g : Setup) (state : State) → Stands g state course.old world.old before →
        StepEnds g state before course.new world.new left (output_of writer.old (K.taken out.old))
        (output_of writer.new (K.taken out.new)) result) }
    ensures counts { CountsStep result (S.faults trace.old) (S.faults trace.new)
        (K.faults out.old) (K.faults out.new) }
    ensures unrefused { OnOk result (writer.new.refused ≡ None) }
    ensures falls { FallsTo (rank course.old world.old) result (rank course.new world.new) }
    ensures keeps { KeepsRun world.old world.new }
{
    match course.under() {
        Some(under) => course.pass(world, under, writer, out),
        None => point(course, world, trace, writer, out),
    }
}

/// Makes one step of a choice point: the run stops, an event is delivered, the clock advances, or a segment begins.
fn point<S: Source, K: Sink, C: Measure + Drop>(
    course: &mut Course<C>,
    world: &mut World,
    trace: &mut S,
    writer: &mut LogWriter,
    out: &mut K,
) -> Result<Option<Halt>, Failure>
    requires stands { StandsSomehow course.old world.old }
    requires between { course.old.under ≡ None }
    requires unrefused { writer.old.refused ≡ None }
    ensures ends { BackTo (S.left trace.old) (S.left trace.new) (λ before left.
        (g : Setup) (state : State) → StandsBetween g state course.old world.old before →
        StepEnds g state before course.new world.new left (output_of writer.old (K.taken out.old))
        (output_of writer.new (K.taken out.new)) result) }
    ensures counts { CountsStep result (S.faults trace.old) (S.faults trace.new)
        (K.faults out.old) (K.faults out.new) }
    ensures unrefused { OnOk result (writer.new.refused ≡ None) }
    ensures falls { FallsTo (rank course.old world.old) result (rank course.new world.new) }
    ensures keeps { KeepsRun world.old world.new }
{
    if world.live() == 0 {
        return Ok(Some(Halt::Done));
    }
    match course.look(trace)? {
        Looked::Refused { line } => Ok(Some(Halt::BadTrace { line })),
        Looked::Comes { event } => go_on(course, world, event, writer, out),
    }
}

/// Continues the step if the next line isn't refused: it is an event, or `None` if the trace is over.
fn go_on<K: Sink, C: Measure + Drop>(
    course: &mut Course<C>,
    world: &mut World,
    next: Option<Event>,
    writer: &mut LogWriter,
    out: &mut K,
) -> Result<Option<Halt>, Failure>
    requires stands { PointStands course.old world.old next }
    requires unrefused { writer.old.refused ≡ None }
    ensures ends { (g : Setup) (state : State) (left : Rest) →
        IsAtPoint g state course.old world.old left next →
        StepEnds g state left course.new world.new left (output_of writer.old (K.taken out.old))
        (output_of writer.new (K.taken out.new)) result }
    ensures counts { CountsPart result (K.faults out.old) (K.faults out.new) }
    ensures unrefused { OnOk result (writer.new.refused ≡ None) }
    ensures falls { FallsTo (rank course.old world.old) result (rank course.new world.new) }
    ensures keeps { KeepsRun world.old world.new }
{
    if let Some(event) = next {
        if event.time <= world.clock() {
            return goes_on(course.deliver(world, event, writer, out));
        }
    }
    if world.any_ready() {
        return goes_on(course.choose(world, writer, out));
    }
    Ok(wait(world, next))
}
