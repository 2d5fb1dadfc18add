ghost use Rattle.std.specs.Prelude.{◌≡◌};
ghost use Rattle.choice_rules.specs.Policy.{by_stride};
ghost use Rattle.lawful_log.specs.Setup.{Setup};
ghost use Rattle.run_course.specs.Starts.{IsAtStart, IsAtStartBy, KeepsRun};
ghost use Rattle.runner.specs.Answers.{IsRunEnd};
ghost use Rattle.runner.specs.Ends.{run_end};
ghost use Rattle.run_course.specs.Rules.{HasNothing, rule_of};
ghost use Rattle.stride_rule.specs.State.{new_rule};

use crate::closing::write_end;
use crate::ends::{RunEnd, StrideEnd, end_of, failed_end};
use crate::stepping::step;
use cap_io::{Sink, Source};
use resource_monitor::{Measure, Monitor};
use rule_state::{RuleState, StridesAtNodes};
use run_course::{Course, Failure};
use schedule_log::LogWriter;
use scheduler::Scheduler;
use segment_run::sizes_law;
use std::alloc::Global;
use stride_rule::StrideRule;
use thread_core::World;

/// Runs a newly made world over a trace, choosing threads by the priority rule, and writes its log. A run ends with
///
/// - `Done` at a choice point, if every thread has ended, whatever is left of the trace;
/// - `BadTrace` at a choice point, if the next line of the trace isn't an event, has a time below that of the line
///   before, or is line 1,000,001;
/// - `Idle` at a choice point, if the trace is over, no thread is ready and none sleeps;
/// - `Trap` if the thread indexes past an array or a table, or names a resource, an amount or a channel out of range;
/// - `NoChunk` if the thread needs a chunk, for a call or for a thread that it starts, and no free chunk fits the need;
/// - `Fuel` if the total of retired instructions has reached the fuel before the thread's next instruction; this is
///   tested first;
/// - `Threads` if the thread starts another while 65,535 are live; this is tested before the free chunks;
/// - `ReadFault` if a read of the trace failed: the trace's count of faults rose, or is at its maximum;
/// - `WriteFault` if a write of the log failed: the sink's count of faults rose, or is at its maximum;
/// - `Memory` if memory ran out in the run or in the sink.
///
/// With the first seven the whole log is written, and the world is as at the stop. With the last three a prefix of the
/// log is written, which lacks at most the buffer's 4,096 bytes and one line of what was done. The world is one of
/// those of the log's run.
pub fn run<S: Source, K: Sink, C: Measure + Drop>(
    alloc: Global,
    world: &mut World,
    monitor: Monitor<C>,
    trace: &mut S,
    out: &mut K,
) -> RunEnd
    requires { (g : Setup) × IsAtStart g world.old monitor }
    ensures answer { (g : Setup) → IsAtStart g world.old monitor →
        IsRunEnd g world.new (S.left trace.old) (K.taken out.old) (K.taken out.new)
        (S.faults trace.old) (S.faults trace.new) (K.faults out.old) (K.faults out.new) result }
    ensures keeps { KeepsRun world.old world.new }
{
    let scheduler = Scheduler::new(alloc);
    let by_graph = RuleState::Graph { scheduler };
    run_by(alloc, world, by_graph, monitor, trace, out)
}

/// Runs a newly made world over a trace as `run` does, choosing threads by the stride rule. The rule is new: no thread
/// has been started. A run ends with the same answers.
pub fn run_stride<S: Source, K: Sink, C: Measure + Drop>(
    alloc: Global,
    world: &mut World,
    rule: StrideRule,
    monitor: Monitor<C>,
    trace: &mut S,
    out: &mut K,
) -> StrideEnd
    requires start { (g : Setup) × IsAtStartBy (by_stride rule.tickets) g world.old monitor }
    requires fresh { rule ≡ new_rule rule.tickets }
    ensures answer { (g : Setup) → IsAtStartBy (by_stride rule.tickets) g world.old monitor →
        IsRunEnd g world.new (S.left trace.old) (K.taken out.old) (K.taken out.new)
        (S.faults trace.old) (S.faults trace.new) (K.faults out.old) (K.faults out.new) result }
    ensures keeps { KeepsRun world.old world.new }
{
    let strides = StridesAtNodes::new(alloc, rule);
    let by_strides = RuleState::Stride { strides };
    run_by(alloc, world, by_strides, monitor, trace, out)
}

/// Runs a world under a rule in which no thread has been started.
fn run_by<S: Source, K: Sink, C: Measure + Drop>(
    alloc: Global,
    world: &mut World,
    rule: RuleState,
    monitor: Monitor<C>,
    trace: &mut S,
    out: &mut K,
) -> RunEnd
    requires start { (g : Setup) × IsAtStartBy (rule_of rule) g world.old monitor }
    requires fresh { HasNothing rule }
    ensures answer { (g : Setup) → IsAtStartBy (rule_of rule) g world.old monitor →
        IsRunEnd g world.new (S.left trace.old) (K.taken out.old) (K.taken out.new)
        (S.faults trace.old) (S.faults trace.new) (K.faults out.old) (K.faults out.new) result }
    ensures keeps { KeepsRun world.old world.new }
{
    match go(alloc, world, rule, monitor, trace, out) {
        Ok(end) => end,
        Err(failure) => failed_end(failure),
    }
}

fn go<S: Source, K: Sink, C: Measure + Drop>(
    alloc: Global,
    world: &mut World,
    rule: RuleState,
    monitor: Monitor<C>,
    trace: &mut S,
    out: &mut K,
) -> Result<RunEnd, Failure>
    requires start { (g : Setup) × IsAtStartBy (rule_of rule) g world.old monitor }
    requires fresh { HasNothing rule }
    ensures answer { (g : Setup) → IsAtStartBy (rule_of rule) g world.old monitor →
        IsRunEnd g world.new (S.left trace.old) (K.taken out.old) (K.taken out.new)
        (S.faults trace.old) (S.faults trace.new) (K.faults out.old) (K.faults out.new)
        (run_end result) }
    ensures keeps { KeepsRun world.old world.new }
{
    // By the clauses of these calls, the pair is valid, and its chunks have a possible size.
    let accepted = world.accepted();
    sizes_law(accepted);
    accepted.is_valid();
    let Ok(mut course) = Course::new(alloc, world, rule, monitor) else {
        return Err(Failure::Memory);
    };
    let Ok(mut writer) = LogWriter::new(alloc) else {
        drop(course);
        return Err(Failure::Memory);
    };
    loop {
        match step(&mut course, world, trace, &mut writer, out) {
            Ok(None) => (),
            Ok(Some(halt)) => {
                let written = write_end(world, course.graph(), halt, writer, out);
                drop(course);
                return match written {
                    Ok(()) => Ok(end_of(halt)),
                    Err(failure) => Err(failure),
                };
            }
            Err(failure) => {
                drop(course);
                return Err(failure);
            }
        }
    }
}
