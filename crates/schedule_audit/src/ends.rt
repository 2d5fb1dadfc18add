// The stop, at a choice point or within a segment.
ghost use Rattle.std.specs.Prelude.{◌≡◌, ◌↔◌, ◌+◌, ◌≤◌, IsTrue, OnOk};
ghost use Rattle.lawful_reading.specs.Given.{Given};
ghost use Rattle.lawful_reading.specs.State.{State};
ghost use Rattle.schedule_reading.specs.Ending.{RulesCause, RulesCut, RulesStop, RulesTrap, Tells};
ghost use Rattle.schedule_log.specs.declared.entries.Entry.{Entry};
ghost use Rattle.schedule_log.specs.declared.entries.StopLine.TheVariants.{Cut};
ghost use Rattle.schedule_reading.specs.Closing.{WithinSomehow};
ghost use Rattle.schedule_reading.specs.Rulings.{CountsReads, Rules};
ghost use Rattle.schedule_reading.specs.Stands.{IsTold, Stands, StandsSomehow, StandsWithin};
ghost use Rattle.schedule_reading.specs.declared.reading.End.TheVariants.{Stopped};

use crate::segments::{is_within, proceed};
use cap_io::Source;
use cap_word::{Stop, TrapKind};
use resource_monitor::Measure;
use schedule_log::StopLine;
use schedule_reading::{Between, End, Failure, Happening, Reading, Ruling, Under, ruling_of};

/// Judges a line `stop`.
pub(crate) fn stop<S: Source, C: Measure + Drop>(
    reading: &mut Reading<'_, C>,
    trace: &mut S,
    stop: StopLine,
) -> Result<Ruling, Failure>
    requires stands { StandsSomehow reading.old }
    requires going { reading.old.end ≡ Stopped → ⊥ }
    ensures rules { (g : Given) (state : State) → Stands g state reading.old → Rules g state reading.old (Entry.Stop stop) (S.left trace.old) reading.new (S.left trace.new) result }
    ensures counts { CountsReads result (S.faults trace.old) (S.faults trace.new) }
{
    let over = reading.are_edges_over()?;
    match stop_cause(reading, trace, stop)? {
        Ruling::Allowed => {
            if !over {
                return Ok(Ruling::Refused);
            }
            reading.end = End::Stopped;
            Ok(Ruling::Allowed)
        }
        Ruling::Refused => Ok(Ruling::Refused),
        Ruling::OutOfSteps => Ok(Ruling::OutOfSteps),
    }
}

/// Returns the ruling on a stop, by the cause that its line names.
fn stop_cause<S: Source, C: Measure + Drop>(
    reading: &mut Reading<'_, C>,
    trace: &mut S,
    stop: StopLine,
) -> Result<Ruling, Failure>
    requires stands { StandsSomehow reading.old }
    requires going { reading.old.end ≡ Stopped → ⊥ }
    ensures rules { (g : Given) (state : State) → Stands g state reading.old → RulesStop g state reading.old (S.left trace.old) stop result }
    ensures counts { CountsReads result (S.faults trace.old) (S.faults trace.new) }
    ensures trace { (g : Given) (state : State) → Stands g state reading.old → IsTold state reading.old (S.left trace.old) → OnOk result (IsTold state reading.new (S.left trace.new)) }
{
    match stop {
        StopLine::Done => reading.stop_between(trace, Between::Done),
        StopLine::Idle => reading.stop_between(trace, Between::Idle),
        StopLine::Trace { line } => reading.stop_between(trace, Between::Trace(line)),
        StopLine::Cut {
            thread,
            stop,
            cost,
            free,
        } => cut(reading, thread, stop, cost, free),
    }
}

/// Judges a stop that cuts the segment in progress off.
fn cut<C: Measure + Drop>(
    reading: &mut Reading<'_, C>,
    thread: u32,
    stop: Stop,
    cost: u64,
    free: u32,
) -> Result<Ruling, Failure>
    requires stands { StandsSomehow reading.old }
    requires going { reading.old.end ≡ Stopped → ⊥ }
    ensures rules { (g : Given) (state : State) → Stands g state reading.old → RulesCut g state (Cut thread stop cost free) result }
    ensures reader { reading.new.reader ≡ reading.old.reader }
    ensures next { reading.new.next ≡ reading.old.next }
{
    let Some(mut under) = reading.under.take() else {
        return Ok(Ruling::Refused);
    };
    let told = tells(reading, &under, thread, cost, free);
    let caused = cut_cause(reading, &mut under, stop, cost);
    reading.under = Some(under);
    let ruling = caused?;
    match ruling {
        Ruling::Allowed => Ok(ruling_of(told)),
        Ruling::Refused => Ok(Ruling::Refused),
        Ruling::OutOfSteps => Ok(Ruling::OutOfSteps),
    }
}

/// Checks whether a stop's line names the running thread, with a possible cost and number of free chunks.
fn tells<'a, C: Measure + Drop>(
    reading: &Reading<'a, C>,
    under: &Under<'a>,
    thread: u32,
    cost: u64,
    free: u32,
) -> bool
    requires { reading.now.core.cost ≤ reading.now.core.policy.fuel }
    ensures { IsTrue result ↔ Tells reading.now.core under.now thread cost free }
{
    thread == under.choice.thread.number && is_within(reading, cost, free)
}

/// Returns the ruling on a cut of the segment in progress by this cause, after a cost.
fn cut_cause<'a, C: Measure + Drop>(
    reading: &mut Reading<'a, C>,
    under: &mut Under<'a>,
    stop: Stop,
    cost: u64,
) -> Result<Ruling, Failure>
    requires { WithinSomehow reading.old.core under.old }
    ensures rules { (g : Given) (state : State) → StandsWithin g state reading.old.core under.old → RulesCause g state stop cost result }
    ensures rest { reading.new ≡ record reading.old { core = reading.new.core } }
{
    match stop {
        Stop::Trap(kind) => trap(reading, under, kind),
        Stop::Threads => reading.crowd(under),
        Stop::Fuel => Ok(ruling_of(reading.is_spent(cost))),
        Stop::NoChunk => Ok(Ruling::Allowed),
    }
}

/// Returns the ruling on a trap of this kind: it is allowed if the thread traps next in this way.
fn trap<'a, C: Measure + Drop>(
    reading: &mut Reading<'a, C>,
    under: &mut Under<'a>,
    kind: TrapKind,
) -> Result<Ruling, Failure>
    requires { WithinSomehow reading.old.core under.old }
    ensures rules { (g : Given) (state : State) → StandsWithin g state reading.old.core under.old → RulesTrap g state kind result }
    ensures rest { reading.new ≡ record reading.old { core = reading.new.core } }
{
    match proceed(reading, under)? {
        Happening::OutOfSteps => Ok(Ruling::OutOfSteps),
        Happening::Traps(other) => Ok(ruling_of(kind == other)),
        _ => Ok(Ruling::Refused),
    }
}
