// The audit of a log.
ghost use Rattle.std.specs.Prelude.{◌≡◌, ◌==◌, None, position};
ghost use Rattle.c_tree.specs.ProgramView.{program_tree};
ghost use Rattle.lawful_reading.specs.Given.{Given};
ghost use Rattle.lawful_reading.specs.State.{State};
ghost use Rattle.schedule_audit.specs.Judging.{IsJudged, IsNoEnd, IsReadTo, RulesLine};
ghost use Rattle.schedule_audit.specs.Verdicts.{CountsVerdict, IsVerdict};
ghost use Rattle.schedule_reading.specs.Rulings.{CountsReads, Rules, StandsBetweenSomehow};
ghost use Rattle.schedule_reading.specs.Limits.{MayAudit, given_of};
ghost use Rattle.schedule_reading.specs.Closing.{RulesWithin, WithinSomehow};
ghost use Rattle.schedule_reading.specs.Stands.{IsEnd, Stands, StandsSomehow, StandsWithin};
ghost use Rattle.schedule_reading.specs.declared.reading.End.TheVariants.{Stopped};

use crate::ends::stop;
use crate::segments::{block, end_line, out};
use crate::verdicts::{Verdict, verdict_of};
use c_tree::Program;
use cap_io::Source;
use lawful_reading::Judgement;
use resource_monitor::{Measure, Monitor};
use schedule_log::{Entry, LogError, read_entry};
use schedule_reading::{AuditPolicy, End, Failure, Reading, Ruling, Shown, Under};
use std::alloc::{AllocError, Global};

/// Judges a log: whether each of its lines is allowed after those before it, and the last is a stop. The lines of
/// choice points are those of the priority rule over the printed costs; outputs and blocking points are those of the
/// source's own run; edges are those of all segments. Returns
///
/// - `Lawful` exactly if every line is allowed and the last is a stop;
/// - `Unlawful` with the first line that isn't allowed, or the number of lines plus 1 if none is a stop;
/// - `Steps` with the first line that needs, together with those before it, more steps of the source than the limit;
/// - `ReadFault` only if a read of the trace failed: its count of faults rose, or is at its maximum;
/// - `Memory` if an allocation fails.
///
/// The limits are in their ranges, and the monitor is new, with the policy's caps and the number of chunks as the cap
/// of resource 0.
pub fn audit<S: Source, C: Measure + Drop>(
    alloc: Global,
    program: &Program,
    policy: AuditPolicy,
    monitor: Monitor<C>,
    trace: &mut S,
    log: &[u8],
) -> Verdict
    requires { MayAudit policy monitor }
    ensures verdict { IsVerdict (given_of (program_tree program.now) policy monitor) (S.left trace.old) log.now result }
    ensures counts { CountsVerdict result (S.faults trace.old) (S.faults trace.new) }
{
    match Reading::new(alloc, program, policy, monitor) {
        Ok(mut reading) => {
            let judged = lines(&mut reading, trace, log);
            drop(reading);
            verdict_of(judged)
        }
        Err(AllocError) => Verdict::Memory,
    }
}

// Returns the index of the first line feed.
fn line_end(bytes: &[u8]) -> Option<usize>
    ensures { result ≡ position (λ byte. byte == 10) bytes.now }
{
    bytes.iter().position(|byte| *byte == b'\n')
}

/// Judges the lines of a log, one after another.
fn lines<S: Source, C: Measure + Drop>(
    reading: &mut Reading<'_, C>,
    trace: &mut S,
    log: &[u8],
) -> Result<Judgement, Failure>
    requires { StandsSomehow reading.old }
    ensures judged { (g : Given) → IsReadTo g (S.left trace.old) log.now log.now 1 reading.old (S.left trace.old) → IsJudged g (S.left trace.old) log.now result }
    ensures counts { CountsReads result (S.faults trace.old) (S.faults trace.new) }
{
    let mut rest = log;
    let mut line: u64 = 1;
    while let Some(end) = line_end(rest) {
        match take_line(reading, trace, &rest[..end])? {
            Ruling::Allowed => (),
            Ruling::Refused => return Ok(Judgement::Unlawful { line }),
            Ruling::OutOfSteps => return Ok(Judgement::Steps { line }),
        }
        rest = &rest[end + 1..];
        line += 1;
    }
    if rest.is_empty() && matches!(reading.end, End::Stopped) {
        Ok(Judgement::Lawful)
    } else {
        Ok(Judgement::Unlawful { line })
    }
}

/// Judges one line, without its line feed.
pub fn take_line<S: Source, C: Measure + Drop>(
    reading: &mut Reading<'_, C>,
    trace: &mut S,
    line: &[u8],
) -> Result<Ruling, Failure>
    requires { StandsSomehow reading.old }
    ensures rules { (g : Given) (state : State) → Stands g state reading.old → RulesLine g state reading.old line.now (S.left trace.old) reading.new (S.left trace.new) result }
    ensures counts { CountsReads result (S.faults trace.old) (S.faults trace.new) }
{
    if matches!(reading.end, End::Stopped) {
        return Ok(Ruling::Refused);
    }
    match read_entry(line) {
        Ok(entry) => take_entry(reading, trace, entry),
        Err(LogError::Line) => Ok(Ruling::Refused),
    }
}

/// Judges one entry before the stop.
fn take_entry<S: Source, C: Measure + Drop>(
    reading: &mut Reading<'_, C>,
    trace: &mut S,
    entry: Entry,
) -> Result<Ruling, Failure>
    requires stands { StandsSomehow reading.old }
    requires going { reading.old.end ≡ Stopped → ⊥ }
    ensures rules { (g : Given) (state : State) → Stands g state reading.old → Rules g state reading.old entry (S.left trace.old) reading.new (S.left trace.new) result }
    ensures counts { CountsReads result (S.faults trace.old) (S.faults trace.new) }
{
    match entry {
        Entry::Edge {
            from,
            to,
            count,
            cost,
            changes,
        } => {
            let shown = Shown {
                from,
                to,
                count,
                cost,
                changes,
            };
            reading.edge(trace, &shown)
        }
        Entry::Stop(line) => stop(reading, trace, line),
        _ => match reading.under.take() {
            None => take_at_point(reading, trace, entry),
            Some(under) => take_in_segment(reading, under, entry),
        },
    }
}

/// Judges a line of a choice point.
fn take_at_point<S: Source, C: Measure + Drop>(
    reading: &mut Reading<'_, C>,
    trace: &mut S,
    entry: Entry,
) -> Result<Ruling, Failure>
    requires between { StandsBetweenSomehow reading.old }
    requires under { reading.old.under ≡ None }
    requires going { reading.old.end ≡ Stopped → ⊥ }
    requires line { IsNoEnd entry }
    ensures rules { (g : Given) (state : State) → Stands g state reading.old → Rules g state reading.old entry (S.left trace.old) reading.new (S.left trace.new) result }
    ensures counts { CountsReads result (S.faults trace.old) (S.faults trace.new) }
{
    if !reading.is_before_end() {
        return Ok(Ruling::Refused);
    }
    match entry {
        Entry::Event { clock, item } => reading.delivery(trace, clock, item, false),
        Entry::Dropped { clock, item } => reading.delivery(trace, clock, item, true),
        Entry::Run {
            clock,
            thread,
            node,
        } => reading.choice(trace, clock, thread, node),
        _ => Ok(Ruling::Refused),
    }
}

/// Judges a line of a segment.
fn take_in_segment<'a, C: Measure + Drop>(
    reading: &mut Reading<'a, C>,
    mut under: Under<'a>,
    entry: Entry,
) -> Result<Ruling, Failure>
    requires under { reading.old.under ≡ None }
    requires within { WithinSomehow reading.old.core under }
    requires line { IsNoEnd entry }
    ensures { (g : Given) (state : State) → StandsWithin g state reading.old.core under.entry → IsEnd g state reading.old.end → RulesWithin g state reading.old entry reading.new result }
{
    match entry {
        Entry::Out { thread, value } => out(reading, under, thread, value),
        Entry::Block {
            thread,
            node,
            key,
            cost,
            free,
        } => block(reading, under, thread, node, &key, cost, free),
        Entry::End { thread, cost, free } => {
            let ruling = end_line(reading, &mut under, thread, cost, free);
            drop(under);
            ruling
        }
        _ => {
            drop(under);
            Ok(Ruling::Refused)
        }
    }
}
