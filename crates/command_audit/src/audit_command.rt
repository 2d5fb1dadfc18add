// The command `audit`: judges a log of a source on the trace.
ghost use Rattle.std.specs.Prelude.{◌≡◌, ◌≤◌, ℕ, List, Option, MatchResult};
ghost use Rattle.cap_io.specs.Files.{KeepsFiles};
ghost use Rattle.c_tree.specs.ProgramView.{program_tree};
ghost use Rattle.command_words.specs.declared.options.Audit.{Audit as AuditOptions};
ghost use Rattle.command_outcomes.specs.Done.{Outside, outside_by};
ghost use Rattle.command_outcomes.specs.Steps.{EndsAs, IsPrinted, IsShelfStop, IsStatus, RunEnds};
ghost use Rattle.resource_monitor.specs.Pressure.{AnswersCurve, IsReading, curve_value};
ghost use Rattle.resource_monitor.specs.declared.curves.Curve.TheVariants.{Knee};
ghost use Rattle.command_options.specs.Options.{AreAuditOptions};
ghost use Rattle.command_audit.specs.Audits.{Audits, AuditsProgram, IsJudged, LeadsToAudit, audit_limits, judged_as, judgement_line, judgement_status, reading_of};

use crate::judgements::{line_of, status_of};
use c_tree::Program;
use cap_io::{Shelf, Sink, Source};
use command_files::{load, read_source};
use command_options::monitor_of;
use command_outcomes::{Document, Fault, Stop, print};
use command_words::Audit;
use lawful_reading::Judgement;
use resource_monitor::{Measure, past_knee};
use schedule_audit::{AuditPolicy, Verdict, audit};
use std::alloc::{AllocError, Global};

/// Does the command `audit`: judges a log of a source on the trace, and writes the line of the judgement to `out`.
/// Returns the judgement's status: 0 if the log is lawful, 15 if it is unlawful, 16 if it needs too many steps.
///
/// The options are in their ranges.
///
/// # Errors
///
/// `Refused` if a file is absent or too long, or the source is no program. `Failed` with `Read` only if a load or a
/// read of the trace failed, and nothing was written then; with `Write` only if a write failed; with `Memory` if an
/// allocation fails.
pub fn do_audit<F: Shelf, S: Source, K: Sink>(
    alloc: Global,
    shelf: &mut F,
    trace: &mut S,
    out: &mut K,
    source: &str,
    log: &str,
    options: Audit,
) -> Result<u8, Stop>
    requires { AreAuditOptions options }
    ensures { let outside = outside_by F.files F.load_faults F.store_faults S.left S.faults K.taken
        K.faults in
        let before : Outside = outside shelf.old trace.old out.old in
        let after : Outside = outside shelf.new trace.new out.new in
        EndsAs IsStatus (Audits before.files before.left source.now log.now options) before after result }
{
    let loaded = load_log(alloc, shelf, source, log)?;
    let status = tell_judgement(
        alloc,
        trace,
        out,
        &loaded.program,
        loaded.log.as_slice(),
        options,
    );
    drop(loaded);
    status
}

/// A program, and a log to be judged.
#[derive(Drop)]
struct LoadedLog {
    /// The program.
    program: Program,
    /// The bytes of the log.
    log: Vec<u8>,
}

/// Loads the source of this name and the log, and reads the source.
fn load_log<F: Shelf>(
    alloc: Global,
    shelf: &mut F,
    source_name: &str,
    log_name: &str,
) -> Result<LoadedLog, Stop>
    ensures answer { (trace : Option (List ℕ)) (options : AuditOptions) → MatchResult result
        (λ loaded. LeadsToAudit (F.files shelf.old) source_name.now log_name.now loaded.log.items
        (program_tree loaded.program) × (F.load_faults shelf.new ≡ F.load_faults shelf.old))
        (IsShelfStop (Audits (F.files shelf.old) trace source_name.now log_name.now options)
        (F.load_faults shelf.old) (F.load_faults shelf.new)) }
    ensures files { KeepsFiles (F.files shelf.old) (F.files shelf.new) }
    ensures stores { F.store_faults shelf.new ≡ F.store_faults shelf.old }
{
    let source = load(alloc, shelf, Document::Source, source_name)?;
    let log = load(alloc, shelf, Document::Log, log_name)?;
    let program = read_source(alloc, source.as_slice())?;
    Ok(LoadedLog { program, log })
}

/// Judges a log of a program, and writes the line with the judgement.
fn tell_judgement<S: Source, K: Sink>(
    alloc: Global,
    trace: &mut S,
    out: &mut K,
    program: &Program,
    log: &[u8],
    options: Audit,
) -> Result<u8, Stop>
    requires { AreAuditOptions options }
    ensures { RunEnds IsStatus
        (AuditsProgram (S.left trace.old) options log.now (program_tree program.now))
        (S.left trace.old) (S.left trace.new) (S.faults trace.old) (S.faults trace.new)
        (K.taken out.old) (K.taken out.new) (K.faults out.old) (K.faults out.new) result }
{
    let judgement = audit_program(alloc, trace, program, log, options)?;
    print_judgement(alloc, out, judgement)
}

/// Writes the line with the judgement on a log.
fn print_judgement<K: Sink>(alloc: Global, out: &mut K, judgement: Judgement) -> Result<u8, Stop>
    ensures { IsPrinted (judgement_status judgement) (judgement_line judgement) (K.taken out.old)
        (K.taken out.new) (K.faults out.old) (K.faults out.new) result }
{
    match line_of(alloc, judgement) {
        Ok(line) => print(out, line.as_slice(), status_of(judgement)),
        Err(AllocError) => Err(Stop::Failed(Fault::Memory)),
    }
}

/// Judges a log of a program, with the options' knee in the pressure curves of all resources.
fn audit_program<S: Source>(
    alloc: Global,
    trace: &mut S,
    program: &Program,
    log: &[u8],
    options: Audit,
) -> Result<Judgement, Stop>
    requires { AreAuditOptions options }
    ensures { IsJudged (reading_of (program_tree program.now) options) (S.left trace.old) log.now
        (S.faults trace.old) (S.faults trace.new) result }
{
    let knee = options.policy.knee;
    let call = move |used: u32, cap: u32| -> u32
        requires { (knee ≤ 999) × IsReading used cap }
        ensures { result ≡ curve_value (Knee knee) used cap }
    { past_knee(knee, used, cap) };
    audit_measured(alloc, trace, program, log, options, call)
}

/// Judges a log of a program, with this measure of pressure.
fn audit_measured<S: Source, C: Measure + Copy + Drop>(
    alloc: Global,
    trace: &mut S,
    program: &Program,
    log: &[u8],
    options: Audit,
    call: C,
) -> Result<Judgement, Stop>
    requires curve { AnswersCurve (C.can_measure call) (C.measure_gives call) (Knee options.policy.knee) }
    requires range { AreAuditOptions options }
    ensures { IsJudged (reading_of (program_tree program.now) options) (S.left trace.old) log.now
        (S.faults trace.old) (S.faults trace.new) result }
{
    match monitor_of(alloc, options.policy, call) {
        Ok(monitor) => judgement_of(audit(alloc, program, limits_of(options), monitor, trace, log)),
        Err(AllocError) => Err(Stop::Failed(Fault::Memory)),
    }
}

/// Returns the judgement on the log, or the stop of the command if the audit failed.
fn judgement_of(verdict: Verdict) -> Result<Judgement, Stop>
    ensures { result ≡ judged_as verdict }
{
    match verdict {
        Verdict::Lawful => Ok(Judgement::Lawful),
        Verdict::Unlawful { line } => Ok(Judgement::Unlawful { line }),
        Verdict::Steps { line } => Ok(Judgement::Steps { line }),
        Verdict::ReadFault => Err(Stop::Failed(Fault::Read)),
        Verdict::Memory => Err(Stop::Failed(Fault::Memory)),
    }
}

/// Returns the limits of an audit.
fn limits_of(options: Audit) -> AuditPolicy
    requires { AreAuditOptions options }
    ensures { result ≡ audit_limits options }
{
    let caps = options.policy.caps;
    AuditPolicy {
        chunks: options.policy.chunks + options.policy.extra,
        fuel: options.policy.fuel,
        backlog: options.policy.backlog,
        caps,
        steps: options.steps,
    }
}
