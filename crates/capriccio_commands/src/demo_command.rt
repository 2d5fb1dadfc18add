// The command `demo`: builds, accepts and runs the workload of a number, and prints a summary of the run.
ghost use Rattle.std.specs.Prelude.{◌≡◌, ◌≤◌, List, MatchResult, Some};
ghost use Rattle.c_tree.specs.ProgramView.{program_tree};
ghost use Rattle.accepted_pairs.specs.Accepting.{accepted_tree};
ghost use Rattle.workload.specs.Programs.{program_text};
ghost use Rattle.workload.specs.Traces.{trace_text};
ghost use Rattle.thread_core.specs.Worlds.{Held};
ghost use Rattle.command_files.specs.Loads.{IsSourceText};
ghost use Rattle.command_outcomes.specs.Outcome.{NoMore};
ghost use Rattle.command_outcomes.specs.Steps.{IsStop};
ghost use Rattle.capriccio_commands.specs.Demos.{Demos, demo_sizes, demo_policy, IsAcceptedWorkload, IsShown, ShowsDue, ShowsEnd};
ghost use Rattle.pair_commands.specs.Runs.{RunsOn, setup_of};
ghost use Rattle.capriccio_commands.specs.Summary.{census_of};
ghost use Rattle.run_course.specs.Output.{IsFitText};
ghost use Rattle.schedule_log.specs.EntryText.{log_text};
ghost use Rattle.schedule_log.specs.declared.entries.Entry.{Entry};

use crate::ended::Ended;
use crate::running::run_accepted;
use crate::summaries::{Census, summary, take_census};
use accepted_pairs::Accepted;
use c_tree::Program;
use cap_io::{CleanSink, CleanSource};
use codegen_link::Options;
use command_files::read_source;
use command_outcomes::{Fault, Stop};
use command_words::{Policy, Rule};
use pair_commands::accept_program;
use std::alloc::{AllocError, Global};
use thread_core::World;
use workload::{make_program, make_trace};

/// The summary of a run that reached its stop, with its status and its world.
#[derive(Drop)]
pub struct Shown {
    /// The status of its stop.
    pub status: u8,
    /// The summary.
    pub text: Vec<u8>,
    /// The world at the stop.
    pub world: World,
}

/// Runs the workload of this number, from 1 to 1,000.
pub(crate) fn show_workload(alloc: Global, number: u32) -> Result<Shown, Stop>
    requires some { 1 ≤ number }
    requires few { number ≤ 1000 }
    ensures { MatchResult result (IsShown (Demos number)) (IsStop (Demos number)) }
{
    let trace = workload_trace(alloc, number)?;
    let accepted = accept_workload(alloc, number)?;
    show_run(alloc, accepted, trace)
}

/// Returns the trace of the workload.
fn workload_trace(alloc: Global, number: u32) -> Result<Vec<u8>, Stop>
    requires some { 1 ≤ number }
    requires few { number ≤ 1000 }
    ensures { MatchResult result (λ trace. trace.items ≡ trace_text number)
        (IsStop (NoMore number)) }
{
    match make_trace(alloc, number) {
        Ok(trace) => Ok(trace),
        Err(AllocError) => Err(Stop::Failed(Fault::Memory)),
    }
}

/// Builds and accepts the workload. Its source is never refused.
fn accept_workload(alloc: Global, number: u32) -> Result<Accepted, Stop>
    requires some { 1 ≤ number }
    requires few { number ≤ 1000 }
    ensures { MatchResult result (IsAcceptedWorkload number) (IsStop (Demos number)) }
{
    let program = workload_program(alloc, number)?;
    accept_program(alloc, program, workload_sizes())
}

/// Returns the program of the workload's source. There always is one.
fn workload_program(alloc: Global, number: u32) -> Result<Program, Stop>
    requires some { 1 ≤ number }
    requires few { number ≤ 1000 }
    ensures { MatchResult result (λ program.
        IsSourceText (program_text number) (program_tree program)) (IsStop (NoMore number)) }
{
    match make_program(alloc, number) {
        Ok(source) => read_source(alloc, source.as_slice()),
        Err(AllocError) => Err(Stop::Failed(Fault::Memory)),
    }
}

/// Returns the sizes for the code generator.
fn workload_sizes() -> Options
    ensures { result ≡ demo_sizes }
{
    Options {
        chunk: 4096,
        max_path: 2032,
    }
}

/// Returns the policy of the run.
fn workload_policy() -> Policy
    ensures { result ≡ demo_policy }
{
    Policy {
        chunks: 2048,
        extra: 0,
        extra_bytes: 64,
        fuel: 1_000_000_000,
        backlog: 1024,
        caps: [0; 8],
        high: 900,
        low: 700,
        rule: Rule::Graph,
        knee: 0,
    }
}

/// Runs an accepted workload on a trace.
fn show_run(alloc: Global, accepted: Accepted, trace: Vec<u8>) -> Result<Shown, Stop>
    requires { accepted.certificate.chunk ≡ demo_sizes.chunk }
    ensures { MatchResult result
        (ShowsDue (RunsOn (Some trace.items)
        (setup_of (accepted_tree accepted) accepted.image accepted.certificate demo_policy))
        (census_of (accepted_tree accepted) accepted.certificate))
        (IsStop (NoMore trace.items)) }
{
    let census = take_census(&accepted);
    let mut source = CleanSource::new(trace);
    let mut log = CleanSink::new(alloc);
    let ended = run_accepted(alloc, accepted, workload_policy(), &mut source, &mut log)?;
    show(alloc, ended, census, log.bytes())
}

/// Returns the summary of a run that ended in this way with this log.
fn show(alloc: Global, ended: Ended, census: Census, log: &[u8]) -> Result<Shown, Stop>
    requires world { (world : Held) × (ended.last ≡ Some world) }
    requires fits { IsFitText log.now }
    ensures { (entries : List Entry) → log.now ≡ log_text entries →
        MatchResult result (ShowsEnd ended census entries) (IsStop (NoMore census)) }
{
    let Ended { status, last } = ended;
    let Some(world) = last else { unreachable!() };
    match summary(alloc, census, log) {
        Ok(text) => Ok(Shown {
            status,
            text,
            world,
        }),
        Err(AllocError) => {
            drop(world);
            Err(Stop::Failed(Fault::Memory))
        }
    }
}
