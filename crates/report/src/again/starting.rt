// The start of a repeated run, and its additional data.
ghost use Rattle.std.specs.Prelude.{ℕ, List, ◌≡◌, ◌+◌, ◌*◌, ◌≤◌};
ghost use Rattle.codegen_link.specs.Plans.{AreInRange};
ghost use Rattle.command_options.specs.Options.{IsRunPolicy};
ghost use Rattle.command_words.specs.WordList.{IsWordList, request_of};
ghost use Rattle.pair_commands.specs.Runs.{pool_bytes};
ghost use Rattle.report.specs.Between.{IsBetween};
ghost use Rattle.resource_monitor.specs.Pressure.{AnswersCurve, IsReading, curve_value};
ghost use Rattle.resource_monitor.specs.declared.curves.Curve.TheVariants.{Knee};

use crate::again::choosing::Choosing;
use crate::again::{Told, make_again};
use crate::failures::Failure;
use accepted_pairs::Accepted;
use cap_io::Shelf;
use capriccio_commands::{let_go, made_world};
use codegen_link::Options;
use command_options::monitor_of;
use command_outcomes::{Fault, Stop};
use command_words::{Command, Policy, Rule, read_words};
use pair_commands::{accept_files, accept_source};
use resource_monitor::{Measure, past_knee};
use std::alloc::{AllocError, Global};
use thread_core::World;

/// Repeats the run of these words along its log. Returns `None` if the words are those of no run, a file has changed,
/// the log is of another run, or memory runs out.
///
/// # Errors
///
/// `Read` if a file can't be read.
pub fn make_once_more<F: Shelf>(
    alloc: Global,
    words: &Vec<String>,
    shelf: &mut F,
    log: &[u8],
) -> Result<Option<Told>, Failure> {
    match read_words(alloc, words) {
        Ok(command) => start_command(alloc, command, shelf, log),
        Err(_) => Ok(None),
    }
}

/// Repeats the run for which a command asks.
fn start_command<F: Shelf>(
    alloc: Global,
    command: Command,
    shelf: &mut F,
    log: &[u8],
) -> Result<Option<Told>, Failure>
    requires { (words : List (List ℕ)) × IsWordList words (request_of command) }
{
    match command {
        Command::Serve {
            source,
            placement,
            policy,
        } => {
            let sizes = Options {
                chunk: placement.chunk,
                max_path: placement.max_path,
            };
            start_source(alloc, shelf, source, sizes, policy, log)
        }
        Command::Run {
            source,
            image,
            certificate,
            policy,
        } => start_files(alloc, shelf, source, image, certificate, policy, log),
        _ => Ok(None),
    }
}

/// Repeats the run of a source.
fn start_source<F: Shelf>(
    alloc: Global,
    shelf: &mut F,
    source: &str,
    sizes: Options,
    policy: Policy,
    log: &[u8],
) -> Result<Option<Told>, Failure>
    requires sizes { AreInRange sizes }
    requires range { IsRunPolicy policy }
    requires pool { policy.chunks * sizes.chunk + policy.extra * policy.extra_bytes ≤ 67108864 }
{
    match accept_source(alloc, shelf, source, sizes) {
        Ok(accepted) => Ok(start_accepted(alloc, accepted, policy, log)),
        Err(stop) => end_with(stop),
    }
}

/// Repeats the run of a source with its image and certificate.
fn start_files<F: Shelf>(
    alloc: Global,
    shelf: &mut F,
    source: &str,
    image: &str,
    certificate: &str,
    policy: Policy,
    log: &[u8],
) -> Result<Option<Told>, Failure>
    requires { IsRunPolicy policy }
{
    match accept_files(alloc, shelf, source, image, certificate, policy) {
        Ok(accepted) => Ok(start_accepted(alloc, accepted, policy, log)),
        Err(stop) => end_with(stop),
    }
}

/// Returns the result if the run can't be repeated: `None`, except that a failed read ends the report as it ends a run.
fn end_with(stop: Stop) -> Result<Option<Told>, Failure> {
    match stop {
        Stop::Failed(Fault::Read) => Err(Failure::Read),
        other => {
            drop(other);
            Ok(None)
        }
    }
}

/// Repeats the run of an accepted program, with the policy's knee in the pressure curves of all resources.
fn start_accepted(alloc: Global, accepted: Accepted, policy: Policy, log: &[u8]) -> Option<Told>
    requires range { IsRunPolicy policy }
    requires pool { pool_bytes policy accepted.certificate ≤ 67108864 }
{
    match made_world(alloc, accepted, policy) {
        Ok(mut world) => {
            let knee = policy.knee;
            let call = move |used: u32, cap: u32| -> u32
                requires { (knee ≤ 999) × IsReading used cap }
                ensures { result ≡ curve_value (Knee knee) used cap }
            { past_knee(knee, used, cap) };
            let told = make_measured(alloc, &mut world, policy, log, call);
            let_go(world);
            told
        }
        Err(AllocError) => None,
    }
}

/// Repeats the run of a world, with this measure of pressure.
fn make_measured<C: Measure + Copy + Drop>(
    alloc: Global,
    world: &mut World,
    policy: Policy,
    log: &[u8],
    call: C,
) -> Option<Told>
    requires curve { AnswersCurve (C.can_measure call) (C.measure_gives call) (Knee policy.knee) }
    requires range { IsRunPolicy policy }
    requires between { IsBetween world.old }
{
    let mut caps = policy.caps;
    caps[0] = policy.chunks + policy.extra;
    match monitor_of(alloc, policy, call) {
        Ok(monitor) => {
            let choosing = Choosing::new(alloc, monitor, caps);
            let by_graph = matches!(policy.rule, Rule::Graph);
            make_again(alloc, world, choosing, by_graph, log)
        }
        Err(AllocError) => None,
    }
}
