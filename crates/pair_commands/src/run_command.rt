// The commands `serve` and `run`: they run a program that the checker accepts on the trace.
ghost use Rattle.std.specs.Prelude.{◌≡◌, ◌≤◌, ℕ, List, Option, length, MatchResult};
ghost use Rattle.cap_io.specs.Files.{KeepsFiles};
ghost use Rattle.c_tree.specs.ProgramView.{program_tree};
ghost use Rattle.accepted_pairs.specs.Accepting.{accepted_tree};
ghost use Rattle.codegen_link.specs.Plans.{AreInRange};
ghost use Rattle.command_words.specs.declared.options.Policy.{Policy as RunOptions};
ghost use Rattle.command_files.specs.Loads.{AfterSource};
ghost use Rattle.pair_commands.specs.Runs.{Serves, ServesProgram, Runs, RunsBytes, RunsPair, pool_bytes};
ghost use Rattle.command_options.specs.Options.{IsRunPolicy};
ghost use Rattle.pair_commands.specs.RunSteps.{LeadsOn, IsUnaccepted};
ghost use Rattle.command_outcomes.specs.Steps.{IsStop, IsShelfStop};

use crate::layouts::layout_stop;
use crate::pairs::{ReadPair, read_pair};
use accepted_pairs::Accepted;
use c_tree::Program;
use cap_io::Shelf;
use certificate_check::{CheckError, check};
use codegen_link::Options;
use command_files::{load, load_three, read_source};
use command_outcomes::{Cause, Document, Fault, Stop};
use command_words::Policy;
use stack_build::lay_out;
use stack_certificate::Certificate;
use stack_image::Image;
use std::alloc::Global;

/// Loads, builds and accepts the source of this name.
pub fn accept_source<F: Shelf>(
    alloc: Global,
    shelf: &mut F,
    name: &str,
    sizes: Options,
) -> Result<Accepted, Stop>
    requires { AreInRange sizes }
    ensures answer { (trace : Option (List ℕ)) (policy : RunOptions) → MatchResult result
        (λ accepted.
        LeadsOn trace policy accepted (Serves (F.files shelf.old) trace name.now sizes policy)
        × (accepted.certificate.chunk ≡ sizes.chunk)
        × (F.load_faults shelf.new ≡ F.load_faults shelf.old))
        (IsShelfStop (Serves (F.files shelf.old) trace name.now sizes policy)
        (F.load_faults shelf.old) (F.load_faults shelf.new)) }
    ensures files { KeepsFiles (F.files shelf.old) (F.files shelf.new) }
    ensures stores { F.store_faults shelf.new ≡ F.store_faults shelf.old }
{
    let source = load(alloc, shelf, Document::Source, name)?;
    accept_source_bytes(alloc, source.as_slice(), sizes)
}

/// Builds and accepts a source of these bytes.
fn accept_source_bytes(alloc: Global, source: &[u8], sizes: Options) -> Result<Accepted, Stop>
    requires range { AreInRange sizes }
    requires few { length source.now ≤ 1048576 }
    ensures { (trace : Option (List ℕ)) (policy : RunOptions) → MatchResult result
        (λ accepted.
        LeadsOn trace policy accepted (AfterSource source.now (ServesProgram trace sizes policy))
        × (accepted.certificate.chunk ≡ sizes.chunk))
        (IsStop (AfterSource source.now (ServesProgram trace sizes policy))) }
{
    let program = read_source(alloc, source)?;
    accept_program(alloc, program, sizes)
}

/// Builds and accepts a program.
pub fn accept_program(alloc: Global, program: Program, sizes: Options) -> Result<Accepted, Stop>
    requires { AreInRange sizes }
    ensures { (trace : Option (List ℕ)) (policy : RunOptions) → MatchResult result
        (λ accepted.
        LeadsOn trace policy accepted (ServesProgram trace sizes policy (program_tree program))
        × (accepted.certificate.chunk ≡ sizes.chunk))
        (IsStop (ServesProgram trace sizes policy (program_tree program))) }
{
    let built = match lay_out(alloc, &program, sizes) {
        Ok(built) => built,
        Err(error) => {
            let stop = layout_stop(alloc, &program, sizes, error);
            drop(program);
            return Err(stop);
        }
    };
    match check(alloc, program, built.image, built.certificate) {
        Ok(accepted) => Ok(accepted),
        Err(
            CheckError::Memory {
                program,
                image,
                certificate,
            },
        ) => {
            drop(program);
            drop(image);
            drop(certificate);
            Err(Stop::Failed(Fault::Memory))
        }
        Err(CheckError::Rejected { .. }) => unreachable!(),
    }
}

/// Loads and accepts the files of these names, and checks the size of the pool.
pub fn accept_files<F: Shelf>(
    alloc: Global,
    shelf: &mut F,
    source_name: &str,
    image_name: &str,
    certificate_name: &str,
    policy: Policy,
) -> Result<Accepted, Stop>
    requires { IsRunPolicy policy }
    ensures answer { (trace : Option (List ℕ)) → MatchResult result
        (λ accepted.
        LeadsOn trace policy accepted
        (Runs (F.files shelf.old) trace source_name.now image_name.now certificate_name.now policy)
        × (pool_bytes policy accepted.certificate ≤ 67108864)
        × (F.load_faults shelf.new ≡ F.load_faults shelf.old))
        (IsShelfStop
        (Runs (F.files shelf.old) trace source_name.now image_name.now certificate_name.now policy)
        (F.load_faults shelf.old) (F.load_faults shelf.new)) }
    ensures files { KeepsFiles (F.files shelf.old) (F.files shelf.new) }
    ensures stores { F.store_faults shelf.new ≡ F.store_faults shelf.old }
{
    let files = load_three(alloc, shelf, source_name, image_name, certificate_name)?;
    accept_bytes(
        alloc,
        files.source.as_slice(),
        files.image.as_slice(),
        files.certificate.as_slice(),
        policy,
    )
}

/// Accepts files of these bytes.
fn accept_bytes(
    alloc: Global,
    source: &[u8],
    image: &[u8],
    certificate: &[u8],
    policy: Policy,
) -> Result<Accepted, Stop>
    requires few { length source.now ≤ 1048576 }
    requires range { IsRunPolicy policy }
    ensures { (trace : Option (List ℕ)) → MatchResult result
        (λ accepted.
        LeadsOn trace policy accepted (RunsBytes trace policy source.now image.now certificate.now)
        × (pool_bytes policy accepted.certificate ≤ 67108864))
        (IsStop (RunsBytes trace policy source.now image.now certificate.now)) }
{
    let ReadPair {
        program,
        image,
        certificate,
    } = read_pair(alloc, source, image, certificate)?;
    accept_pair(alloc, program, image, certificate, policy)
}

/// Accepts a program with its image and certificate.
fn accept_pair(
    alloc: Global,
    program: Program,
    image: Image,
    certificate: Certificate,
    policy: Policy,
) -> Result<Accepted, Stop>
    requires { IsRunPolicy policy }
    ensures { (trace : Option (List ℕ)) → MatchResult result
        (λ accepted.
        LeadsOn trace policy accepted
        (RunsPair trace policy (program_tree program) image certificate)
        × (pool_bytes policy accepted.certificate ≤ 67108864))
        (IsStop (RunsPair trace policy (program_tree program) image certificate)) }
{
    match check(alloc, program, image, certificate) {
        Ok(accepted) => within_pool(accepted, policy),
        Err(error) => Err(check_stop(error)),
    }
}

/// Returns why a pair isn't accepted.
pub(crate) fn check_stop(error: CheckError) -> Stop
    ensures { IsUnaccepted error result }
{
    let stop = stop_of(&error);
    drop(error);
    stop
}

/// Returns the stop of a checker's error, which still has the pair.
fn stop_of(error: &CheckError) -> Stop
    ensures { IsUnaccepted error.now result }
{
    match error {
        CheckError::Rejected {
            rule,
            function,
            index,
            ..
        } => Stop::Refused(Cause::Rejected {
            rule: *rule,
            function: *function,
            index: *index,
        }),
        CheckError::Memory { .. } => Stop::Failed(Fault::Memory),
    }
}

/// Returns the accepted program, if the pool of this policy isn't too large.
fn within_pool(accepted: Accepted, policy: Policy) -> Result<Accepted, Stop>
    requires { IsRunPolicy policy }
    ensures { (trace : Option (List ℕ)) → MatchResult result
        (λ within. LeadsOn trace policy within
        (RunsPair trace policy (accepted_tree accepted) accepted.image accepted.certificate)
        × (pool_bytes policy within.certificate ≤ 67108864))
        (IsStop (RunsPair trace policy
        (accepted_tree accepted) accepted.image accepted.certificate)) }
{
    accepted.is_valid();
    let extra_bytes = u64::from(policy.extra) * u64::from(policy.extra_bytes);
    let bytes = u64::from(policy.chunks) * u64::from(accepted.certificate().chunk) + extra_bytes;
    if bytes > 67_108_864 {
        drop(accepted);
        Err(Stop::Refused(Cause::Pool { bytes }))
    } else {
        Ok(accepted)
    }
}
