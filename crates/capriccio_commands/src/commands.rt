// The commands that run a program, over the objects that are passed to them.
ghost use Rattle.std.specs.Prelude.{ℕ, List, Option, ◌+◌, ◌≤◌, ◌*◌};
ghost use Rattle.codegen_link.specs.Plans.{AreInRange};
ghost use Rattle.command_options.specs.Options.{IsRunPolicy};
ghost use Rattle.command_outcomes.specs.Done.{Outside, outside_by};
ghost use Rattle.command_outcomes.specs.Steps.{EndsAs};
ghost use Rattle.pair_commands.specs.Runs.{Serves, Runs};
ghost use Rattle.capriccio_commands.specs.Demos.{Demos};
ghost use Rattle.capriccio_commands.specs.Ends.{IsEnd};
ghost use Rattle.cap_io.specs.Files.{Files};

use crate::demo_command::{Shown, show_workload};
use crate::ended::Ended;
use crate::running::run_accepted;
use cap_io::{Shelf, Sink, Source};
use codegen_link::Options;
use command_outcomes::{Stop, print};
use command_words::Policy;
use pair_commands::{accept_files, accept_source};
use std::alloc::Global;

/// Does the command `serve`: builds, checks and runs the source on the trace, and writes the log to `out`. Returns the
/// status of the run's stop, and the world at the stop.
///
/// Sizes and policy are in the ranges of their options, and all chunks together have at most 67,108,864 bytes.
///
/// # Errors
///
/// `Refused` if the source is absent, too long or no program, or a frame or the code is too large. `Failed` with `Read`
/// or `Write` only if a load, a read of the trace or a write failed; `out` then has a prefix of the log. `Failed` with
/// `Memory` if an allocation fails.
pub fn serve<F: Shelf, S: Source, K: Sink>(
    alloc: Global,
    shelf: &mut F,
    trace: &mut S,
    out: &mut K,
    source: &str,
    sizes: Options,
    policy: Policy,
) -> Result<Ended, Stop>
    requires sizes { AreInRange sizes }
    requires policy { IsRunPolicy policy }
    requires pool { policy.chunks * sizes.chunk + policy.extra * policy.extra_bytes ≤ 67108864 }
    ensures { let outside = outside_by F.files F.load_faults F.store_faults S.left S.faults K.taken
        K.faults in
        let before : Outside = outside shelf.old trace.old out.old in
        let after : Outside = outside shelf.new trace.new out.new in
        EndsAs IsEnd (Serves before.files before.left source.now sizes policy) before after result }
{
    let accepted = accept_source(alloc, shelf, source, sizes)?;
    run_accepted(alloc, accepted, policy, trace, out)
}

/// Does the command `run`: checks a source, an image and a certificate, runs them on the trace, and writes the log to
/// `out`. Returns the status of the run's stop, and the world at the stop.
///
/// The policy is in the ranges of its options.
///
/// # Errors
///
/// `Refused` if a file is absent, too long or malformed, the pair breaks a rule of the certificate, or the pool is too
/// large. `Failed` with `Read` or `Write` only if a load, a read of the trace or a write failed; `out` then has a
/// prefix of the log. `Failed` with `Memory` if an allocation fails.
pub fn run_pair<F: Shelf, S: Source, K: Sink>(
    alloc: Global,
    shelf: &mut F,
    trace: &mut S,
    out: &mut K,
    source: &str,
    image: &str,
    certificate: &str,
    policy: Policy,
) -> Result<Ended, Stop>
    requires { IsRunPolicy policy }
    ensures { let outside = outside_by F.files F.load_faults F.store_faults S.left S.faults K.taken
        K.faults in
        let before : Outside = outside shelf.old trace.old out.old in
        let after : Outside = outside shelf.new trace.new out.new in
        EndsAs IsEnd (Runs before.files before.left source.now image.now certificate.now policy) before
        after result }
{
    let accepted = accept_files(alloc, shelf, source, image, certificate, policy)?;
    run_accepted(alloc, accepted, policy, trace, out)
}

/// Does the command `demo`: builds the workload of `number`, runs it, and writes the summary to `out`. Returns the
/// status of the run's stop, and the world at the stop.
///
/// The number is from 1 to 1,000.
///
/// # Errors
///
/// `Failed` with `Write` only if a write failed; `out` then has a prefix of the summary. `Failed` with `Memory` if an
/// allocation fails. It never refuses.
pub fn demo<K: Sink>(alloc: Global, out: &mut K, number: u32) -> Result<Ended, Stop>
    requires some { 1 ≤ number }
    requires few { number ≤ 1000 }
    ensures { (files : Option Files) (loads stores : ℕ) (left : Option (List ℕ)) (reads : ℕ) →
        let before : Outside = record {
          files = files;
          loads = loads;
          stores = stores;
          left = left;
          reads = reads;
          taken = K.taken out.old;
          writes = K.faults out.old;
        } in
        let after : Outside = record {
          files = files;
          loads = loads;
          stores = stores;
          left = left;
          reads = reads;
          taken = K.taken out.new;
          writes = K.faults out.new;
        } in
        EndsAs IsEnd (Demos number) before after result }
{
    let Shown {
        status,
        text,
        world,
    } = show_workload(alloc, number)?;
    match print(out, text.as_slice(), status) {
        Ok(told) => Ok(Ended {
            status: told,
            last: Some(world),
        }),
        Err(stop) => {
            drop(world);
            Err(stop)
        }
    }
}
