// The command for which the words ask.
ghost use Rattle.std.specs.Prelude.{List, ℕ, ◌≡◌, map};
ghost use Rattle.std.specs.String.{string_bytes};
ghost use Rattle.command_words.specs.WordList.{IsWordList, request_of};
ghost use Rattle.command_options.specs.Options.{sizes_of};
ghost use Rattle.command_outcomes.specs.Done.{Outside, outside_by};
ghost use Rattle.command_outcomes.specs.Steps.{EndsAs};
ghost use Rattle.capriccio_commands.specs.Ends.{IsEnd};
ghost use Rattle.capriccio_call.specs.Due.{Does, IsDue};
ghost use Rattle.capriccio_call.specs.Handing.{without_world};

use cap_io::{Shelf, Sink, Source};
use capriccio_commands::{Ended, demo, run_pair, serve};
use codegen_link::Options;
use command_audit::do_audit;
use command_outcomes::{Cause, Fault, Stop};
use command_words::{Command, Placement, WordsError, read_words};
use pair_commands::{do_budget, do_build, do_check, do_graph};
use std::alloc::Global;

/// Does what the words ask, and returns how it ended.
pub(crate) fn do_words<F: Shelf, S: Source, K: Sink>(
    alloc: Global,
    words: &Vec<String>,
    shelf: &mut F,
    trace: &mut S,
    out: &mut K,
) -> Result<Ended, Stop>
    ensures { let outside = outside_by F.files F.load_faults F.store_faults S.left S.faults K.taken
        K.faults in
        let before : Outside = outside shelf.old trace.old out.old in
        let after : Outside = outside shelf.new trace.new out.new in
        EndsAs IsEnd (IsDue (map (λ word. string_bytes word) words.now.items) before) before after
        result }
{
    match read_words(alloc, words) {
        Ok(command) => do_command(alloc, shelf, trace, out, command),
        Err(WordsError::NotWords) => Err(Stop::Refused(Cause::Usage)),
        Err(WordsError::Memory) => Err(Stop::Failed(Fault::Memory)),
    }
}

/// Does a command.
fn do_command<F: Shelf, S: Source, K: Sink>(
    alloc: Global,
    shelf: &mut F,
    trace: &mut S,
    out: &mut K,
    command: Command,
) -> Result<Ended, Stop>
    requires { (words : List (List ℕ)) × IsWordList words (request_of command) }
    ensures { let outside = outside_by F.files F.load_faults F.store_faults S.left S.faults K.taken
        K.faults in
        let before : Outside = outside shelf.old trace.old out.old in
        let after : Outside = outside shelf.new trace.new out.new in
        EndsAs IsEnd (Does (request_of command.entry) before) before after result }
{
    match command {
        Command::Graph { source, placement } => {
            ended_without_world(do_graph(alloc, shelf, out, source, options_of(placement)))
        }
        Command::Check {
            source,
            image,
            certificate,
        } => ended_without_world(do_check(alloc, shelf, out, source, image, certificate)),
        Command::Serve {
            source,
            placement,
            policy,
        } => serve(
            alloc,
            shelf,
            trace,
            out,
            source,
            options_of(placement),
            policy,
        ),
        Command::Run {
            source,
            image,
            certificate,
            policy,
        } => run_pair(alloc, shelf, trace, out, source, image, certificate, policy),
        Command::Build {
            source,
            image,
            certificate,
            placement,
        } => ended_without_world(do_build(
            alloc,
            shelf,
            out,
            source,
            image,
            certificate,
            options_of(placement),
        )),
        Command::Demo { number } => demo(alloc, out, number),
        Command::Audit {
            source,
            log,
            options,
        } => ended_without_world(do_audit(alloc, shelf, trace, out, source, log, options)),
        Command::Budget {
            source,
            image,
            certificate,
        } => ended_without_world(do_budget(alloc, shelf, out, source, image, certificate)),
    }
}

/// Returns the sizes that the words give.
fn options_of(placement: Placement) -> Options
    ensures { result ≡ sizes_of placement }
{
    Options {
        chunk: placement.chunk,
        max_path: placement.max_path,
    }
}

/// Returns the end of a command without a run: it has no world.
fn ended_without_world(answer: Result<u8, Stop>) -> Result<Ended, Stop>
    ensures { result ≡ without_world answer }
{
    match answer {
        Ok(status) => Ok(Ended { status, last: None }),
        Err(stop) => Err(stop),
    }
}
