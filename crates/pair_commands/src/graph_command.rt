// The command `graph`: the stack that the calls of a source need.
ghost use Rattle.std.specs.Prelude.{ℕ, List, Option, ◌≡◌, ◌≤◌, length, ◌⊎◌, Some, MatchResult};
ghost use Rattle.cap_io.specs.Files.{KeepsFiles};
ghost use Rattle.c_tree.specs.ProgramView.{program_tree};
ghost use Rattle.c_lower.specs.ProgramCode.{lowered};
ghost use Rattle.stack_build.specs.Builds.{frame_refusal, IsPlacedBy};
ghost use Rattle.stack_build.specs.declared.refusals.BuildError.TheVariants as errors;
ghost use Rattle.stack_plan.specs.Plans.{IsEnough};
ghost use Rattle.command_outcomes.specs.Done.{Outside, outside_beside};
ghost use Rattle.command_outcomes.specs.Outcome.{printed};
ghost use Rattle.command_files.specs.Loads.{AfterSource};
ghost use Rattle.pair_commands.specs.Graphs.{Graphs, GraphsProgram, IsFrameRefused, IsAnalysed};
ghost use Rattle.command_outcomes.specs.Steps.{EndsAs, IsStatus, IsStop, IsShelfStop};

use crate::frames::frame_stop;
use analysis_lines::{Findings, analysis_text};
use c_tree::Program;
use cap_io::{Shelf, Sink};
use codegen_link::Options;
use command_files::{load, read_source};
use command_outcomes::{Document, Fault, Stop, print};
use stack_build::{Analysis, BuildError, analyse};
use std::alloc::{AllocError, Global};

/// Does the command `graph`: writes the analysis of a source to `out`: a line for each function and each call site.
/// Returns status 0.
///
/// # Errors
///
/// `Refused` if the source is absent, too long or no program, or a frame is too large. `Failed` with `Read` or `Write`
/// only if a load or a write failed, and with `Memory` if an allocation fails.
pub fn do_graph<F: Shelf, K: Sink>(
    alloc: Global,
    shelf: &mut F,
    out: &mut K,
    source: &str,
    options: Options,
) -> Result<u8, Stop>
    ensures { (left : Option (List ℕ)) (reads : ℕ) →
        let outside = outside_beside F.files F.load_faults F.store_faults left reads K.taken K.faults in
        let before : Outside = outside shelf.old out.old in
        let after : Outside = outside shelf.new out.new in
        EndsAs IsStatus (Graphs before.files source.now options.max_path) before after result }
{
    let text = graph_source(alloc, shelf, source, options)?;
    print(out, text.as_slice(), 0)
}

/// Returns the text of the analysis of the source of this name.
fn graph_source<F: Shelf>(
    alloc: Global,
    shelf: &mut F,
    name: &str,
    options: Options,
) -> Result<Vec<u8>, Stop>
    ensures answer { MatchResult result
        (λ text. Graphs (F.files shelf.old) name.now options.max_path (printed 0 text.items)
        × (F.load_faults shelf.new ≡ F.load_faults shelf.old))
        (IsShelfStop (Graphs (F.files shelf.old) name.now options.max_path)
        (F.load_faults shelf.old) (F.load_faults shelf.new)) }
    ensures files { KeepsFiles (F.files shelf.old) (F.files shelf.new) }
    ensures stores { F.store_faults shelf.new ≡ F.store_faults shelf.old }
{
    let source = load(alloc, shelf, Document::Source, name)?;
    graph_bytes(alloc, source.as_slice(), options)
}

/// Returns the text of the analysis of a source of these bytes.
fn graph_bytes(alloc: Global, source: &[u8], options: Options) -> Result<Vec<u8>, Stop>
    requires { length source.now ≤ 1048576 }
    ensures { MatchResult result
        (λ text. AfterSource source.now (GraphsProgram options.max_path) (printed 0 text.items))
        (IsStop (AfterSource source.now (GraphsProgram options.max_path))) }
{
    let program = read_source(alloc, source)?;
    let text = graph_program(alloc, &program, options);
    drop(program);
    text
}

/// Returns the text of the analysis of a program.
fn graph_program(alloc: Global, program: &Program, options: Options) -> Result<Vec<u8>, Stop>
    ensures { MatchResult result
        (λ text. GraphsProgram options.max_path (program_tree program.now) (printed 0 text.items))
        (IsStop (GraphsProgram options.max_path (program_tree program.now))) }
{
    let analysis = match analyse(alloc, program, options) {
        Ok(analysis) => analysis,
        Err(error) => return Err(analysis_stop(alloc, program, options.max_path, error)),
    };
    text_of(alloc, program, &analysis, options.max_path)
}

/// Returns why a program isn't analysed for paths of at most `max_path` bytes.
fn analysis_stop(alloc: Global, program: &Program, max_path: u32, error: BuildError) -> Stop
    requires { (error ≡ errors.Memory)
        ⊎ (frame_refusal (lowered (program_tree program.now)) max_path ≡ Some error) }
    ensures { IsStop (IsFrameRefused (program_tree program.now) max_path) result }
{
    match error {
        BuildError::FrameTooLarge { function, bytes } => {
            frame_stop(alloc, program, max_path, function, bytes)
        }
        BuildError::CodeTooLarge { .. } => unreachable!(),
        BuildError::Memory => Stop::Failed(Fault::Memory),
    }
}

/// Returns the text of a program's analysis for paths of at most `max_path` bytes.
fn text_of(
    alloc: Global,
    program: &Program,
    analysis: &Analysis,
    max_path: u32,
) -> Result<Vec<u8>, Stop>
    requires planned { IsPlacedBy (lowered (program_tree program.now)) max_path
        (record {
          weights = analysis.now.weights;
          tables = (program_tree program.now).tables;
          sites = analysis.now.sites.items;
          main = (program_tree program.now).main;
        })
        analysis.now.back
        (record { checkpointed = analysis.now.checkpointed; bounds = analysis.now.bounds }) }
    requires enough { IsEnough (lowered (program_tree program.now)) max_path
        (record { checkpointed = analysis.now.checkpointed; bounds = analysis.now.bounds }) }
    ensures { MatchResult result (λ text. IsAnalysed (program_tree program.now) max_path text.items)
        (IsStop (λ _. ⊥)) }
{
    let text = analysis_text(
        alloc,
        Findings {
            functions: program.functions(),
            weights: analysis.weights.as_slice(),
            bounds: analysis.bounds.as_slice(),
            sites: analysis.sites.as_slice(),
            back: analysis.back.as_slice(),
            checkpointed: analysis.checkpointed.as_slice(),
        },
    );
    match text {
        Ok(text) => Ok(text),
        Err(AllocError) => Err(Stop::Failed(Fault::Memory)),
    }
}
