// The refusal of a frame that is too large.
ghost use Rattle.std.specs.Prelude.{◌≡◌, Some};
ghost use Rattle.c_tree.specs.ProgramView.{program_tree};
ghost use Rattle.c_lower.specs.ProgramCode.{lowered};
ghost use Rattle.stack_build.specs.Builds.{frame_refusal};
ghost use Rattle.stack_build.specs.declared.refusals.BuildError.TheVariants.{FrameTooLarge};
ghost use Rattle.pair_commands.specs.Graphs.{IsFrameRefused};
ghost use Rattle.command_outcomes.specs.Steps.{IsStop};

use c_tree::Program;
use command_outcomes::{Cause, Fault, Stop};
use std::alloc::Global;

/// Returns the refusal of the first function whose frame is too large for paths of this many bytes.
pub(crate) fn frame_stop(
    alloc: Global,
    program: &Program,
    max_path: u32,
    function: u32,
    bytes: u32,
) -> Stop
    requires { frame_refusal (lowered (program_tree program.now)) max_path
        ≡ Some (FrameTooLarge function bytes) }
    ensures { IsStop (IsFrameRefused (program_tree program.now) max_path) result }
{
    let functions = program.functions();
    match Vec::from_slice(alloc, functions[function as usize].name.as_slice()) {
        Ok(name) => Stop::Refused(Cause::Frame { name, bytes }),
        Err(_) => Stop::Failed(Fault::Memory),
    }
}
