// The refusal of a program that can't be laid out.
ghost use Rattle.std.specs.Prelude.{◌≡◌, ◌⊎◌, Some, None};
ghost use Rattle.c_tree.specs.ProgramView.{program_tree};
ghost use Rattle.c_lower.specs.ProgramCode.{lowered};
ghost use Rattle.stack_build.specs.Builds.{frame_refusal, IsTooLarge};
ghost use Rattle.stack_build.specs.declared.refusals.BuildError.TheVariants as errors;
ghost use Rattle.pair_commands.specs.BuildsFiles.{IsUnbuilt};
ghost use Rattle.command_outcomes.specs.Steps.{IsStop};

use crate::frames::frame_stop;
use c_tree::Program;
use codegen_link::Options;
use command_outcomes::{Cause, Fault, Stop};
use stack_build::BuildError;
use std::alloc::Global;

/// Returns why a program isn't laid out.
pub(crate) fn layout_stop(
    alloc: Global,
    program: &Program,
    sizes: Options,
    error: BuildError,
) -> Stop
    requires refused { (error ≡ errors.Memory)
        ⊎ ((frame_refusal (lowered (program_tree program.now)) sizes.max_path ≡ Some error)
        ⊎ IsTooLarge (lowered (program_tree program.now)) sizes error) }
    requires frames { IsTooLarge (lowered (program_tree program.now)) sizes error →
        frame_refusal (lowered (program_tree program.now)) sizes.max_path ≡ None }
    ensures { IsStop (IsUnbuilt sizes (program_tree program.now)) result }
{
    match error {
        BuildError::FrameTooLarge { function, bytes } => {
            frame_stop(alloc, program, sizes.max_path, function, bytes)
        }
        BuildError::CodeTooLarge { words } => Stop::Refused(Cause::Code { words }),
        BuildError::Memory => Stop::Failed(Fault::Memory),
    }
}
