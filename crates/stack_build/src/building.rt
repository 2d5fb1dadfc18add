ghost use Rattle.std.specs.Prelude.{◌≡◌, ◌⊎◌, Some, None, IfOk, IfErr, MatchResult};
ghost use Rattle.c_tree.specs.ProgramView.{program_tree};
ghost use Rattle.accepted_pairs.specs.Accepting.{accepted_tree};
ghost use Rattle.certificate_rules.specs.Validity.{IsValid};
ghost use Rattle.c_lower.specs.ProgramCode.{lowered};
ghost use Rattle.codegen_link.specs.Plans.{AreInRange};
ghost use Rattle.stack_build.specs.declared.refusals.BuildError.TheVariants.{Memory};
ghost use Rattle.stack_build.specs.Builds.{frame_refusal, IsTooLarge, IsLaidOut};

use crate::refusals::BuildError;
use accepted_pairs::Accepted;
use c_lower::lower;
use c_tree::Program;
use certificate_check::{CheckError, check};
use codegen_link::{Options, generate};
use stack_certificate::Certificate;
use stack_image::Image;
use stack_plan::plan_of;
use std::alloc::Global;

/// The result of building a program.
#[derive(Drop)]
pub struct Built {
    pub image: Image,
    pub certificate: Certificate,
}

/// Returns the image and the certificate of a program, laid out for the placement; they meet every rule of the
/// checker.
///
/// # Errors
///
/// `FrameTooLarge` exactly if a frame exceeds `options.max_path` or 2,032 bytes, with the first such function, unless
/// memory runs out; `CodeTooLarge` only if none does and the code of the placement has more than 200,000 words;
/// `Memory` if an allocation fails.
pub fn lay_out(alloc: Global, program: &Program, options: Options) -> Result<Built, BuildError>
    requires { AreInRange options }
    ensures refused { IfErr result (λ error. (error ≡ Memory)
        ⊎ ((frame_refusal (lowered (program_tree program.now)) options.max_path ≡ Some error)
        ⊎ IsTooLarge (lowered (program_tree program.now)) options error)) }
    // Frames take precedence: no frame is too large if there is a pair, or if the code is too large.
    ensures frames { MatchResult result (λ _.
        frame_refusal (lowered (program_tree program.now)) options.max_path ≡ None)
        (λ error. IsTooLarge (lowered (program_tree program.now)) options error →
        frame_refusal (lowered (program_tree program.now)) options.max_path ≡ None) }
    ensures laid_out { IfOk result (λ build.
        IsLaidOut (lowered (program_tree program.now)) options build.image build.certificate) }
    ensures valid { IfOk result (λ build.
        IsValid (lowered (program_tree program.now)) build.image build.certificate) }
{
    let flat = lower(alloc, program)?;
    let planned = plan_of(alloc, &flat, options.max_path)?;
    let (image, certificate) = generate(alloc, &flat, &planned.plan, options)?;
    Ok(Built { image, certificate })
}

/// Returns the accepted program: its image and its certificate are laid out for the placement, and the checker
/// accepts them.
///
/// # Errors
///
/// Those of `lay_out`; the program is then dropped.
pub fn build(alloc: Global, program: Program, options: Options) -> Result<Accepted, BuildError>
    requires { AreInRange options }
    ensures refused { IfErr result (λ error. (error ≡ Memory)
        ⊎ ((frame_refusal (lowered (program_tree program)) options.max_path ≡ Some error)
        ⊎ IsTooLarge (lowered (program_tree program)) options error)) }
    ensures frames { MatchResult result (λ _.
        frame_refusal (lowered (program_tree program)) options.max_path ≡ None)
        (λ error. IsTooLarge (lowered (program_tree program)) options error →
        frame_refusal (lowered (program_tree program)) options.max_path ≡ None) }
    ensures program { IfOk result (λ accepted. accepted_tree accepted ≡ program_tree program) }
    ensures laid_out { IfOk result (λ accepted.
        IsLaidOut (lowered (program_tree program)) options accepted.image accepted.certificate) }
    ensures valid { IfOk result (λ accepted.
        IsValid (lowered (program_tree program)) accepted.image accepted.certificate) }
{
    let built = lay_out(alloc, &program, options)?;
    match check(alloc, program, built.image, built.certificate) {
        Ok(accepted) => Ok(accepted),
        Err(CheckError::Memory { .. }) => Err(BuildError::Memory),
        Err(CheckError::Rejected { .. }) => unreachable!(),
    }
}
