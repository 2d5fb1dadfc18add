// What is laid out is read back.
ghost use Rattle.c_tree.specs.Trees.{ProgramTree};
ghost use Rattle.c_tree.specs.WellScoped.{IsWellScoped};
ghost use Rattle.c_lower.specs.ProgramCode.{lowered};
ghost use Rattle.codegen_link.specs.Plans.{AreInRange};
ghost use Rattle.codegen_link.specs.declared.options.Options.{Options};
ghost use Rattle.machine_world.specs.WellFormed.{AreWords};
ghost use Rattle.stack_build.specs.Builds.{IsLaidOut};
ghost use Rattle.stack_image.specs.declared.images.Image.{Image};
ghost use Rattle.stack_certificate.specs.declared.certificates.Certificate.{Certificate};
ghost use Rattle.pair_commands.specs.BuildsFiles.{HasFittingCode};
ghost use Rattle.pair_commands.specs.Graphs.{HasFittingFrames};
ghost use Rattle.decisions.specs.ReadAgain.{IsReadAgain};

/// Law: the pair that is laid out for a well-scoped program is valid, and is read back from its files, if no frame is
/// too large and the code isn't, the sizes are in their ranges, and the globals start with words.
pub fn laid_out_is_read_again()
    ensures { (program : ProgramTree) (sizes : Options) (i : Image) (c : Certificate) → IsWellScoped program → AreInRange sizes →
        HasFittingFrames program sizes.max_path → HasFittingCode program sizes → AreWords i.globals → IsLaidOut (lowered program) sizes i c →
        IsReadAgain program i c }
{}
