ghost use Rattle.std.specs.Prelude.{◌≡◌, ◌+◌, List, Some, ℕ};
ghost use Rattle.c_lower.specs.ProgramCode.{lowered};
ghost use Rattle.c_mean.specs.World as source;
ghost use Rattle.c_tree.specs.Trees.{ProgramTree};
ghost use Rattle.c_tree.specs.WellScoped.{IsWellScoped};
ghost use Rattle.certificate_rules.specs.Validity.{IsValid};
ghost use Rattle.machine_world.specs.Runs.{Pick, after_action, world_of};
ghost use Rattle.machine_world.specs.Stretches.{IsGoodStretch};
ghost use Rattle.machine_world.specs.Threads.{Setting, World, step};
ghost use Rattle.machine_world.specs.WellFormed.{IsWellFormed};
ghost use Rattle.stack_certificate.specs.declared.certificates.Certificate.{Certificate};
ghost use Rattle.stack_image.specs.declared.images.Image.{Image};
ghost use Rattle.segment_laws.specs.Silent.{GoesOn};
ghost use Rattle.machine_meaning.specs.Running.{IsRunning, KeepsRunning};
ghost use Rattle.machine_meaning.specs.Reached.{IsReached};
ghost use Rattle.machine_meaning.specs.UnderWay.{IsSettled};

/// Laws of many steps: from a well-formed world of a valid pair whose threads rest, the pick of a thread begins a
/// segment that is running, and each step keeps it running, or at its end leaves threads that rest. Silent steps are a
/// good stretch, also together with the next step; and they leave the source's run unchanged.
pub fn running_laws()
    ensures picks { (program : ProgramTree) (image : Image) (certificate : Certificate) (s : Setting) (w after : World) (number : ℕ) → IsWellScoped program → IsValid (lowered program) image certificate → s.code ≡ image.code →
        IsWellFormed (record { flat = lowered program; certificate = certificate }) s w → IsSettled (record { flat = lowered program; certificate = certificate }) w → after_action s w (Pick number) ≡ Some after →
        IsRunning (record { flat = lowered program; certificate = certificate }) program s after }
    ensures steps { (program : ProgramTree) (image : Image) (certificate : Certificate) (s : Setting) (w : World) → IsWellScoped program → IsValid (lowered program) image certificate → s.code ≡ image.code →
        IsWellFormed (record { flat = lowered program; certificate = certificate }) s w → IsRunning (record { flat = lowered program; certificate = certificate }) program s w → KeepsRunning (record { flat = lowered program; certificate = certificate }) program s (step s w) }
    ensures stretch { (program : ProgramTree) (image : Image) (certificate : Certificate) (s : Setting) (n : ℕ) (w at : World) → IsWellScoped program → IsValid (lowered program) image certificate → s.code ≡ image.code →
        IsWellFormed (record { flat = lowered program; certificate = certificate }) s w → IsRunning (record { flat = lowered program; certificate = certificate }) program s w → GoesOn s n w at →
        IsGoodStretch (record { flat = lowered program; certificate = certificate }) s n w × IsRunning (record { flat = lowered program; certificate = certificate }) program s at × IsWellFormed (record { flat = lowered program; certificate = certificate }) s at }
    ensures stretch_on { (program : ProgramTree) (image : Image) (certificate : Certificate) (s : Setting) (n : ℕ) (w at after : World) → IsWellScoped program → IsValid (lowered program) image certificate → s.code ≡ image.code →
        IsWellFormed (record { flat = lowered program; certificate = certificate }) s w → IsRunning (record { flat = lowered program; certificate = certificate }) program s w → GoesOn s n w at → world_of (step s at) ≡ Some after →
        IsGoodStretch (record { flat = lowered program; certificate = certificate }) s (n + 1) w }
    ensures source { (program : ProgramTree) (image : Image) (certificate : Certificate) (s : Setting) (n : ℕ) (w at : World) (start : source.World) (number : ℕ) (puts : List ℕ) → IsWellScoped program → IsValid (lowered program) image certificate → s.code ≡ image.code →
        IsWellFormed (record { flat = lowered program; certificate = certificate }) s w → IsReached (record { flat = lowered program; certificate = certificate }) program s start number puts w → GoesOn s n w at →
        IsReached (record { flat = lowered program; certificate = certificate }) program s start number puts at }
{}
