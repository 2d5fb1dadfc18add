ghost use Rattle.std.specs.Prelude.{◌≡◌, [], List, Some, ℕ};
ghost use Rattle.c_lower.specs.ProgramCode.{lowered};
ghost use Rattle.c_mean.specs.World as source;
ghost use Rattle.c_mean.specs.World.{Segment};
ghost use Rattle.c_tree.specs.Trees.{ProgramTree};
ghost use Rattle.c_tree.specs.WellScoped.{IsWellScoped};
ghost use Rattle.certificate_rules.specs.Validity.{IsValid};
ghost use Rattle.machine_world.specs.Places.{Checked};
ghost use Rattle.machine_world.specs.Runs.{Pick, after_action};
ghost use Rattle.machine_world.specs.Stretches.{IsFramedNext, IsSound};
ghost use Rattle.machine_world.specs.Threads.{Setting, World, step};
ghost use Rattle.machine_world.specs.WellFormed.{IsWellFormed};
ghost use Rattle.stack_certificate.specs.declared.certificates.Certificate.{Certificate};
ghost use Rattle.stack_image.specs.declared.images.Image.{Image};
ghost use Rattle.machine_meaning.specs.Reached.{IsReached, StepReaches};
ghost use Rattle.machine_meaning.specs.UnderWay.{IsUnderWay, StandsSettled};

/// Laws of one segment of any thread that may run, in the world of a valid pair that stands for a source world. Its
/// pick begins the source's run of that thread. Each step corresponds to that run: the values that it puts, the threads
/// that it starts, its blocking call, end and trap are the source's, and after a blocking call or the end the world
/// stands for the source world after the run. At each moment every live thread is in place, and the next access is
/// good.
pub fn segment_world_laws()
    ensures picks { (program : ProgramTree) (image : Image) (certificate : Certificate) (s : Setting) (w after : World) (start : source.World) (number : ℕ) → IsWellScoped program → IsValid (lowered program) image certificate → s.code ≡ image.code →
        IsWellFormed (record { flat = lowered program; certificate = certificate }) s w → StandsSettled (record { flat = lowered program; certificate = certificate }) program w start → after_action s w (Pick number) ≡ Some after →
        IsReached (record { flat = lowered program; certificate = certificate }) program s start number [] after }
    ensures steps { (program : ProgramTree) (image : Image) (certificate : Certificate) (s : Setting) (w : World) (start : source.World) (number : ℕ) (puts : List ℕ) → IsWellScoped program → IsValid (lowered program) image certificate → s.code ≡ image.code →
        IsWellFormed (record { flat = lowered program; certificate = certificate }) s w → IsReached (record { flat = lowered program; certificate = certificate }) program s start number puts w →
        StepReaches (record { flat = lowered program; certificate = certificate }) program s start number puts (step s w) }
    ensures sound { (c : Checked) (program : ProgramTree) (s : Setting) (w : World) (segment : Segment) → IsWellFormed c s w → IsUnderWay c program s w segment →
        IsSound c w × IsFramedNext c s w w.running }
{}
