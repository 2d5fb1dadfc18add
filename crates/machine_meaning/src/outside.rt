ghost use Rattle.std.specs.Prelude.{◌≡◌, Some, if◌then◌else◌, ℕ};
ghost use Rattle.c_lower.specs.ProgramCode.{lowered};
ghost use Rattle.c_mean.specs.ModelledCalls.{Delivery, is_dropped, with_delivery};
ghost use Rattle.c_mean.specs.World as source;
ghost use Rattle.c_tree.specs.Trees.{ProgramTree};
ghost use Rattle.c_tree.specs.WellScoped.{IsWellScoped};
ghost use Rattle.certificate_rules.specs.Validity.{IsValid};
ghost use Rattle.machine_world.specs.Areas.{Areas};
ghost use Rattle.machine_world.specs.Places.{Checked};
ghost use Rattle.machine_world.specs.Runs.{Advance, Deliver, after_action, start_world};
ghost use Rattle.machine_world.specs.StandsForWorld.{StandsForWorld};
ghost use Rattle.machine_world.specs.Stretches.{IsSound};
ghost use Rattle.machine_world.specs.Threads.{Setting, World};
ghost use Rattle.machine_world.specs.WellFormed.{AreWellFormed, IsWellFormed};
ghost use Rattle.stack_certificate.specs.Certificates.{fact_at};
ghost use Rattle.stack_certificate.specs.declared.certificates.Certificate.{Certificate};
ghost use Rattle.stack_image.specs.declared.images.Image.{Image};
ghost use Rattle.machine_meaning.specs.UnderWay.{IsSettled, StandsSettled};

/// Laws between segments: the machine's start in areas with the image's globals stands for the source's, with its
/// thread at rest; so does a world after a delivery that joins its queue or is dropped, and after an advance of the
/// clock. Each well-formed world whose threads rest in this way stands for some source world, and every live thread of
/// it is in place.
pub fn outside_laws()
    ensures starts { (program : ProgramTree) (image : Image) (certificate : Certificate) (w : World) (areas : Areas) → IsWellScoped program → IsValid (lowered program) image certificate →
        areas.globals ≡ image.globals → AreWellFormed (record { flat = lowered program; certificate = certificate }) areas →
        start_world areas (fact_at certificate program.main).entry (fact_at certificate program.main).bound ≡ Some w →
        StandsSettled (record { flat = lowered program; certificate = certificate }) program w (source.start_world program) }
    ensures delivered { (c : Checked) (program : ProgramTree) (s : Setting) (w after : World) (other : source.World) (delivery : Delivery) → StandsSettled c program w other → after_action s w (Deliver delivery) ≡ Some after →
        StandsSettled c program after (if is_dropped s.backlog other.exchange delivery then other else record other { exchange = with_delivery other.exchange delivery }) }
    ensures advanced { (c : Checked) (program : ProgramTree) (s : Setting) (w after : World) (other : source.World) (to : ℕ) → StandsSettled c program w other → after_action s w (Advance to) ≡ Some after → StandsSettled c program after other }
    ensures somewhere { (program : ProgramTree) (image : Image) (certificate : Certificate) (s : Setting) (w : World) → IsWellScoped program → IsValid (lowered program) image certificate →
        IsWellFormed (record { flat = lowered program; certificate = certificate }) s w → IsSettled (record { flat = lowered program; certificate = certificate }) w →
        (other : source.World) × StandsForWorld (record { flat = lowered program; certificate = certificate }) program w other }
    ensures sound { (c : Checked) (s : Setting) (w : World) → IsWellFormed c s w → IsSettled c w → IsSound c w }
{}
