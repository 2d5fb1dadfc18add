ghost use Rattle.std.specs.Prelude.{◌≢◌, List, Ok, ℕ};
ghost use Rattle.c_lower.specs.ProgramCode.{lowered};
ghost use Rattle.c_mean.specs.Frames.{Running};
ghost use Rattle.c_tree.specs.Trees.{ProgramTree};
ghost use Rattle.c_tree.specs.WellScoped.{IsWellScoped};
ghost use Rattle.certificate_rules.specs.Validity.{IsValid};
ghost use Rattle.machine_world.specs.Local.{Local};
ghost use Rattle.machine_world.specs.Rests.{IsResting};
ghost use Rattle.machine_world.specs.StandsFor.{SourceThread, StandsForThread, going_on};
ghost use Rattle.rv_code.specs.declared.instructions.Instr.{Instr};
ghost use Rattle.rv_machine.specs.Step.{instruction_at};
ghost use Rattle.segment_laws.specs.Ways.{HasForm};
ghost use Rattle.machine_meaning.specs.AsSource.{HoldsResult, RunsAsSource};
ghost use Rattle.segment_laws.specs.Alike.{MayRun};
ghost use Rattle.stack_certificate.specs.declared.certificates.Certificate.{Certificate};
ghost use Rattle.stack_image.specs.declared.images.Image.{Image};

/// Law: from a machine thread that rests, at no ECALL, machine and source run alike up to the next modelled call, trap
/// or end, in both directions, for each source thread and globals for which it stands. Just past an ECALL that thread
/// continues with a0 as the result of its call, or with any word if the call gives no result. After a modelled call it
/// stands for the state that the source reached. Each state on the way is in place with a good access, no step is
/// wrong, and the machine is cut off only at a LINK for which no free chunk fits. The code is that of a valid pair for
/// a well-scoped program.
pub fn source_law()
    ensures { (program : ProgramTree) (image : Image) (certificate : Certificate) (l : Local) (thread : SourceThread) (globals : List (List ℕ)) (result : ℕ) → IsWellScoped program → IsValid (lowered program) image certificate →
        HasForm (record { flat = lowered program; certificate = certificate }) l → (stands : StandsForThread (record { flat = lowered program; certificate = certificate }) program l thread globals) →
        MayRun (record { flat = lowered program; certificate = certificate }) l.areas.pool l.core stands.rests → HoldsResult (record { flat = lowered program; certificate = certificate }) l.areas.pool l.core stands.rests result →
        RunsAsSource (record { flat = lowered program; certificate = certificate }) image.code program l (going_on thread result globals) }
{}

/// Law: a machine thread that rests at no ECALL may run, and each that may run runs as some source thread: so it is in
/// place all along, with good accesses, and no step of it is wrong.
pub fn running_law()
    ensures may_run { (program : ProgramTree) (image : Image) (certificate : Certificate) (l : Local) → IsWellScoped program → IsValid (lowered program) image certificate →
        (rests : IsResting (record { flat = lowered program; certificate = certificate }) l.areas.pool l.core) → instruction_at image.code l.core.pc ≢ Ok Instr.Ecall →
        MayRun (record { flat = lowered program; certificate = certificate }) l.areas.pool l.core rests }
    ensures runs { (program : ProgramTree) (image : Image) (certificate : Certificate) (l : Local) → IsWellScoped program → IsValid (lowered program) image certificate →
        HasForm (record { flat = lowered program; certificate = certificate }) l → (rests : IsResting (record { flat = lowered program; certificate = certificate }) l.areas.pool l.core) →
        MayRun (record { flat = lowered program; certificate = certificate }) l.areas.pool l.core rests →
        (running : Running) × RunsAsSource (record { flat = lowered program; certificate = certificate }) image.code program l running }
{}
