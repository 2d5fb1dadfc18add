ghost use Rattle.std.specs.Prelude.{◌≡◌, ◌≢◌, ℕ, ◌+◌, ◌^◌, ◌<◌, ◌≤◌, List, ◌∷◌, length, slice_index, Option, Some, Ok, IfSome};
ghost use Rattle.cap_word.specs.Calls.{Question};
ghost use Rattle.certificate_rules.specs.Validity.{IsValid};
ghost use Rattle.chunk_pool.specs.Pool.{Taken, taken_for, chunk_of};
ghost use Rattle.flat_code.specs.Codes.{FlatCode, function_at};
ghost use Rattle.flat_code.specs.Frames.{FlatThread, FlatWaiting};
ghost use Rattle.flat_code.specs.WellFormed.{IsWellFormed};
ghost use Rattle.flat_code.specs.declared.operations.Op.{Op};
ghost use Rattle.machine_world.specs.Alone.{KeepsChunk};
ghost use Rattle.machine_world.specs.Areas.{Areas};
ghost use Rattle.machine_world.specs.Globals.{AreGlobals};
ghost use Rattle.machine_world.specs.Held.{copies_in};
ghost use Rattle.machine_world.specs.InPlace.{Frame};
ghost use Rattle.machine_world.specs.Local as local;
ghost use Rattle.stack_certificate.specs.Registers.{a0};
ghost use Rattle.machine_world.specs.Local.{Local, passed, local_step};
ghost use Rattle.machine_world.specs.Rests.{IsResting, IsAtCall};
ghost use Rattle.machine_world.specs.WellFormed.{AreWellFormed};
ghost use Rattle.rv_code.specs.declared.instructions.Instr.{Instr};
ghost use Rattle.rv_machine.specs.Registers.{read};
ghost use Rattle.rv_machine.specs.Step.{instruction_at};
ghost use Rattle.segment_laws.specs.Around.{IsPassed, RestsBehind, new_thread, RestsAtStart};
ghost use Rattle.segment_laws.specs.Zeroes.{ZeroesSome};
ghost use Rattle.segment_laws.specs.Ways.{HasForm, IsGoodState};
ghost use Rattle.segment_laws.specs.Alike.{FollowsAsks, MayRun, WaitsAlike, Comes, IsAlong};
ghost use Rattle.stack_certificate.specs.Certificates.{fact_at};
ghost use Rattle.stack_certificate.specs.declared.certificates.Certificate.{Certificate};
ghost use Rattle.stack_image.specs.declared.images.Image.{Image};

/// Laws: a step from a good state, or any number of steps through good states, keeps the words of each chunk that is
/// neither in the thread's chain nor free.
pub fn alone_laws()
    ensures step { (flat : FlatCode) (certificate : Certificate) (code : List ℕ) (l : Local) (chunk : ℕ) → IsWellFormed flat → HasForm (record { flat = flat; certificate = certificate }) l →
        IsGoodState (record { flat = flat; certificate = certificate }) code l → copies_in chunk l ≡ 0 → KeepsChunk chunk l (local_step code l) }
    ensures steps { (flat : FlatCode) (certificate : Certificate) (code : List ℕ) (t : FlatThread) (l at : Local) (k chunk : ℕ) → IsWellFormed flat →
        ((j : ℕ) (between : Local) → Comes code j l between → IsAlong (record { flat = flat; certificate = certificate }) code t between) → Comes code k l at → copies_in chunk l ≡ 0 →
        chunk_of at.areas.pool chunk ≡ chunk_of l.areas.pool chunk }
{}

/// Laws of a thread at an ECALL and after it. At the ECALL of an operation the code has an ECALL. A thread that rests
/// at no ECALL may run. After the ECALL, with or without a result in a0, the thread rests just after it, where there is
/// no other ECALL; and if it stood for a flat thread that waits, it stands for that one there.
pub fn passing_laws()
    ensures at_call { (flat : FlatCode) (image : Image) (certificate : Certificate) (l : Local) (f i word : ℕ) (op : Op) (frames : List Frame) → IsWellFormed flat → ZeroesSome flat → IsValid flat image certificate →
        IsAtCall (record { flat = flat; certificate = certificate }) l.areas.pool l.core f i op word frames → instruction_at image.code l.core.pc ≡ Ok Instr.Ecall }
    ensures may_run { (flat : FlatCode) (image : Image) (certificate : Certificate) (l : Local) → IsWellFormed flat → ZeroesSome flat → IsValid flat image certificate →
        (rests : IsResting (record { flat = flat; certificate = certificate }) l.areas.pool l.core) → instruction_at image.code l.core.pc ≢ Ok Instr.Ecall → MayRun (record { flat = flat; certificate = certificate }) l.areas.pool l.core rests }
    ensures passes { (flat : FlatCode) (image : Image) (certificate : Certificate) (l : Local) (f i word : ℕ) (op : Op) (frames : List Frame) (result : Option ℕ) → IsWellFormed flat → ZeroesSome flat → FollowsAsks flat → IsValid flat image certificate →
        IsAtCall (record { flat = flat; certificate = certificate }) l.areas.pool l.core f i op word frames → IsPassed (record { flat = flat; certificate = certificate }) image.code l.areas.pool (passed l.core result) f i op word }
    ensures stands { (flat : FlatCode) (image : Image) (certificate : Certificate) (at : Local) (question : local.Question) (asked : Question) (waiting : FlatWaiting) (result : Option ℕ) → IsWellFormed flat → ZeroesSome flat → FollowsAsks flat → IsValid flat image certificate →
        WaitsAlike (record { flat = flat; certificate = certificate }) at question asked waiting → IfSome result (λ value. value < 2 ^ 32) →
        RestsBehind (record { flat = flat; certificate = certificate }) (record { areas = at.areas; core = passed at.core result }) waiting asked.globals }
{}

/// Law of a new thread: on a chunk that was taken for at least the bound of a function, at its entry, with the
/// function's arguments in the argument registers, it rests there for the flat thread that starts the function with
/// these arguments.
pub fn starting_law()
    ensures { (flat : FlatCode) (image : Image) (certificate : Certificate) (areas : Areas) (taken : Taken) (need f argument : ℕ) (arguments : List ℕ) (globals : List (List ℕ)) → IsWellFormed flat → IsValid flat image certificate →
        AreWellFormed (record { flat = flat; certificate = certificate }) areas → taken_for areas.pool need ≡ Some taken → (fact_at certificate f).bound ≤ need → f < length flat.functions → argument < 2 ^ 32 →
        length arguments ≡ (function_at flat f).params →
        ((k : ℕ) → k < length arguments → slice_index arguments k ≡ read (new_thread (record { flat = flat; certificate = certificate }) areas taken f argument).core.x (a0 + k)) →
        AreGlobals flat globals areas.globals → RestsAtStart (record { flat = flat; certificate = certificate }) (new_thread (record { flat = flat; certificate = certificate }) areas taken f argument) f arguments globals }
{}
