ghost use Rattle.std.specs.Prelude.{◌≡◌, ℕ, ◌<◌, [], ◌∷◌, List, length};
ghost use Rattle.c_lower.specs.ProgramCode.{lowered};
ghost use Rattle.c_mean.specs.Frames.{function_at, pushed};
ghost use Rattle.c_tree.specs.Trees.{ProgramTree};
ghost use Rattle.c_tree.specs.WellScoped.{IsWellScoped};
ghost use Rattle.certificate_rules.specs.Validity.{IsValid};
ghost use Rattle.chunk_pool.specs.Pool.{Pool};
ghost use Rattle.flat_code.specs.Frames as flat;
ghost use Rattle.flat_code.specs.Frames.{FlatFrame};
ghost use Rattle.machine_meaning.specs.Meaning.{MeansTheSame};
ghost use Rattle.machine_world.specs.Local.{Core};
ghost use Rattle.machine_world.specs.Places.{Checked};
ghost use Rattle.machine_world.specs.Rests.{IsResting};
ghost use Rattle.machine_world.specs.StandsFor.{SourceThread, StandsFor, Starts, going_on};
ghost use Rattle.machine_meaning.specs.Between.{FlatsStandFor, HasBetween, flat_going_on};
ghost use Rattle.stack_image.specs.declared.images.Image.{Image};

/// Laws: a machine thread that rests stands for a source thread exactly if a thread of the program's flat code is
/// between the two. A flat thread that stands for a source thread and continues with some globals and result means the
/// same as the source thread that continues with them. A flat thread that starts a function stands for the source
/// thread that does.
pub fn between_laws()
    ensures down { (program : ProgramTree) (c : Checked) (pool : Pool) (core : Core) (rests : IsResting c pool core) (thread : SourceThread) → IsWellScoped program → c.flat ≡ lowered program →
        StandsFor c program pool core rests thread → HasBetween c program pool core rests thread }
    ensures up { (program : ProgramTree) (c : Checked) (image : Image) (pool : Pool) (core : Core) (rests : IsResting c pool core) (thread : SourceThread) → IsWellScoped program → c.flat ≡ lowered program → IsValid c.flat image c.certificate →
        HasBetween c program pool core rests thread → StandsFor c program pool core rests thread }
    ensures goes_on { (program : ProgramTree) (thread : SourceThread) (frame : FlatFrame) (below : List FlatFrame) (result : ℕ) (globals : List (List ℕ)) → IsWellScoped program →
        FlatsStandFor program (frame ∷ below) thread → MeansTheSame program (going_on thread result globals) (flat_going_on (lowered program) thread frame below result globals) }
    ensures starts { (program : ProgramTree) (function : ℕ) (arguments : List ℕ) → IsWellScoped program → function < length program.functions → length arguments ≡ (function_at program function).params →
        FlatsStandFor program (flat.pushed (lowered program) function arguments ∷ []) (Starts (pushed program function arguments) []) }
{}
