// What lowering preserves.
ghost use Rattle.std.specs.Prelude.{◌≡◌, ℕ, ◌<◌, List, length};
ghost use Rattle.cap_word.specs.Calls.{Answer};
ghost use Rattle.c_tree.specs.Trees.{ProgramTree};
ghost use Rattle.c_tree.specs.WellScoped.{IsWellScoped};
ghost use Rattle.c_mean.specs.Frames.{Running, Waiting, function_at};
ghost use Rattle.c_mean.specs.Steps as source;
ghost use Rattle.c_lower.specs.ProgramCode.{lowered};
ghost use Rattle.flat_code.specs.Frames.{FlatThread, FlatWaiting};
ghost use Rattle.flat_code.specs.Step as flat;
ghost use Rattle.machine_meaning.specs.Meaning.{MeansTheSame};
ghost use Rattle.machine_meaning.specs.Sample.{nested, nested_flat, nested_waiting};
ghost use Rattle.machine_meaning.specs.StandsFor.{StandsFor, StartsAs};

/// Law: a thread of a program's flat code that stands for a thread of the program means the same, from a modelled call
/// with the same answer and from a function's start. Both reach the same next modelled call, trap or end, with the same
/// values and globals, or neither reaches one. At a modelled call the one stands for the other again. And whatever a
/// world answers, for every number of steps of the one, some number of steps of the other has made the same calls.
pub fn lowering_keeps_meaning()
    ensures resumed { (program : ProgramTree) (waiting : Waiting) (thread : FlatWaiting) (answer : Answer) → IsWellScoped program → StandsFor program waiting thread → MeansTheSame program (source.source_resume waiting answer) (flat.flat_resume (lowered program) thread answer) }
    ensures begun { (program : ProgramTree) (running : Running) (thread : FlatThread) → IsWellScoped program → StartsAs program running thread → MeansTheSame program running thread }
{}

/// Law: a thread of flat code that starts a function with as many arguments as it has parameters stands at its start
/// for the thread of the source that does, and a run starts with the same globals.
pub fn threads_start_alike()
    ensures thread { (program : ProgramTree) (function : ℕ) (arguments : List ℕ) (globals : List (List ℕ)) → IsWellScoped program → function < length program.functions → length arguments ≡ (function_at program function).params → StartsAs program (source.started program function arguments globals) (flat.started (lowered program) function arguments globals) }
    ensures globals { (program : ProgramTree) → flat.start_globals (lowered program) ≡ source.start_globals program }
{}

/// Law: the premises hold of a small program and of a thread of it that waits in a function that another one called.
pub fn sample_stands()
    ensures scoped { IsWellScoped nested }
    ensures stands { StandsFor nested nested_waiting nested_flat }
{}
