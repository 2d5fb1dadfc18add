// Small programs whose runs the prover computes by the definitions: definitions that give another run are refused. The
// programs are in specs/DeepExamples.antt.
ghost use Rattle.std.specs.Prelude.{◌≡◌, [], ◌∷◌, map, None, Some};
ghost use Rattle.cap_word.specs.declared.traps.TrapKind.{TrapKind};
ghost use Rattle.c_mean.specs.World.{empty_exchange, Run};
ghost use Rattle.deep_mean.specs.DeepExamples.{PutsInAll, reads_left_of_calls, indexes_before_calls, takes_what_it_needs, tests_a_call, calls_in_arguments, index_tested_last, yields_within, spawns_with_a_call, key_in, named_source, named_program};
ghost use Rattle.deep_mean.specs.Naming.{deep_program};
ghost use Rattle.deep_mean.specs.DeepWorld.{DeepWorld, Fresh, Ended, RunsTo, IsAfter, start_world};

/// Example: a global to the left of a call that changes it is read before the call, and one to the right after it: `g +
/// f()` is 11 if g is 1 before and f returns 10, `f() + g` is 15, and `g + (f()) + g` is 18 if g is 3.
pub fn left_is_read_first()
    ensures { PutsInAll reads_left_of_calls ((0, 11) ∷ (0, 15) ∷ (0, 18) ∷ []) }
{}

/// Example: the index of `b[g] = f() + 1` is evaluated before the call that changes g.
pub fn index_comes_before_call()
    ensures { PutsInAll indexes_before_calls ((0, 11) ∷ (0, 0) ∷ (0, 11) ∷ []) }
{}

/// Example: operators `&&`, `||` and `?:` make only the calls that they need, and `&&` and `||` give 0 or 1.
pub fn calls_take_what_is_needed()
    ensures { PutsInAll takes_what_it_needs
        ((0, 0) ∷ (0, 0) ∷ (0, 2) ∷ (0, 3) ∷ (0, 1) ∷ (0, 0) ∷ (0, 4) ∷ (0, 1) ∷ (0, 5) ∷ (0, 1) ∷ (0, 7) ∷ (0, 8) ∷ (0, 8) ∷ (0, 0) ∷ (0, 11) ∷ (0, 11) ∷ []) }
{}

/// Example: a call in a `while`'s condition is made at each test, also after a `continue`.
pub fn calls_are_tested_in_loops()
    ensures { PutsInAll tests_a_call ((0, 0) ∷ (0, 21) ∷ (0, 1) ∷ (0, 2) ∷ (0, 23) ∷ (0, 3) ∷ []) }
{}

/// Example: arguments are evaluated from left to right, including the calls in them, and a table's index before its
/// argument.
pub fn arguments_come_in_order()
    ensures { PutsInAll calls_in_arguments ((0, 1) ∷ (0, 3) ∷ (0, 6) ∷ (0, 0) ∷ (0, 4) ∷ (0, 4) ∷ (0, 4) ∷ []) }
{}

/// Example: a table's index is tested after its argument was evaluated.
pub fn index_is_tested_last()
    ensures { RunsTo index_tested_last [] (start_world index_tested_last) 0 (record { trap = Some TrapKind.Table; world = record { threads = Fresh 1 [] ∷ []; globals = []; exchange = empty_exchange; outputs = (0, 1) ∷ (0, 2) ∷ [] } }) }
{}

/// Example: the key of a thread that blocks within calls in expressions has the sites of these calls, with their
/// numbers in the text.
pub fn keys_follow_calls()
    ensures inner { (world : DeepWorld) × IsAfter yields_within [] (start_world yields_within) (Run 0 ∷ []) world × (map key_in world.threads ≡ (0 ∷ 2 ∷ []) ∷ []) }
    ensures outer { (world : DeepWorld) × IsAfter yields_within [] (start_world yields_within) (Run 0 ∷ Run 0 ∷ []) world × (map key_in world.threads ≡ (0 ∷ 1 ∷ []) ∷ []) }
    ensures ends { (world : DeepWorld) × IsAfter yields_within [] (start_world yields_within) (Run 0 ∷ Run 0 ∷ Run 0 ∷ []) world × (world.threads ≡ Ended ∷ []) }
{}

/// Example: a thread starts with a result that was computed in its argument; the new thread's number is a value like
/// any other.
pub fn threads_start_with_results()
    ensures { RunsTo spawns_with_a_call [] (start_world spawns_with_a_call) 0 (record { trap = None; world = record { threads = Ended ∷ Fresh 0 (5 ∷ []) ∷ []; globals = []; exchange = empty_exchange; outputs = (0, 5) ∷ (0, 1) ∷ [] } }) }
{}

/// Example: in `int g(int x) { return x; } int main() { int a = 7; return g(g(a)) + g(1); }` names have the numbers of
/// their functions and variables, and calls are numbered in the order of their names.
pub fn names_have_numbers()
    ensures { deep_program named_source ≡ named_program }
{}
