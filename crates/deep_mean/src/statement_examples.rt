// Small programs with loops, arrays, tables and modelled calls whose runs the prover computes, and a source whose names
// it resolves: definitions that give another answer are refused. The programs are in specs/StatementExamples.antt and
// NameExamples.antt.
ghost use Rattle.std.specs.Prelude.{◌≡◌, [], ◌∷◌, map, None, Some};
ghost use Rattle.cap_word.specs.declared.traps.TrapKind.{TrapKind};
ghost use Rattle.c_mean.specs.ModelledCalls.{Arrival};
ghost use Rattle.c_mean.specs.World.{empty_exchange, Deliver, Run};
ghost use Rattle.deep_mean.specs.DeepExamples.{PutsInAll, key_in};
ghost use Rattle.deep_mean.specs.StatementExamples.{continues_a_for, calls_in_a_for, breaks_loops, sum_out_of_range, call_out_of_range, element_out_of_range, calls_both_members, accepts_two};
ghost use Rattle.deep_mean.specs.NameExamples.{scoped_source, scoped_program};
ghost use Rattle.deep_mean.specs.Naming.{deep_program};
ghost use Rattle.deep_mean.specs.DeepWorld.{DeepWorld, Fresh, Ended, RunsTo, IsAfter, start_world};

/// Example: the step of a `for` is done after a `continue` too; whole calls in the parentheses are made at the start
/// and after each turn; and a `break` leaves a `for` without a condition, and a `while` that tests a call.
pub fn loops_go_on()
    ensures step { PutsInAll continues_a_for ((0, 0) ∷ (0, 20) ∷ (0, 1) ∷ (0, 2) ∷ (0, 22) ∷ (0, 3) ∷ (0, 23) ∷ []) }
    ensures calls { PutsInAll calls_in_a_for ((0, 0) ∷ (0, 20) ∷ (0, 1) ∷ (0, 21) ∷ (0, 2) ∷ []) }
    ensures breaks { PutsInAll breaks_loops ((0, 0) ∷ (0, 1) ∷ (0, 2) ∷ (0, 2) ∷ (0, 3) ∷ (0, 13) ∷ []) }
{}

/// Example: the index of an element that is assigned is tested after the value has been evaluated, also if the value is
/// a whole call; the index of one that is read is tested when it is read, before the calls to its right. Local arrays
/// have the values assigned.
pub fn indexes_are_tested()
    ensures sum { RunsTo sum_out_of_range [] (start_world sum_out_of_range) 0 (record { trap = Some TrapKind.Index; world = record { threads = Fresh 1 [] ∷ []; globals = []; exchange = empty_exchange; outputs = (0, 7) ∷ (0, 1) ∷ (0, 8) ∷ (0, 5) ∷ [] } }) }
    ensures call { RunsTo call_out_of_range [] (start_world call_out_of_range) 0 (record { trap = Some TrapKind.Index; world = record { threads = Fresh 1 [] ∷ []; globals = []; exchange = empty_exchange; outputs = (0, 7) ∷ (0, 1) ∷ (0, 8) ∷ (0, 5) ∷ [] } }) }
    ensures element { RunsTo element_out_of_range [] (start_world element_out_of_range) 0 (record { trap = Some TrapKind.Index; world = record { threads = Fresh 1 [] ∷ []; globals = []; exchange = empty_exchange; outputs = (0, 7) ∷ (0, 1) ∷ (0, 8) ∷ (0, 2) ∷ [] } }) }
{}

/// Example: a table's index determines the member that is called.
pub fn members_are_called()
    ensures { PutsInAll calls_both_members ((0, 4) ∷ (0, 104) ∷ (0, 5) ∷ (0, 9) ∷ []) }
{}

/// Example: in `x = accept() - accept()` the thread blocks twice, each call with its own key, and takes the arrivals in
/// order: 9 and 4 give 5.
pub fn accepts_come_in_order()
    ensures first { (world : DeepWorld) × IsAfter accepts_two [] (start_world accepts_two) (Run 0 ∷ []) world × (map key_in world.threads ≡ (0 ∷ []) ∷ []) }
    ensures ends { (world : DeepWorld) × IsAfter accepts_two [] (start_world accepts_two) (Run 0 ∷ Deliver (Arrival 9) ∷ Run 0 ∷ Deliver (Arrival 4) ∷ Run 0 ∷ []) world
        × (world.threads ≡ Ended ∷ []) × (world.exchange.arrivals ≡ []) × (world.outputs ≡ (0, 5) ∷ []) }
    ensures second { (world : DeepWorld) × IsAfter accepts_two [] (start_world accepts_two) (Run 0 ∷ Deliver (Arrival 9) ∷ Run 0 ∷ []) world × (map key_in world.threads ≡ (1 ∷ []) ∷ []) }
{}

/// Example: a block's name hides the one outside it until the block's end, a table's name and `spawn` are found too,
/// and the calls of a `for` are numbered in the order first part, condition, step, body.
pub fn names_follow_scope()
    ensures { deep_program scoped_source ≡ scoped_program }
{}
