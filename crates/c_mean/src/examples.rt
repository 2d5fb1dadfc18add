// Small programs whose runs the prover computes by the definitions: definitions that give another run are refused. The
// programs are in specs/Examples.antt.
ghost use Rattle.std.specs.Prelude.{◌≡◌, true, false, [], ◌∷◌, map, None, Some, Ok, Err};
ghost use Rattle.cap_word.specs.Runs.{Stops};
ghost use Rattle.cap_word.specs.declared.calls.Block.{Block};
ghost use Rattle.cap_word.specs.declared.traps.TrapKind.{TrapKind};
ghost use Rattle.c_tree.specs.Trees.{Conditional, LocalElement, LogicalAnd, LogicalOr, Number, Unary};
ghost use Rattle.c_tree.specs.declared.operators.BinaryOperator.{BinaryOperator};
ghost use Rattle.cap_word.specs.declared.modelled_calls.ModelledCall.{ModelledCall};
ghost use Rattle.c_tree.specs.declared.operators.UnaryOperator.{UnaryOperator};
ghost use Rattle.c_mean.specs.Examples.{divisions, one_call, recursion, index_beyond, table_calls, deep_yield, server, loop_jumps, while_jumps, leave_before_turns, skip_before_turns, turns_without_condition, one_turn, late_range_test, one_modelled, HasFrames, rests_in};
ghost use Rattle.c_mean.specs.Frames.{InLocal};
ghost use Rattle.c_mean.specs.ModelledCalls.{Arrival, Message, blocking_row, is_ready, sleeps_until, wakes_at, with_delivery, with_use};
ghost use Rattle.c_mean.specs.Operators.{binary_value, unary_value};
ghost use Rattle.c_mean.specs.Values.{value};
ghost use Rattle.c_mean.specs.World.{World, Ended, Fresh, Run, Deliver, RunsTo, IsAfter, thread_moves, empty_exchange, start_world};

/// Example: the statements `put(-2147483648 / -1); put(5 / 0);` output -2147483648 and -1, and then `main` ends.
pub fn divisions_have_values()
    ensures { RunsTo divisions [] (start_world divisions) 0 (record { trap = None; world = record { threads = Ended ∷ []; globals = []; exchange = empty_exchange; outputs = (0, 2147483648) ∷ (0, 4294967295) ∷ [] } }) }
{}

/// Example: after `int a; int b;` the call `a = g(1)` pushes a frame with the argument, while the frame of `main` waits
/// at site 0 for a result, which is assigned to `a`. The return is one step, and the end of `main` another.
pub fn call_pushes_frame()
    ensures pushed { HasFrames one_call 3 ((0, (1 ∷ []) ∷ []) ∷ (1, (0 ∷ []) ∷ (0 ∷ []) ∷ []) ∷ []) ((0, InLocal 0) ∷ []) }
    ensures popped { HasFrames one_call 4 ((1, (1 ∷ []) ∷ (0 ∷ []) ∷ []) ∷ []) [] }
    ensures ended { thread_moves one_call [] (start_world one_call) 0 5 ≡ Some (Stops (record { trap = None; world = record { threads = Ended ∷ []; globals = []; exchange = empty_exchange; outputs = [] } })) }
{}

/// Example: a function calls itself; `f(1)` is 1.
pub fn recursion_returns()
    ensures { RunsTo recursion [] (start_world recursion) 0 (record { trap = None; world = record { threads = Ended ∷ []; globals = []; exchange = empty_exchange; outputs = (0, 1) ∷ [] } }) }
{}

/// Example: a store beyond the end of an array, or at a negative index, is the trap `index`, after the outputs before
/// it.
pub fn stores_beyond_trap()
    ensures above { RunsTo (index_beyond (Number 2)) [] (start_world (index_beyond (Number 2))) 0 (record { trap = Some TrapKind.Index; world = record { threads = Fresh 0 [] ∷ []; globals = []; exchange = empty_exchange; outputs = (0, 9) ∷ [] } }) }
    ensures below { RunsTo (index_beyond (Unary UnaryOperator.Negate (Number 1))) [] (start_world (index_beyond (Unary UnaryOperator.Negate (Number 1)))) 0 (record { trap = Some TrapKind.Index; world = record { threads = Fresh 0 [] ∷ []; globals = []; exchange = empty_exchange; outputs = (0, 9) ∷ [] } }) }
{}

/// Example: member 1 of a table is called; a call of member 2, which doesn't exist, is the trap `table`.
pub fn tables_are_called()
    ensures { RunsTo table_calls [] (start_world table_calls) 0 (record { trap = Some TrapKind.Table; world = record { threads = Fresh 2 [] ∷ []; globals = []; exchange = empty_exchange; outputs = (0, 42) ∷ [] } }) }
{}

/// Example: a thread that blocks ten calls deep has the sites of the seven innermost of them in its key; it then
/// continues to its end.
pub fn deep_thread_blocks()
    ensures blocks { (world : World) × IsAfter deep_yield [] (start_world deep_yield) (Run 0 ∷ []) world × (map rests_in world.threads ≡ Some (Block.Yield, 0 ∷ 1 ∷ 1 ∷ 1 ∷ 1 ∷ 1 ∷ 1 ∷ 1 ∷ []) ∷ []) }
    ensures ends { (world : World) × IsAfter deep_yield [] (start_world deep_yield) (Run 0 ∷ Run 0 ∷ []) world × (world.threads ≡ Ended ∷ []) }
{}

/// Example: a server with two workers. `main` starts both and ends. Each blocks at `accept`; after an arrival the first
/// continues to `take`, and after a message to `put`, from where it returns to `accept`.
pub fn server_serves()
    ensures { (world : World) × IsAfter server (0 ∷ 1 ∷ []) (start_world server) (Run 0 ∷ Run 1 ∷ Run 2 ∷ Deliver (Arrival 0) ∷ Run 1 ∷ Run 1 ∷ Deliver (Message 0 7) ∷ Run 1 ∷ []) world × (world.outputs ≡ (1, 107) ∷ []) × (map rests_in world.threads ≡ None ∷ Some (Block.Accept, 0 ∷ []) ∷ Some (Block.Accept, 0 ∷ []) ∷ []) }
{}

/// Example: in a `for`, `continue` continues with the step and `break` leaves the loop, and a declaration without a
/// value is 0 in each iteration; in a `while`, `continue` continues with the test.
pub fn loops_turn()
    ensures in_for { RunsTo loop_jumps [] (start_world loop_jumps) 0 (record { trap = None; world = record { threads = Ended ∷ []; globals = []; exchange = empty_exchange; outputs = (0, 0) ∷ (0, 2) ∷ [] } }) }
    ensures in_while { RunsTo while_jumps [] (start_world while_jumps) 0 (record { trap = None; world = record { threads = Ended ∷ []; globals = []; exchange = empty_exchange; outputs = (0, 1) ∷ (0, 3) ∷ [] } }) }
{}

/// Example: jumps by `break` and `continue` are those of the innermost loop around them; they skip a `for` without a
/// condition that follows them in the body of this loop. Such a `for` runs until it is left, and its beginning isn't a
/// step: `for (;;) break;` is left in the first step.
pub fn turns_without_condition_are_left()
    ensures left { RunsTo leave_before_turns [] (start_world leave_before_turns) 0 (record { trap = None; world = record { threads = Ended ∷ []; globals = []; exchange = empty_exchange; outputs = (0, 1) ∷ (0, 3) ∷ [] } }) }
    ensures skipped { RunsTo skip_before_turns [] (start_world skip_before_turns) 0 (record { trap = None; world = record { threads = Ended ∷ []; globals = []; exchange = empty_exchange; outputs = (0, 1) ∷ (0, 2) ∷ (0, 3) ∷ [] } }) }
    ensures turns { RunsTo turns_without_condition [] (start_world turns_without_condition) 0 (record { trap = None; world = record { threads = Ended ∷ []; globals = []; exchange = empty_exchange; outputs = (0, 1) ∷ (0, 2) ∷ (0, 9) ∷ [] } }) }
    ensures two_steps { thread_moves one_turn [] (start_world one_turn) 0 2 ≡ Some (Stops (record { trap = None; world = record { threads = Ended ∷ []; globals = []; exchange = empty_exchange; outputs = [] } })) }
{}

/// Example: in `a[2] = f()` the call is evaluated before the range test, so the trap comes after the outputs of the
/// call.
pub fn range_is_tested_last()
    ensures { RunsTo late_range_test [] (start_world late_range_test) 0 (record { trap = Some TrapKind.Index; world = record { threads = Fresh 1 [] ∷ []; globals = []; exchange = empty_exchange; outputs = (0, 5) ∷ [] } }) }
{}

/// Example: operators `&&`, `||` and `?:` don't evaluate an operand that they don't need; otherwise the left operand is
/// evaluated first.
pub fn operands_are_evaluated_as_needed()
    ensures and_zero { value ((1 ∷ 1 ∷ []) ∷ []) [] (LogicalAnd (Number 0) (LocalElement 0 (Number 2))) ≡ Ok 0 }
    ensures and_one { value ((1 ∷ 1 ∷ []) ∷ []) [] (LogicalAnd (Number 7) (LocalElement 0 (Number 2))) ≡ Err TrapKind.Index }
    ensures or_one { value ((1 ∷ 1 ∷ []) ∷ []) [] (LogicalOr (Number 7) (LocalElement 0 (Number 2))) ≡ Ok 1 }
    ensures or_zero { value ((1 ∷ 1 ∷ []) ∷ []) [] (LogicalOr (Number 0) (Number 9)) ≡ Ok 1 }
    ensures chosen { value ((1 ∷ 1 ∷ []) ∷ []) [] (Conditional (Number 0) (LocalElement 0 (Number 2)) (Number 4)) ≡ Ok 4 }
{}

/// Example: the operators at their edges, as signed numbers: -7 / 2 is -3 and -7 % 2 is -1, 5 % 0 is 5, 2147483647 + 1
/// wraps, 1 << 33 is 2, -8 >> 1 is -4, -1 < 1, ~0 is -1 and !5 is 0.
pub fn operators_have_edges()
    ensures quotient { binary_value BinaryOperator.Divide 4294967289 2 ≡ 4294967293 }
    ensures remainder { binary_value BinaryOperator.Remainder 4294967289 2 ≡ 4294967295 }
    ensures remainder_by_0 { binary_value BinaryOperator.Remainder 5 0 ≡ 5 }
    ensures sum { binary_value BinaryOperator.Add 2147483647 1 ≡ 2147483648 }
    ensures left { binary_value BinaryOperator.ShiftLeft 1 33 ≡ 2 }
    ensures right { binary_value BinaryOperator.ShiftRight 4294967288 1 ≡ 4294967292 }
    ensures less { binary_value BinaryOperator.Less 4294967295 1 ≡ 1 }
    ensures complement { unary_value UnaryOperator.Complement 0 ≡ 4294967295 }
    ensures not { unary_value UnaryOperator.Not 5 ≡ 0 }
{}

/// Example: the calls `take(1, 2)` with a cap of 1, `give(1, 1)` of a resource that isn't in use, and `wait(64)` are
/// traps.
pub fn calls_out_of_range_trap()
    ensures taken { RunsTo (one_modelled ModelledCall.Take (Number 1 ∷ Number 2 ∷ [])) (0 ∷ 1 ∷ []) (start_world (one_modelled ModelledCall.Take (Number 1 ∷ Number 2 ∷ []))) 0 (record { trap = Some TrapKind.Resource; world = start_world (one_modelled ModelledCall.Take (Number 1 ∷ Number 2 ∷ [])) }) }
    ensures given { RunsTo (one_modelled ModelledCall.Give (Number 1 ∷ Number 1 ∷ [])) (0 ∷ 1 ∷ []) (start_world (one_modelled ModelledCall.Give (Number 1 ∷ Number 1 ∷ []))) 0 (record { trap = Some TrapKind.Resource; world = start_world (one_modelled ModelledCall.Give (Number 1 ∷ Number 1 ∷ [])) }) }
    ensures waited { RunsTo (one_modelled ModelledCall.Wait (Number 64 ∷ [])) [] (start_world (one_modelled ModelledCall.Wait (Number 64 ∷ []))) 0 (record { trap = Some TrapKind.Channel; world = start_world (one_modelled ModelledCall.Wait (Number 64 ∷ [])) }) }
    ensures waited_for { RunsTo (one_modelled ModelledCall.WaitFor (Number 64 ∷ Number 0 ∷ [])) [] (start_world (one_modelled ModelledCall.WaitFor (Number 64 ∷ Number 0 ∷ []))) 0 (record { trap = Some TrapKind.Channel; world = start_world (one_modelled ModelledCall.WaitFor (Number 64 ∷ Number 0 ∷ [])) }) }
{}

/// Example: a thread that blocked at `sleep(50)` at time 8 is ready from 58 on, one at `sleep(-1)` at once; one at
/// `take` if the use is low enough, and one at `accept` if an arrival is queued.
pub fn blocked_threads_are_ready()
    ensures early { is_ready [] empty_exchange 57 8 (Block.Sleep 50) ≡ false }
    ensures late { is_ready [] empty_exchange 58 8 (Block.Sleep 50) ≡ true }
    ensures negative { is_ready [] empty_exchange 8 8 (Block.Sleep 4294967295) ≡ true }
    ensures wakes { wakes_at 8 (Block.Sleep 50) ≡ Some 58 }
    ensures full { is_ready (0 ∷ 3 ∷ []) (with_use empty_exchange 1 2) 0 0 (Block.Take 1 2) ≡ false }
    ensures room { is_ready (0 ∷ 3 ∷ []) (with_use empty_exchange 1 2) 0 0 (Block.Take 1 1) ≡ true }
    ensures nobody { is_ready [] empty_exchange 0 0 Block.Accept ≡ false }
    ensures somebody { is_ready [] (with_delivery empty_exchange (Arrival 3)) 0 0 Block.Accept ≡ true }
{}

/// Example: a thread that blocked at `waitfor(2, 50)` at time 8 sleeps until 58 while channel 2 has no message. Then,
/// or as soon as the channel has one, the thread is ready and no longer asleep; its result says which. The message
/// stays in the channel.
pub fn silent_threads_wake()
    ensures silent { is_ready [] empty_exchange 57 8 (Block.WaitFor 2 50) ≡ false }
    ensures sleeps { sleeps_until [] empty_exchange 57 8 (Block.WaitFor 2 50) ≡ Some 58 }
    ensures late { is_ready [] empty_exchange 58 8 (Block.WaitFor 2 50) ≡ true }
    ensures negative { is_ready [] empty_exchange 8 8 (Block.WaitFor 2 4294967295) ≡ true }
    ensures spoken { is_ready [] (with_delivery empty_exchange (Message 2 7)) 9 8 (Block.WaitFor 2 50) ≡ true }
    ensures awake { sleeps_until [] (with_delivery empty_exchange (Message 2 7)) 9 8 (Block.WaitFor 2 50) ≡ None }
    ensures elsewhere { is_ready [] (with_delivery empty_exchange (Message 3 7)) 9 8 (Block.WaitFor 2 50) ≡ false }
    ensures nothing { (blocking_row [] empty_exchange (Block.WaitFor 2 50)).result ≡ 0 }
    ensures something { (blocking_row [] (with_delivery empty_exchange (Message 2 7)) (Block.WaitFor 2 50)).result ≡ 1 }
    ensures stays { (blocking_row [] (with_delivery empty_exchange (Message 2 7)) (Block.WaitFor 2 50)).after ≡ with_delivery empty_exchange (Message 2 7) }
{}
