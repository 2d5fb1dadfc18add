// Laws of every program, world and schedule.
ghost use Rattle.std.specs.Prelude.{◌≡◌, ℕ, ◌<◌, ◌≤◌, ◌++◌, ◌∷◌, [], IsSome, List, Ok, Some, length, slice_get};
ghost use Rattle.std.specs.List.{AllByRecursion};
ghost use Rattle.cap_word.specs.Calls.{Answer, Finish, Question, call_of};
ghost use Rattle.cap_word.specs.Runs.{Asks, Goes, Stops, Unfinished, moves, run};
ghost use Rattle.cap_word.specs.declared.calls.Block.{Block};
ghost use Rattle.cap_word.specs.ModelledCalls.{number_of, parameters_of};
ghost use Rattle.cap_word.specs.declared.modelled_calls.ModelledCall.{ModelledCall};
ghost use Rattle.c_tree.specs.Trees.{ExprTree, ProgramTree, StmtTree};
ghost use Rattle.c_tree.specs.WellScoped.{Context, IsExprScoped};
ghost use Rattle.c_mean.specs.Kept.{LeavesAlone, LeavesOtherQueues};
ghost use Rattle.c_mean.specs.Layout.{IsInRange};
ghost use Rattle.c_mean.specs.ModelledCalls.{Arrival, Delivery, Exchange, Message, queue_of, with_delivery};
ghost use Rattle.c_mean.specs.Frames.{Running, Waiting};
ghost use Rattle.c_mean.specs.Sites.{WaitsInText};
ghost use Rattle.c_mean.specs.Steps.{source_machine, source_step, started};
ghost use Rattle.c_mean.specs.ToDo.{Item, Loop, after_leave, after_skip, before, body_before, skipped};
ghost use Rattle.c_mean.specs.Values.{values};
ghost use Rattle.c_mean.specs.World.{Blocked, Ended, Entry, IsAfter, IsCutAt, Rested, RunsTo, Segment, World, calls, rests, segment_machine, start_world, unless_trap};

/// Law: a run of a thread, a cut of one, and a schedule each have at most one outcome.
pub fn runs_have_one_end()
    ensures run { (program : ProgramTree) (caps : List ℕ) (world : World) (number : ℕ) (one other : Rested) → RunsTo program caps world number one → RunsTo program caps world number other → one ≡ other }
    ensures cut { (program : ProgramTree) (caps : List ℕ) (world : World) (number puts : ℕ) (one other : Segment) → IsCutAt program caps world number puts one → IsCutAt program caps world number puts other → one ≡ other }
    ensures schedule { (program : ProgramTree) (caps : List ℕ) (entries : List Entry) (world one other : World) → IsAfter program caps world entries one → IsAfter program caps world entries other → one ≡ other }
{}

/// Law: a run of a thread, complete or cut, leaves every other thread where it rests, removes none, and adds only its
/// own outputs, at the end.
pub fn runs_leave_others_alone()
    ensures run { (program : ProgramTree) (caps : List ℕ) (world : World) (number : ℕ) (rested : Rested) → RunsTo program caps world number rested → LeavesAlone world number rested.world }
    ensures cut { (program : ProgramTree) (caps : List ℕ) (world : World) (number puts : ℕ) (segment : Segment) → IsCutAt program caps world number puts segment → LeavesAlone world number segment.world }
{}

/// Law: a delivery joins the end of its queue, if its channel exists, and changes nothing else.
pub fn deliveries_change_one_queue()
    ensures arrival { (x : Exchange) (value : ℕ) → queue_of (with_delivery x (Arrival value)) (Arrival value) ≡ x.arrivals ++ value ∷ [] }
    ensures message { (x : Exchange) (channel value : ℕ) → channel < length x.channels → queue_of (with_delivery x (Message channel value)) (Message channel value) ≡ queue_of x (Message channel value) ++ value ∷ [] }
    ensures others { (x : Exchange) (delivery : Delivery) → LeavesOtherQueues x delivery (with_delivery x delivery) }
{}

/// An expression that is well scoped in a function has a value or a trap there: it is in the range that `evaluate` of
/// `source_items` asks for. It does nothing: the law is the contract.
pub fn scoped_expressions_are_in_range()
    ensures { (context : Context) (scope : List ℕ) (expr : ExprTree) → IsExprScoped context scope expr → IsInRange context.sizes context.globals expr }
{}

/// Law: a jump out of a loop or to the end of its turn skips each statement after it, with all loops in it, and so
/// reaches the end of the loop around it. After a `break`, what follows that loop is still to do; after a `continue`,
/// the next turn of a `while`, or the step of a `for`.
pub fn jumps_pass_statements()
    ensures left { (loops : ℕ) (statement : StmtTree) (rest : List Item) → after_leave loops (before statement rest) ≡ after_leave loops rest }
    ensures skipped { (loops : ℕ) (statement : StmtTree) (rest : List Item) → after_skip loops (before statement rest) ≡ after_skip loops rest }
    ensures loop_left { (loop : Loop) (rest : List Item) → after_leave 0 (body_before loop rest) ≡ rest }
    ensures loop_skipped { (loop : Loop) (rest : List Item) → after_skip 0 (body_before loop rest) ≡ skipped loop rest }
{}

/// Law: whatever a world answers, every frame of a thread that waits does so at a call of its function's text: the
/// frame's site is that of the call, its result goes to the place in the text, and what it has still to do is what
/// follows the call there. This holds in every world that a schedule leads to.
pub fn frames_wait_in_text()
    ensures running { (program : ProgramTree) (function : ℕ) (arguments : List ℕ) (globals : List (List ℕ)) (world : List Question → Answer) (n : ℕ) (asked : List Question) (thread : Running) → run (source_machine program) world n [] (started program function arguments globals) ≡ Unfinished asked thread → AllByRecursion (WaitsInText program) thread.below }
    ensures asking { (program : ProgramTree) (function : ℕ) (arguments : List ℕ) (globals : List (List ℕ)) (world : List Question → Answer) (n : ℕ) (asked : List Question) (thread : Running) (question : Question) (waiting : Waiting) → run (source_machine program) world n [] (started program function arguments globals) ≡ Unfinished asked thread → source_step program thread ≡ Asks question waiting → AllByRecursion (WaitsInText program) (waiting.front ∷ waiting.below) }
    ensures blocked { (program : ProgramTree) (caps : List ℕ) (entries : List Entry) (world : World) (number : ℕ) (block : Block) (waiting : Waiting) → IsAfter program caps (start_world program) entries world → slice_get world.threads number ≡ Some (Blocked block waiting) → AllByRecursion (WaitsInText program) (waiting.front ∷ waiting.below) }
{}

/// Law: a thread that runs in a world makes the same steps as alone: a silent step changes only the thread; at a
/// modelled call the world changes as the call's row says; and when the steps stop, the thread has ended or trapped.
pub fn segments_run_threads()
    ensures silent { (program : ProgramTree) (caps : List ℕ) (segment : Segment) (n : ℕ) (thread : Running) → moves (source_machine program) n segment.running ≡ Goes thread → moves (segment_machine program caps) n segment ≡ Goes (record segment { running = thread }) }
    ensures asks { (program : ProgramTree) (caps : List ℕ) (segment : Segment) (n : ℕ) (question : Question) (waiting : Waiting) → moves (source_machine program) n segment.running ≡ Asks question waiting → (m : ℕ) × (m ≤ n) × (moves (segment_machine program caps) m segment ≡ calls caps segment question.globals waiting question.call) }
    ensures stops { (program : ProgramTree) (caps : List ℕ) (segment : Segment) (n : ℕ) (finish : Finish) → moves (source_machine program) n segment.running ≡ Stops finish → (m : ℕ) × (m ≤ n) × (moves (segment_machine program caps) m segment ≡ unless_trap segment finish.globals finish.trap (rests segment finish.globals Ended)) }
{}

/// Law: a world knows every modelled call that has the right number of arguments, and a list of arguments has as many
/// values as expressions. So in a well-scoped program a modelled call always asks.
pub fn modelled_calls_are_known()
    ensures known { (call : ModelledCall) (arguments : List ℕ) → length arguments ≡ parameters_of call → IsSome (call_of (number_of call) arguments) }
    ensures counted { (names globals : List (List ℕ)) (exprs : List ExprTree) (words : List ℕ) → values names globals exprs ≡ Ok words → length words ≡ length exprs }
{}
