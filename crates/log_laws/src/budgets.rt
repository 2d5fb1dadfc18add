ghost use Rattle.std.specs.Prelude.{ℕ, ◌≡◌, ◌≢◌, ◌+◌, ◌*◌, ◌≤◌, List, ◌∷◌, Some, length};
ghost use Rattle.std.specs.List.{AllByRecursion};
ghost use Rattle.c_lower.specs.ProgramCode.{lowered};
ghost use Rattle.c_tree.specs.WellScoped.{IsWellScoped};
ghost use Rattle.cap_word.specs.declared.stops.Stop.{Stop};
ghost use Rattle.certificate_rules.specs.Validity.{IsValid};
ghost use Rattle.chunk_pool.specs.Pool.{Pool};
ghost use Rattle.flat_code.specs.WellFormed.{IsWellFormed};
ghost use Rattle.lawful_log.specs.Good.{checked_of};
ghost use Rattle.lawful_log.specs.Lawful.{IsLawfulLog};
ghost use Rattle.lawful_log.specs.Setup.{Setup, setting_of, start_machine, start_areas};
ghost use Rattle.machine_world.specs.InPlace.{Frame, HasFrames, IsStack};
ghost use Rattle.machine_world.specs.Keys.{called_at_links};
ghost use Rattle.machine_world.specs.Local.{Core};
ghost use Rattle.machine_world.specs.Places.{Checked, Place};
ghost use Rattle.machine_world.specs.Runs.{Action, after_actions};
ghost use Rattle.machine_world.specs.Threads.{World, Stops, step};
ghost use Rattle.machine_world.specs.WellFormed.{AreWellFormed, DeliversWords, most_fuel};
ghost use Rattle.schedule_log.specs.declared.entries.Entry.{Entry};
ghost use Rattle.schedule_log.specs.declared.entries.StopLine.{StopLine};
ghost use Rattle.chunk_budget.specs.declared.budgets.Budget.{Budget};
ghost use Rattle.chunk_budget.specs.Budgets.{AreCovered, IsBudget, height_of};
ghost use Rattle.log_laws.specs.Lives.{live};
ghost use Rattle.log_laws.specs.Rooms.{roomy};
ghost use Rattle.log_laws.specs.Roots.{root_of, StartsAtRoot};

/// Law: if the heights cover each call, the number of a thread's frames that were called at a linked site plus the
/// height of its innermost function is at most the height of its first function.
pub fn stack_law()
    ensures { (c : Checked) (heights : List ℕ) (pool : Pool) (chain : List ℕ) (frame : Frame) (below : List Frame) →
        AreCovered c.flat c.certificate heights → IsStack c pool chain frame below →
        called_at_links c (frame ∷ below) + height_of heights frame.function ≤ height_of heights (root_of frame below) }
{}

/// Law: a thread in place that started with `main`, or with a function with which some site starts a thread, holds at
/// most as many chunks as a budget gives it.
pub fn chain_bound_law()
    ensures { (c : Checked) (budget : Budget) → IsWellFormed c.flat → IsBudget c.flat c.certificate budget →
        (pool : Pool) (core : Core) (place : Place) (frames : List Frame) → HasFrames c pool core place frames → StartsAtRoot c frames →
        length core.chain ≤ budget.per_thread }
{}

/// Law: no run of a valid pair, whatever is delivered and whichever threads are picked, stops because no free chunk
/// fits, provided that the pool has as many chunks with a payload of at least the longest path as a budget gives n
/// threads, and that at most n threads are live then, counting one that is about to start.
pub fn enough_chunks_law()
    ensures { (g : Setup) (budget : Budget) (threads : ℕ) (actions : List Action) (start end : World) →
        IsWellScoped g.program → IsValid (lowered g.program) g.image g.certificate → AreWellFormed (checked_of g) (start_areas g) → g.policy.fuel ≤ most_fuel →
        IsBudget (lowered g.program) g.certificate budget →
        start_machine g ≡ Some start → threads * budget.per_thread ≤ roomy start.areas.pool g.certificate.max_path →
        AllByRecursion DeliversWords actions → after_actions (setting_of g) actions start ≡ Some end → live (setting_of g) end ≤ threads →
        step (setting_of g) end ≢ Stops Stop.NoChunk }
{}

/// Law: no lawful log, and so no run of a runner under either rule of choice, stops because no free chunk fits,
/// provided that the pool has as many chunks with a payload of at least the longest path as a budget gives n threads,
/// and that at most n threads are live at the stop, counting one that is about to start.
pub fn enough_in_logs_law()
    ensures { (g : Setup) (budget : Budget) (threads : ℕ) (trace : List ℕ) (entries : List Entry) (thread cost free : ℕ) (start end : World) →
        IsWellScoped g.program → IsValid (lowered g.program) g.image g.certificate → AreWellFormed (checked_of g) (start_areas g) → g.policy.fuel ≤ most_fuel →
        IsBudget (lowered g.program) g.certificate budget →
        start_machine g ≡ Some start → threads * budget.per_thread ≤ roomy start.areas.pool g.certificate.max_path →
        live (setting_of g) end ≤ threads → IsLawfulLog g trace entries (StopLine.Cut thread Stop.NoChunk cost free) end → ⊥ }
{}

/// Laws: in the pool in which a run of a valid pair starts, each chunk of the certificate's size has a payload of at
/// least the longest path (`roomy`). So no lawful log stops because no free chunk fits, provided that the policy has as
/// many chunks of that size as a budget gives n threads, whatever other chunks it has, and that at most n threads are
/// live at the stop, counting one that is about to start (`enough`).
pub fn certificate_chunks_law()
    ensures roomy { (g : Setup) → IsValid (lowered g.program) g.image g.certificate → g.policy.chunks ≤ roomy (start_areas g).pool g.certificate.max_path }
    ensures enough { (g : Setup) (budget : Budget) (threads : ℕ) (trace : List ℕ) (entries : List Entry) (thread cost free : ℕ) (end : World) →
        IsWellScoped g.program → IsValid (lowered g.program) g.image g.certificate → AreWellFormed (checked_of g) (start_areas g) → g.policy.fuel ≤ most_fuel →
        IsBudget (lowered g.program) g.certificate budget → threads * budget.per_thread ≤ g.policy.chunks →
        live (setting_of g) end ≤ threads → IsLawfulLog g trace entries (StopLine.Cut thread Stop.NoChunk cost free) end → ⊥ }
{}
