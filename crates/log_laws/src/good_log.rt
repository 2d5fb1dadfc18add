ghost use Rattle.std.specs.Prelude.{◌≤◌, ℕ, List};
ghost use Rattle.c_lower.specs.ProgramCode.{lowered};
ghost use Rattle.c_tree.specs.WellScoped.{IsWellScoped};
ghost use Rattle.certificate_rules.specs.Validity.{IsValid};
ghost use Rattle.lawful_log.specs.Good.{IsGoodLog, checked_of};
ghost use Rattle.lawful_log.specs.Lawful.{IsLawfulLog};
ghost use Rattle.lawful_log.specs.Setup.{Setup, start_areas};
ghost use Rattle.machine_world.specs.Threads.{World};
ghost use Rattle.machine_world.specs.WellFormed.{AreWellFormed, most_fuel};
ghost use Rattle.schedule_log.specs.declared.entries.Entry.{Entry};
ghost use Rattle.schedule_log.specs.declared.entries.StopLine.{StopLine};

/// Law: the lawful log of a valid pair is good, whatever the trace and the policy. Along each segment every live thread
/// is in place, each load and store lies in the running frame or in one declared global or table, held and free chunks
/// are exactly the pool, and no step is wrong.
pub fn good_log_law()
    ensures { (g : Setup) (trace : List ℕ) (entries : List Entry) (stop : StopLine) (end : World) → IsWellScoped g.program → IsValid (lowered g.program) g.image g.certificate →
        AreWellFormed (checked_of g) (start_areas g) → g.policy.fuel ≤ most_fuel →
        IsLawfulLog g trace entries stop end → IsGoodLog g entries }
{}
