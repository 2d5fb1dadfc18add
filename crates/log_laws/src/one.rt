ghost use Rattle.std.specs.Prelude.{◌≤◌, ℕ, List};
ghost use Rattle.c_lower.specs.ProgramCode.{lowered};
ghost use Rattle.c_tree.specs.WellScoped.{IsWellScoped};
ghost use Rattle.certificate_rules.specs.Validity.{IsValid};
ghost use Rattle.lawful_log.specs.Good.{checked_of};
ghost use Rattle.lawful_log.specs.Setup.{Setup, start_areas};
ghost use Rattle.machine_world.specs.WellFormed.{AreWellFormed, most_fuel};
ghost use Rattle.log_laws.specs.One.{HasOneLog};

/// Law: a valid pair of a well-scoped program has exactly one lawful log, whatever the trace and the policy, provided
/// that the policy's chunks and the certificate's chunk size make a pool and that the fuel is in range.
pub fn one_log_law()
    ensures { (g : Setup) (trace : List ℕ) → IsWellScoped g.program → IsValid (lowered g.program) g.image g.certificate →
        AreWellFormed (checked_of g) (start_areas g) → g.policy.fuel ≤ most_fuel →
        HasOneLog g trace }
{}
