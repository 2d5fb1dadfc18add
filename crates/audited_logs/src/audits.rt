ghost use Rattle.std.specs.Prelude.{◌≤◌, ℕ, List};
ghost use Rattle.audited_logs.specs.Audited.{AreCapsSmall, HasReadLog, given_of, IsLawfulOrTooLong, IsLawfulWithEnough};
ghost use Rattle.c_lower.specs.ProgramCode.{lowered};
ghost use Rattle.c_tree.specs.WellScoped.{IsWellScoped};
ghost use Rattle.certificate_rules.specs.Validity.{IsValid};
ghost use Rattle.lawful_log.specs.Good.{checked_of};
ghost use Rattle.lawful_log.specs.Lawful.{IsLawfulLog};
ghost use Rattle.lawful_log.specs.Setup.{Setup, start_areas};
ghost use Rattle.audited_logs.specs.Printed.{AreLawfulChoices};
ghost use Rattle.lawful_reading.specs.Given.{Given};
ghost use Rattle.lawful_reading.specs.Reading.{IsLawful, IsUnlawful};
ghost use Rattle.machine_world.specs.Threads.{World};
ghost use Rattle.machine_world.specs.WellFormed.{AreWellFormed, most_fuel};
ghost use Rattle.schedule_log.specs.EntryText.{log_text};
ghost use Rattle.schedule_log.specs.declared.entries.Entry.{Entry};
ghost use Rattle.schedule_log.specs.declared.entries.StopLine.{StopLine};

/// Laws: the text of the lawful log of a valid pair of a well-scoped program, with no cap above 2^31, has one of two
/// verdicts by the lawful reading, under the same policy and on the same trace. It is lawful, or some line needs more
/// steps of the source than the limit, whatever that is. So it is never unlawful, and it is lawful if the limit is
/// large enough.
pub fn lawful_logs_are_read_as_lawful()
    ensures judged { (g : Setup) (trace : List ℕ) (entries : List Entry) (stop : StopLine) (end : World) (most_steps : ℕ) → IsWellScoped g.program →
        IsValid (lowered g.program) g.image g.certificate → AreWellFormed (checked_of g) (start_areas g) → g.policy.fuel ≤ most_fuel →
        AreCapsSmall g.policy.caps → IsLawfulLog g trace entries stop end → IsLawfulOrTooLong (given_of g most_steps) trace (log_text entries) }
    ensures never_unlawful { (g : Setup) (trace : List ℕ) (entries : List Entry) (stop : StopLine) (end : World) (most_steps line : ℕ) → IsWellScoped g.program →
        IsValid (lowered g.program) g.image g.certificate → AreWellFormed (checked_of g) (start_areas g) → g.policy.fuel ≤ most_fuel →
        AreCapsSmall g.policy.caps → IsLawfulLog g trace entries stop end → IsUnlawful (given_of g most_steps) trace (log_text entries) line → ⊥ }
    ensures enough { (g : Setup) (trace : List ℕ) (entries : List Entry) (stop : StopLine) (end : World) → IsWellScoped g.program →
        IsValid (lowered g.program) g.image g.certificate → AreWellFormed (checked_of g) (start_areas g) → g.policy.fuel ≤ most_fuel →
        AreCapsSmall g.policy.caps → IsLawfulLog g trace entries stop end → IsLawfulWithEnough g trace (log_text entries) }
{}

/// Law: a valid pair has a lawful log with such a verdict, whatever the trace and the policy.
pub fn pairs_have_logs_that_are_read()
    ensures { (g : Setup) (trace : List ℕ) (most_steps : ℕ) → IsWellScoped g.program → IsValid (lowered g.program) g.image g.certificate →
        AreWellFormed (checked_of g) (start_areas g) → g.policy.fuel ≤ most_fuel → AreCapsSmall g.policy.caps → HasReadLog g most_steps trace }
{}

/// Law: in a log with the verdict lawful, each `run` line names the choice of the rule at that place. The choice
/// depends on the program's world under the printed schedule, and on the averages of the costs, the clock and the free
/// chunks that the lines before it print.
pub fn read_choices_are_lawful()
    ensures { (g : Given) (trace log : List ℕ) → (lawful : IsLawful g trace log) → AreLawfulChoices g trace lawful.entries }
{}
