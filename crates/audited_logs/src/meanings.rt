ghost use Rattle.std.specs.Prelude.{◌≤◌, List, ℕ};
ghost use Rattle.c_lower.specs.ProgramCode.{lowered};
ghost use Rattle.c_hoist.specs.NestedText.{MeansText, ReadsNested};
ghost use Rattle.c_tree.specs.Trees.{ProgramTree};
ghost use Rattle.c_tree.specs.WellScoped.{IsWellScoped};
ghost use Rattle.certificate_rules.specs.Validity.{IsValid};
ghost use Rattle.deep_mean.specs.Naming.{deep_program};
ghost use Rattle.lawful_log.specs.Good.{checked_of};
ghost use Rattle.lawful_log.specs.Lawful.{IsLawfulLog};
ghost use Rattle.lawful_log.specs.Setup.{Setup, start_areas};
ghost use Rattle.lawful_reading.specs.Given.{Given};
ghost use Rattle.lawful_reading.specs.Reading.{IsLawful};
ghost use Rattle.machine_world.specs.Threads.{World};
ghost use Rattle.machine_world.specs.WellFormed.{AreWellFormed, most_fuel};
ghost use Rattle.schedule_log.specs.declared.entries.Entry.{Entry};
ghost use Rattle.schedule_log.specs.declared.entries.StopLine.{StopLine};
ghost use Rattle.audited_logs.specs.TextLog.{IsTextLog};

/// Law: each well-scoped program as which a source is read does what the source means. The source's expressions may
/// contain calls.
pub fn programs_mean_their_text()
    ensures { (source : List ℕ) (program : ProgramTree) → IsWellScoped program → MeansText source program }
{}

/// Law: the lawful log of a valid pair of a program as which a source is read is the source's log. Under the schedule
/// that its lines print, the source puts what they print, blocks and ends where they say so, at calls of the printed
/// keys, and stops as they say: at `stop done` each of its threads has ended.
pub fn logs_are_the_texts()
    ensures { (source : List ℕ) (g : Setup) (trace : List ℕ) (entries : List Entry) (stop : StopLine) (end : World) → (read : ReadsNested source g.program) →
        IsWellScoped g.program → IsValid (lowered g.program) g.image g.certificate → AreWellFormed (checked_of g) (start_areas g) → g.policy.fuel ≤ most_fuel →
        IsLawfulLog g trace entries stop end → IsTextLog (deep_program read.tree) g.policy.caps entries }
{}

/// Law: a log with the verdict lawful is the source's log. Under the schedule that its lines print, the source puts
/// what they print, blocks and ends where they say so, at calls of the printed keys, and stops as they say.
pub fn read_logs_are_the_texts()
    ensures { (source : List ℕ) (g : Given) (trace log : List ℕ) → (read : ReadsNested source g.program) → IsWellScoped g.program →
        (lawful : IsLawful g trace log) → IsTextLog (deep_program read.tree) g.policy.caps lawful.entries }
{}
