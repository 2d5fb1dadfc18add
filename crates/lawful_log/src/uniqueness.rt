ghost use Rattle.std.specs.Prelude.{◌≡◌, ◌++◌, List, ℕ, Some};
ghost use Rattle.machine_world.specs.Threads.{World};
ghost use Rattle.schedule_log.specs.declared.entries.Entry.{Entry};
ghost use Rattle.schedule_log.specs.declared.entries.StopLine.{StopLine};
ghost use Rattle.lawful_log.specs.Lawful.{IsLawfulLog, Leads};
ghost use Rattle.lawful_log.specs.Setup.{Setup, start_machine};
ghost use Rattle.lawful_log.specs.State.{State, start_of};

/// Law: at most one list of entries is the lawful log of a program with its image and certificate, a policy and a
/// trace, with one stop and one machine world at it. Any allowed entries from the start are a beginning of it.
pub fn at_most_one_log()
    ensures entries { (g : Setup) (trace : List ℕ) (a b : List Entry) (stop other : StopLine) (v w : World) →
        IsLawfulLog g trace a stop v → IsLawfulLog g trace b other w → a ≡ b }
    ensures stops { (g : Setup) (trace : List ℕ) (a b : List Entry) (stop other : StopLine) (v w : World) →
        IsLawfulLog g trace a stop v → IsLawfulLog g trace b other w → (stop ≡ other) × (v ≡ w) }
    ensures begins { (g : Setup) (trace : List ℕ) (start : World) (so_far entries : List Entry) (state : State) (stop : StopLine) (end : World) →
        start_machine g ≡ Some start → Leads g (start_of g trace start) so_far state → IsLawfulLog g trace entries stop end →
        (rest : List Entry) × (entries ≡ so_far ++ rest) }
{}
