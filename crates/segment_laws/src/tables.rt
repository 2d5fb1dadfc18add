ghost use Rattle.std.specs.Prelude.{◌≡◌, ℕ, List, Option, Some};
ghost use Rattle.cap_word.specs.Calls.{Finish};
ghost use Rattle.cap_word.specs.Runs.{Goes, Stops};
ghost use Rattle.flat_code.specs.Frames.{FlatThread, Finished, standing};
ghost use Rattle.flat_code.specs.Step.{flat_step};
ghost use Rattle.flat_code.specs.WellFormed.{IsWellFormed};
ghost use Rattle.flat_code.specs.declared.operations.Op.{Op};
ghost use Rattle.machine_world.specs.Local.{Local};
ghost use Rattle.machine_world.specs.Places.{Checked};
ghost use Rattle.segment_laws.specs.Calls.{CallFacts, CallsAlike};
ghost use Rattle.segment_laws.specs.Facts.{CodeFacts};
ghost use Rattle.segment_laws.specs.Simulation.{Simulates};
ghost use Rattle.segment_laws.specs.Tables.{TableTrapsAlike};

/// Laws of calls through a table, from a machine thread that stands for a flat thread. If the flat thread enters a
/// member of the table, the machine reaches a state by good steps in which it stands for it there, as at a call of a
/// function. If the index is out of range, it reaches the same trap by good steps.
pub fn table_laws()
    ensures calls { (c : Checked) (code : List ℕ) (l : Local) (t after : FlatThread) (site table i x : ℕ) (d : Option ℕ) → CodeFacts c code → CallFacts c → IsWellFormed c.flat → Simulates c l t →
        standing c.flat t.frame ≡ Some (Op.CallTable site d table i x) → flat_step c.flat t ≡ Goes after → CallsAlike c code l after }
    ensures traps { (c : Checked) (code : List ℕ) (l : Local) (t : FlatThread) (finish : Finish) (site table i x : ℕ) (d : Option ℕ) → CodeFacts c code → Simulates c l t →
        standing c.flat t.frame ≡ Some (Op.CallTable site d table i x) → flat_step c.flat t ≡ Stops (Finished finish) → TableTrapsAlike c code l t finish }
{}
