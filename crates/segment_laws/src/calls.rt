ghost use Rattle.std.specs.Prelude.{◌≡◌, ℕ, List, Option, Some};
ghost use Rattle.cap_word.specs.Calls.{Finish};
ghost use Rattle.cap_word.specs.Runs.{Goes, Stops};
ghost use Rattle.flat_code.specs.Frames.{FlatThread, Finished, standing};
ghost use Rattle.flat_code.specs.Step.{flat_step};
ghost use Rattle.flat_code.specs.declared.operations.Op.{Op};
ghost use Rattle.machine_world.specs.Local.{Local};
ghost use Rattle.machine_world.specs.Places.{Checked};
ghost use Rattle.segment_laws.specs.Facts.{CodeFacts};
ghost use Rattle.segment_laws.specs.Simulation.{Reaches, Simulates};
ghost use Rattle.segment_laws.specs.Calls.{CallFacts, CallsAlike, EndsAlike};

/// Laws of calls of functions and of returns, from a machine thread that stands for a flat thread. If the flat thread
/// enters a function, the machine reaches a state by good steps in which it stands for it there, in the same chunk or
/// in one that it linked, or it finds no chunk that fits the need. If the flat thread returns to a caller, the machine
/// reaches a state by good steps in which it stands for it there, with the result stored, and with a linked chunk given
/// back. If the flat thread ends, the machine thread does, with the same globals.
pub fn calling_laws()
    ensures calls { (c : Checked) (code : List ℕ) (l : Local) (t after : FlatThread) (site g : ℕ) (d : Option ℕ) (args : List ℕ) → CodeFacts c code → CallFacts c → Simulates c l t →
        standing c.flat t.frame ≡ Some (Op.Call site d g args) → flat_step c.flat t ≡ Goes after → CallsAlike c code l after }
    ensures returns { (c : Checked) (code : List ℕ) (l : Local) (t after : FlatThread) (s : Option ℕ) → CodeFacts c code → CallFacts c → Simulates c l t →
        standing c.flat t.frame ≡ Some (Op.Return s) → flat_step c.flat t ≡ Goes after → Reaches c code l after }
    ensures ends { (c : Checked) (code : List ℕ) (l : Local) (t : FlatThread) (finish : Finish) (s : Option ℕ) → CodeFacts c code → CallFacts c → Simulates c l t →
        standing c.flat t.frame ≡ Some (Op.Return s) → flat_step c.flat t ≡ Stops (Finished finish) → EndsAlike c code l t finish }
{}
