ghost use Rattle.std.specs.Prelude.{◌≡◌, ℕ, List, Some};
ghost use Rattle.cap_word.specs.Calls.{Finish};
ghost use Rattle.cap_word.specs.Runs.{Goes, Stops};
ghost use Rattle.flat_code.specs.Frames.{FlatThread, Finished, standing};
ghost use Rattle.flat_code.specs.Step.{flat_step};
ghost use Rattle.flat_code.specs.declared.operations.Op.{Op};
ghost use Rattle.machine_world.specs.Local.{Local};
ghost use Rattle.machine_world.specs.Places.{Checked};
ghost use Rattle.segment_laws.specs.Facts.{CodeFacts};
ghost use Rattle.segment_laws.specs.Simulation.{Simulates, Reaches};
ghost use Rattle.segment_laws.specs.Straight.{IsStraight, TrapsAlike};

/// Laws of operations that stay in their frame and ask nothing: constants, copies, the operators, zeroing, globals and
/// elements, and jumps. From a machine thread that stands for a flat thread, each silent step of the flat thread is one
/// or more good steps of the machine, after which it stands for the result of the step; and if the flat thread traps,
/// the machine reaches the same trap by good steps.
pub fn straight_laws()
    ensures steps { (c : Checked) (code : List ℕ) (l : Local) (t after : FlatThread) (op : Op) → CodeFacts c code → Simulates c l t →
        standing c.flat t.frame ≡ Some op → IsStraight op → flat_step c.flat t ≡ Goes after → Reaches c code l after }
    ensures traps { (c : Checked) (code : List ℕ) (l : Local) (t : FlatThread) (finish : Finish) (op : Op) → CodeFacts c code → Simulates c l t →
        standing c.flat t.frame ≡ Some op → IsStraight op → flat_step c.flat t ≡ Stops (Finished finish) → TrapsAlike c code l t finish }
{}
