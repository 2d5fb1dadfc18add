ghost use Rattle.std.specs.Prelude.{◌≡◌, ℕ, ◌+◌, ◌^◌, ◌<◌, List, length, Option, Some};
ghost use Rattle.cap_word.specs.Calls.{Question};
ghost use Rattle.cap_word.specs.Runs.{Asks};
ghost use Rattle.rv_machine.specs.Registers.{read};
ghost use Rattle.flat_code.specs.Frames.{FlatThread, FlatWaiting, standing, with_result};
ghost use Rattle.flat_code.specs.Step.{flat_step};
ghost use Rattle.flat_code.specs.declared.operations.Op.{Op};
ghost use Rattle.stack_certificate.specs.Certificates.{fact_at, need_of};
ghost use Rattle.stack_certificate.specs.Templates.{kind_of};
ghost use Rattle.machine_world.specs.InPlace.{Frame};
ghost use Rattle.stack_certificate.specs.Registers.{a0};
ghost use Rattle.machine_world.specs.Local.{Local};
ghost use Rattle.machine_world.specs.Places.{Checked};
ghost use Rattle.segment_laws.specs.Asking.{Arrives, AsksAlike, StartsAlike};
ghost use Rattle.segment_laws.specs.Facts.{CodeFacts};
ghost use Rattle.segment_laws.specs.Simulation.{During, Simulates};

/// Laws of operations that ask the world: if the flat thread asks a modelled call or a new thread, the machine reaches
/// rest at that operation's ECALL by good steps and asks the same; and just after the ECALL, with the result in a0, it
/// stands, at once or after good steps, for the flat thread with that result.
pub fn asking_laws()
    ensures calls { (c : Checked) (code : List ℕ) (l : Local) (t : FlatThread) (site n : ℕ) (d : Option ℕ) (args : List ℕ) (q : Question) (w : FlatWaiting) →
        CodeFacts c code → (simulates : Simulates c l t) → standing c.flat t.frame ≡ Some (Op.Model site d n args) → flat_step c.flat t ≡ Asks q w →
        AsksAlike c code l t site n d args q w simulates }
    ensures starts { (c : Checked) (code : List ℕ) (l : Local) (t : FlatThread) (site : ℕ) (d : Option ℕ) (g x : ℕ) (q : Question) (w : FlatWaiting) →
        CodeFacts c code → (simulates : Simulates c l t) → standing c.flat t.frame ≡ Some (Op.Spawn site d g x) → flat_step c.flat t ≡ Asks q w →
        (fact_at c.certificate g).entry < 2 ^ 32 → need_of (kind_of c.certificate (Op.Spawn site d g x)) < 2 ^ 32 →
        StartsAlike c code l t site d g x q w simulates }
    ensures answered { (c : Checked) (code : List ℕ) (l : Local) (t : FlatThread) (site n v : ℕ) (d : Option ℕ) (args : List ℕ) (frame : Frame) (below : List Frame) →
        CodeFacts c code → standing c.flat t.frame ≡ Some (Op.Model site d n args) → During c l t (length args + 2) frame below → read l.core.x a0 ≡ v →
        Arrives c code l (record t { frame = with_result t.frame d v }) }
    ensures started { (c : Checked) (code : List ℕ) (l : Local) (t : FlatThread) (site g x v : ℕ) (d : Option ℕ) (frame : Frame) (below : List Frame) →
        CodeFacts c code → standing c.flat t.frame ≡ Some (Op.Spawn site d g x) → During c l t 7 frame below → read l.core.x a0 ≡ v →
        Arrives c code l (record t { frame = with_result t.frame d v }) }
{}
