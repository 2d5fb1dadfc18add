ghost use Rattle.std.specs.Prelude.{◌≡◌, ◌≢◌, ℕ, ◌<◌, List, [], ◌∷◌, length, Some, None};
ghost use Rattle.cap_word.specs.Calls.{Call, Immediate, Question};
ghost use Rattle.cap_word.specs.Runs.{Goes, moves};
ghost use Rattle.cap_word.specs.declared.calls.Ask.{Ask};
ghost use Rattle.cap_word.specs.declared.traps.TrapKind.{TrapKind};
ghost use Rattle.flat_code.specs.Frames.{FlatFrame, Finished, variable, set_to};
ghost use Rattle.flat_code.specs.Samples.{passing, descending, overrunning, choosing, seen_of_main};
ghost use Rattle.flat_code.specs.Step.{flat_machine, started};
ghost use Rattle.flat_code.specs.WellFormed.{IsWellFormed};

/// Law: setting a variable gives it these words, and every other variable keeps its words.
pub fn variables_are_apart()
    ensures set { (frame : FlatFrame) (x : ℕ) (words : List ℕ) → x < length frame.variables →
        variable (set_to frame x words) x ≡ Some words }
    ensures others { (frame : FlatFrame) (x y : ℕ) (words : List ℕ) → y ≢ x →
        variable (set_to frame x words) y ≡ variable frame y }
    ensures count { (frame : FlatFrame) (x : ℕ) (words : List ℕ) →
        length (set_to frame x words).variables ≡ length frame.variables }
{}

/// Example: four small programs run like this, to their end: a call and its return, a recursion, an
/// index out of range and a table's index out of range.
pub fn samples_run()
    ensures formed { IsWellFormed passing }
    ensures before_its_end { moves (flat_machine passing) 7 (started passing 1 [] []) ≡
        Goes (record { frame = record { function = 1; next = 5; variables = Some (1 ∷ []) ∷ Some (0 ∷ []) ∷ Some (1 ∷ []) ∷ [] }; below = []; globals = [] }) }
    ensures passes { seen_of_main passing 8 ≡ record { asked = []; end = Some (Finished (record { trap = None; globals = [] })) } }
    ensures descends { seen_of_main descending 27 ≡
        record { asked = record { call = Immediate (Ask.Put 1); globals = [] } ∷ []; end = Some (Finished (record { trap = None; globals = [] })) } }
    ensures overruns { seen_of_main overrunning 13 ≡
        record { asked = record { call = Immediate (Ask.Put 9); globals = [] } ∷ []; end = Some (Finished (record { trap = Some TrapKind.Index; globals = [] })) } }
    ensures chooses { seen_of_main choosing 13 ≡
        record { asked = record { call = Immediate (Ask.Put 42); globals = [] } ∷ []; end = Some (Finished (record { trap = Some TrapKind.Table; globals = [] })) } }
{}
