// The existence of a judgement.
ghost use Rattle.std.specs.Prelude.{◌≡◌, ℕ, List};
ghost use Rattle.lawful_reading.specs.Given.{Given};
ghost use Rattle.lawful_reading.specs.Judgements.{IsJudgement};
ghost use Rattle.lawful_reading.specs.declared.judgement.Judgement.{Judgement};

/// Laws: every log has exactly one judgement, whatever the program, the options and the trace are.
pub fn audit_has_an_outcome()
    ensures some { (g : Given) (trace log : List ℕ) → (judgement : Judgement) × IsJudgement g trace log judgement }
    ensures one { (g : Given) (trace log : List ℕ) (judgement other : Judgement) → IsJudgement g trace log judgement → IsJudgement g trace log other → judgement ≡ other }
{}
