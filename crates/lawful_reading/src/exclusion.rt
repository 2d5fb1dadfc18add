// Properties of every log.
ghost use Rattle.std.specs.Prelude.{◌≡◌, ℕ, [], List};
ghost use Rattle.lawful_reading.specs.Given.{Given};
ghost use Rattle.lawful_reading.specs.Reading.{IsLawful, IsTooLong, IsUnlawful};

/// Law: a log without a line isn't lawful, since it has no stop.
pub fn empty_logs_are_refused()
    ensures { (g : Given) (trace : List ℕ) → IsUnlawful g trace [] 1 }
{}

/// Laws: a log has at most one judgement, and at most one line: it is lawful, or that line is the first that isn't
/// allowed, or it is the first that needs more steps than the limit.
pub fn verdicts_exclude_each_other()
    ensures lawful_unlawful { (g : Given) (trace log : List ℕ) (line : ℕ) → IsLawful g trace log → IsUnlawful g trace log line → ⊥ }
    ensures lawful_too_long { (g : Given) (trace log : List ℕ) (line : ℕ) → IsLawful g trace log → IsTooLong g trace log line → ⊥ }
    ensures unlawful_too_long { (g : Given) (trace log : List ℕ) (line other : ℕ) → IsUnlawful g trace log line → IsTooLong g trace log other → ⊥ }
    ensures one_unlawful { (g : Given) (trace log : List ℕ) (line other : ℕ) → IsUnlawful g trace log line → IsUnlawful g trace log other → line ≡ other }
    ensures one_too_long { (g : Given) (trace log : List ℕ) (line other : ℕ) → IsTooLong g trace log line → IsTooLong g trace log other → line ≡ other }
{}
