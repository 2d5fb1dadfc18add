// Decided properties of texts.
ghost use Rattle.std.specs.Prelude.{ℕ, ◌≡◌, ◌<◌, List, ◌++◌};
ghost use Rattle.cap_text.specs.Decimals.{canonical_decimal};
ghost use Rattle.decisions.specs.Decided.{Decided};

/// Law: it is decided whether two texts are equal, whether a text begins with another, and whether a text is the
/// canonical decimal of a number below a bound.
pub fn texts_are_decided()
    ensures same { (a b : List ℕ) → Decided (a ≡ b) }
    ensures front { (front text : List ℕ) → Decided ((rest : List ℕ) × (text ≡ front ++ rest)) }
    ensures number { (text : List ℕ) (bound : ℕ) → Decided ((n : ℕ) × (n < bound) × (text ≡ canonical_decimal n)) }
{}
