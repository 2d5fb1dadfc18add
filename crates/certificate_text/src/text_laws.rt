// Laws of every certificate's text.
ghost use Rattle.std.specs.Prelude.{◌≡◌, ℕ, List};
ghost use Rattle.stack_certificate.specs.declared.certificates.Certificate.{Certificate};
ghost use Rattle.certificate_text.specs.Text.{spelling, IsWithinLimits, HoldsWords};
ghost use Rattle.certificate_text.specs.FirstRefused.{IsFirstRefused};

/// Law: a text is that of at most one certificate, it has at most one first refused line, and never both. It has no
/// effect at run time.
pub fn texts_mean_one_thing()
    ensures one_certificate { (c d : Certificate) → spelling c ≡ spelling d → c ≡ d }
    ensures one_refusal { (text : List ℕ) (m n : ℕ) → IsFirstRefused text m → IsFirstRefused text n → m ≡ n }
    ensures never_both { (c : Certificate) (n : ℕ) → IsWithinLimits c → HoldsWords c → ¬ IsFirstRefused (spelling c) n }
{}
