// Every pair has a verdict.
ghost use Rattle.std.specs.Prelude.{ℕ, ◌⊎◌};
ghost use Rattle.flat_code.specs.Codes.{FlatCode};
ghost use Rattle.stack_image.specs.declared.images.Image.{Image};
ghost use Rattle.stack_certificate.specs.declared.certificates.Certificate.{Certificate};
ghost use Rattle.certificate_rules.specs.Validity.{IsValid, IsFirstFailure};

/// Law: every rule holds of a pair, or the pair has a first failure.
pub fn pair_is_valid_or_has_a_first_failure()
    ensures { (code : FlatCode) (image : Image) (certificate : Certificate) →
        IsValid code image certificate ⊎ ((rule f i : ℕ) × IsFirstFailure code image certificate rule f i) }
{}
