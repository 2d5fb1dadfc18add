ghost use Rattle.std.specs.Prelude.{length};
ghost use Rattle.certificate_rules.specs.Validity.{IsValid};
ghost use Rattle.flat_code.specs.Codes.{FlatCode};
ghost use Rattle.flat_code.specs.WellFormed.{IsWellFormed};
ghost use Rattle.segment_laws.specs.Zeroes.{ZeroesSome};
ghost use Rattle.segment_laws.specs.Facts.{CodeFacts};
ghost use Rattle.stack_certificate.specs.declared.certificates.Certificate.{Certificate};
ghost use Rattle.stack_image.specs.declared.images.Image.{Image};

/// Law: a valid pair has the facts on the code that the laws of one thread assume.
pub fn facts_law()
    ensures { (code : FlatCode) (image : Image) (certificate : Certificate) → IsWellFormed code → ZeroesSome code → IsValid code image certificate →
        CodeFacts (record { flat = code; certificate = certificate }) image.code }
{}
