ghost use Rattle.certificate_rules.specs.Validity.{IsValid};
ghost use Rattle.flat_code.specs.Codes.{FlatCode};
ghost use Rattle.flat_code.specs.WellFormed.{IsWellFormed};
ghost use Rattle.segment_laws.specs.Calls.{CallFacts};
ghost use Rattle.stack_certificate.specs.declared.certificates.Certificate.{Certificate};
ghost use Rattle.stack_image.specs.declared.images.Image.{Image};

/// Law: a valid pair has the facts on entries, bounds and needs that the laws of calls assume.
pub fn call_facts_law()
    ensures { (code : FlatCode) (image : Image) (certificate : Certificate) → IsWellFormed code → IsValid code image certificate →
        CallFacts (record { flat = code; certificate = certificate }) }
{}
