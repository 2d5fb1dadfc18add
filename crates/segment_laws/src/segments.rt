ghost use Rattle.std.specs.Prelude.{◌∷◌};
ghost use Rattle.certificate_rules.specs.Validity.{IsValid};
ghost use Rattle.flat_code.specs.Codes.{FlatCode};
ghost use Rattle.flat_code.specs.Frames.{FlatThread};
ghost use Rattle.flat_code.specs.WellFormed.{IsWellFormed};
ghost use Rattle.machine_world.specs.Local.{Local};
ghost use Rattle.machine_world.specs.StandsFor.{StandsForFlatThread};
ghost use Rattle.segment_laws.specs.Zeroes.{ZeroesSome};
ghost use Rattle.segment_laws.specs.Ways.{HasForm};
ghost use Rattle.segment_laws.specs.Alike.{FollowsAsks, IsNeverLost, MayRun, running_on, RunsAlike};
ghost use Rattle.stack_certificate.specs.declared.certificates.Certificate.{Certificate};
ghost use Rattle.stack_image.specs.declared.images.Image.{Image};

/// Law: from a machine thread that rests, at no ECALL, and stands for a thread of flat code, machine and flat code run
/// alike up to the next question, trap or end, in both directions. Each state on the way is in place with a good
/// access, no step is wrong, and the machine is cut off only at a LINK for which no free chunk fits. The code is that
/// of a valid pair.
pub fn segment_law()
    ensures { (flat : FlatCode) (image : Image) (certificate : Certificate) (l : Local) (t : FlatThread) → IsWellFormed flat → ZeroesSome flat → FollowsAsks flat → IsValid flat image certificate →
        HasForm (record { flat = flat; certificate = certificate }) l → (stands : StandsForFlatThread (record { flat = flat; certificate = certificate }) l (t.frame ∷ t.below) t.globals) →
        MayRun (record { flat = flat; certificate = certificate }) l.areas.pool l.core stands.rests →
        IsNeverLost flat (running_on (record { flat = flat; certificate = certificate }) l.areas.pool l.core stands.rests t) →
        RunsAlike (record { flat = flat; certificate = certificate }) image.code l (running_on (record { flat = flat; certificate = certificate }) l.areas.pool l.core stands.rests t) }
{}
