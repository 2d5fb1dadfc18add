ghost use Rattle.std.specs.Prelude.{◌≡◌, ℕ, ◌+◌, List, ◌∷◌, Some};
ghost use Rattle.certificate_rules.specs.Validity.{IsValid};
ghost use Rattle.flat_code.specs.Codes.{FlatCode, operation_at, result_place};
ghost use Rattle.flat_code.specs.Frames.{FlatThread, with_result};
ghost use Rattle.flat_code.specs.declared.operations.Op.{Op};
ghost use Rattle.stack_certificate.specs.Registers.{a0};
ghost use Rattle.machine_world.specs.Local.{Local, Question};
ghost use Rattle.machine_world.specs.InPlace.{Frame};
ghost use Rattle.machine_world.specs.Places.{Checked, Place, IsAt};
ghost use Rattle.machine_world.specs.Globals.{AreGlobals};
ghost use Rattle.machine_world.specs.Rests.{IsPastCall, AreFlatPast};
ghost use Rattle.rv_machine.specs.Registers.{read};
ghost use Rattle.segment_laws.specs.Facts.{CodeFacts};
ghost use Rattle.segment_laws.specs.Ways.{HasForm};
ghost use Rattle.machine_world.specs.StandsFor.{StandsForFlatThread};
ghost use Rattle.segment_laws.specs.Asking.{AtAsk, Arrives};
ghost use Rattle.stack_certificate.specs.declared.certificates.Certificate.{Certificate};
ghost use Rattle.stack_image.specs.declared.images.Image.{Image};

/// Laws of rest: a machine thread that has reached the ECALL at which a flat thread asks stands for it there. Just
/// after the ECALL, with the result in a0, it stands, at once or after good steps, for the flat thread with that
/// result, if another operation follows. In code with a valid certificate each pc has at most one place.
pub fn rest_laws()
    ensures asks { (c : Checked) (code : List ℕ) (l : Local) (t : FlatThread) (op : Op) (word : ℕ) (question : Question) (frame : Frame) (below : List Frame) →
        (at : AtAsk c code l t op word question frame below) → StandsForFlatThread c at.at (t.frame ∷ t.below) t.globals }
    ensures goes_on { (flat : FlatCode) (image : Image) (certificate : Certificate) (l : Local) (f i word v : ℕ) (op next : Op) (place : Place) (frames : List Frame) (t : FlatThread) →
        CodeFacts (record { flat = flat; certificate = certificate }) image.code → IsValid flat image certificate → HasForm (record { flat = flat; certificate = certificate }) l →
        IsPastCall (record { flat = flat; certificate = certificate }) l.areas.pool l.core f i op word place frames → operation_at flat f (i + 1) ≡ Some next →
        AreFlatPast (record { flat = flat; certificate = certificate }) l.areas.pool i frames (t.frame ∷ t.below) → AreGlobals flat t.globals l.areas.globals → read l.core.x a0 ≡ v →
        Arrives (record { flat = flat; certificate = certificate }) image.code l (record t { frame = with_result t.frame (result_place op) v }) }
    ensures one_place { (flat : FlatCode) (image : Image) (certificate : Certificate) (pc : ℕ) (place other : Place) → IsValid flat image certificate →
        IsAt (record { flat = flat; certificate = certificate }) pc place → IsAt (record { flat = flat; certificate = certificate }) pc other → place ≡ other }
{}
