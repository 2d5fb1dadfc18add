// Every planned program is laid out.
ghost use Rattle.std.specs.Prelude.{nat_eq};
ghost use Rattle.std.specs.List.{IsDistinct};
ghost use Rattle.flat_code.specs.Codes.{FlatCode};
ghost use Rattle.flat_code.specs.WellFormed.{site_numbers};
ghost use Rattle.checkpoint_place.specs.declared.plans.Plan.{Plan};
ghost use Rattle.stack_image.specs.declared.images.Image.{Image};
ghost use Rattle.stack_certificate.specs.declared.certificates.Certificate.{Certificate};
ghost use Rattle.codegen_link.specs.declared.options.Options.{Options};
ghost use Rattle.stack_build.specs.Builds.{IsPlanned, IsLaidOut};

/// Law: a program whose sites have distinct numbers, and which has a plan, is laid out as some image and certificate,
/// however large its code is.
pub fn layout_is_there()
    ensures { (code : FlatCode) (options : Options) (plan : Plan) → IsDistinct nat_eq (site_numbers code) → IsPlanned code options.max_path plan →
        (image : Image) × (certificate : Certificate) × IsLaidOut code options image certificate }
{}
