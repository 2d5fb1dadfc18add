// Laws of the graph, the placement and the pair of a program.
ghost use Rattle.std.specs.Prelude.{ℕ, ◌≡◌};
ghost use Rattle.c_lower.specs.ProgramCode.{lowered};
ghost use Rattle.c_tree.specs.Trees.{ProgramTree};
ghost use Rattle.c_tree.specs.WellScoped.{IsWellScoped};
ghost use Rattle.call_graph.specs.Graph.{CallGraphState, IsCallGraph};
ghost use Rattle.certificate_rules.specs.Validity.{IsValid};
ghost use Rattle.certificate_text.specs.Text as certificate;
ghost use Rattle.checkpoint_place.specs.declared.plans.Plan.{Plan};
ghost use Rattle.checkpoint_place.specs.Placement.{IsPlacement};
ghost use Rattle.codegen_link.specs.declared.options.Options.{Options};
ghost use Rattle.codegen_link.specs.Layout.{IsCertificateOf};
ghost use Rattle.cycle_break.specs.BackEdges.{back_edges};
ghost use Rattle.flat_code.specs.Codes.{FlatCode};
ghost use Rattle.stack_certificate.specs.declared.certificates.Certificate.{Certificate};
ghost use Rattle.stack_image.specs.declared.images.Image.{Image};
ghost use Rattle.stack_image.specs.Spelling as image;
ghost use Rattle.stack_plan.specs.Plans.{IsGraphOf};

/// Law: flat code has at most one graph, that of a well-scoped program is a call graph, and a call graph has at most
/// one placement for each max path.
pub fn one_plan_law()
    ensures graph { (code : FlatCode) (a b : CallGraphState) → IsGraphOf code a → IsGraphOf code b → a ≡ b }
    ensures lowered { (program : ProgramTree) (graph : CallGraphState) → IsWellScoped program → IsGraphOf (lowered program) graph → IsCallGraph graph }
    ensures placement { (graph : CallGraphState) (max_path : ℕ) (a b : Plan) → IsCallGraph graph → IsPlacement graph (back_edges graph) max_path a → IsPlacement graph (back_edges graph) max_path b → a ≡ b }
{}

/// Law: a valid image of a well-scoped program, and a valid certificate for a placement of it, are within the limits of
/// their files.
pub fn pairs_fit_law()
    ensures images { (program : ProgramTree) (i : Image) (c : Certificate) → IsWellScoped program → IsValid (lowered program) i c → image.IsWithinLimits i }
    ensures certificates { (program : ProgramTree) (plan : Plan) (options : Options) (i : Image) (c : Certificate) → IsWellScoped program → IsValid (lowered program) i c →
        IsCertificateOf (lowered program) plan options c → certificate.IsWithinLimits c }
{}
