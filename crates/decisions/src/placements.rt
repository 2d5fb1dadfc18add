// Every program has a call graph, and every call graph a placement.
ghost use Rattle.std.specs.Prelude.{ℕ, nat_eq};
ghost use Rattle.std.specs.List.{IsDistinct};
ghost use Rattle.flat_code.specs.Codes.{FlatCode};
ghost use Rattle.flat_code.specs.WellFormed.{site_numbers};
ghost use Rattle.call_graph.specs.Graph.{CallGraphState, IsCallGraph};
ghost use Rattle.cycle_break.specs.BackEdges.{back_edges};
ghost use Rattle.checkpoint_place.specs.declared.plans.Plan.{Plan};
ghost use Rattle.checkpoint_place.specs.Placement.{IsPlacement};
ghost use Rattle.stack_plan.specs.Plans.{IsGraphOf};

/// Law: a program whose sites have distinct numbers has a call graph, and a call graph has a placement for paths of any
/// length.
pub fn placement_is_there()
    ensures graph { (code : FlatCode) → IsDistinct nat_eq (site_numbers code) → (graph : CallGraphState) × IsGraphOf code graph }
    ensures placement { (graph : CallGraphState) (max_path : ℕ) → IsCallGraph graph → (plan : Plan) × IsPlacement graph (back_edges graph) max_path plan }
{}
