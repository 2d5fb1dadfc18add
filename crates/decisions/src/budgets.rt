// Every program with a call graph has a budget or a cycle.
ghost use Rattle.std.specs.Prelude.{ℕ, ◌⊎◌};
ghost use Rattle.flat_code.specs.Codes.{FlatCode};
ghost use Rattle.flat_code.specs.WellFormed.{IsWellFormed};
ghost use Rattle.call_graph.specs.Graph.{CallGraphState, IsCallGraph};
ghost use Rattle.call_cycles.specs.Cycles.{IsLeast, IsOnCycle};
ghost use Rattle.call_cycles.specs.Orders.{IsGraph};
ghost use Rattle.stack_certificate.specs.declared.certificates.Certificate.{Certificate};
ghost use Rattle.chunk_budget.specs.declared.budgets.Budget.{Budget};
ghost use Rattle.chunk_budget.specs.LeastBudgets.{IsLeastBudget};

/// Law: a well-formed program either has functions on cycles of calls, of which one is the least, or has none and then,
/// under every certificate, a least budget.
pub fn least_budget_or_cycle()
    ensures { (code : FlatCode) (certificate : Certificate) (graph : CallGraphState) → IsWellFormed code → IsCallGraph graph → IsGraph code graph →
        ((f : ℕ) × IsLeast (IsOnCycle code) f) ⊎ (((f : ℕ) → IsOnCycle code f → ⊥) × (budget : Budget) × IsLeastBudget code certificate budget) }
{}
