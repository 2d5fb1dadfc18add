ghost use Rattle.std.specs.Prelude.{ℕ, ◌<◌, length, IfOk, IfErr};
ghost use Rattle.std.specs.List.{AllByRecursion};
ghost use Rattle.std.specs.List.Sorted.{IsStrictlyIncreasing};
ghost use Rattle.c_lower.specs.ProgramCode.{lowered};
ghost use Rattle.accepted_pairs.specs.Accepting.{accepted_tree};
ghost use Rattle.certificate_rules.specs.Sites.{fact_numbers};
ghost use Rattle.flat_code.specs.ProgramView.{program_code};
ghost use Rattle.call_cycles.specs.Cycles.{IsOnCycle};
ghost use Rattle.call_cycles.specs.Orders.{IsFromBottom, StandsBefore};
ghost use Rattle.chunk_budget.specs.LeastBudgets.{IsLeastBudget, IsCycleRefusal, HasNoBudget};

use crate::budgets::{Budget, MakeBudgetError};
use crate::made::{highest_root, least_heights};
use accepted_pairs::Accepted;
use call_cycles::{OrderError, bottom_up_order};
use cap_word::Words;
use flat_code::FlatProgram;
use stack_certificate::Certificate;
use std::alloc::{AllocError, Global};

/// Returns the least budget of an accepted program: no other budget of it has fewer chunks per thread, or a lesser
/// height of a function.
///
/// # Errors
///
/// `Cycle` exactly if some function is on a cycle of calls of functions and tables, with the least one, unless memory
/// runs out; such a program has no budget. `Memory` if an allocation fails, or if there are more than 2^32 functions or
/// a height is 2^32 or more, which is impossible for an accepted program.
pub fn make_budget(alloc: Global, accepted: &Accepted) -> Result<Budget, MakeBudgetError>
    ensures least { IfOk result (IsLeastBudget (lowered (accepted_tree accepted.now)) accepted.now.certificate) }
    ensures acyclic { IfOk result (λ _. (f : ℕ) → IsOnCycle (lowered (accepted_tree accepted.now)) f → ⊥) }
    ensures refused { IfErr result (IsCycleRefusal (lowered (accepted_tree accepted.now))) }
    ensures none { IfErr result (HasNoBudget (lowered (accepted_tree accepted.now)) accepted.now.certificate) }
{
    accepted.is_valid();
    made_of(alloc, accepted.flat(), accepted.certificate())
}

// The least budget of a program with a certificate.
fn made_of(
    alloc: Global,
    flat: &FlatProgram,
    certificate: &Certificate,
) -> Result<Budget, MakeBudgetError>
    requires { IsStrictlyIncreasing (fact_numbers certificate.now.sites) }
    ensures least { IfOk result (IsLeastBudget (program_code flat.now) certificate.now) }
    ensures acyclic { IfOk result (λ _. (f : ℕ) → IsOnCycle (program_code flat.now) f → ⊥) }
    ensures refused { IfErr result (IsCycleRefusal (program_code flat.now)) }
{
    match bottom_up_order(alloc, flat) {
        Err(OrderError::Memory) => Err(MakeBudgetError::Memory),
        Err(OrderError::Cycle { function }) => Err(MakeBudgetError::Cycle { function }),
        Ok(order) => match budget_over(alloc, flat, certificate, order.as_slice()) {
            Ok(budget) => Ok(budget),
            Err(AllocError) => Err(MakeBudgetError::Memory),
        },
    }
}

// The least budget, computed in an order in which each function comes after those that it calls.
fn budget_over(
    alloc: Global,
    flat: &FlatProgram,
    certificate: &Certificate,
    order: &[u32],
) -> Result<Budget, AllocError>
    requires rising { IsStrictlyIncreasing (fact_numbers certificate.now.sites) }
    requires functions { AllByRecursion (λ f. f < length (program_code flat.now).functions) order.now }
    requires order { IsFromBottom (program_code flat.now) order.now }
    requires all { (f : ℕ) → f < length (program_code flat.now).functions → StandsBefore order.now (length order.now) f }
    ensures { IfOk result (IsLeastBudget (program_code flat.now) certificate.now) }
{
    let heights = least_heights(alloc, flat, certificate, order)?;
    let highest = highest_root(flat, heights.as_slice());
    match highest.checked_add(1) {
        None => Err(AllocError),
        Some(per_thread) => Ok(Budget {
            per_thread,
            heights: Words::new(heights),
        }),
    }
}
