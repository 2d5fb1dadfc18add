ghost use Rattle.std.specs.Prelude.{◌≤◌, IfOk, IfErr, length};
ghost use Rattle.std.specs.List.Sorted.{IsStrictlyIncreasing};
ghost use Rattle.c_lower.specs.ProgramCode.{lowered};
ghost use Rattle.accepted_pairs.specs.Accepting.{accepted_tree};
ghost use Rattle.certificate_rules.specs.Sites.{fact_numbers};
ghost use Rattle.flat_code.specs.ProgramView.{program_code};
ghost use Rattle.chunk_budget.specs.Budgets.{IsBudget, IsRefusal};

use crate::budgets::{Budget, BudgetError};
use crate::roots::least_high_root;
use crate::sites::least_low_site;
use accepted_pairs::Accepted;
use flat_code::FlatProgram;
use stack_certificate::Certificate;

/// Checks a budget of an accepted program. At each call of a function or a table the caller's height is at least that
/// of each function that may be called, and one more if the site is linked; the heights of `main` and each function
/// with which a thread is started are below the number of chunks per thread. It doesn't allocate.
///
/// # Errors
///
/// The first of these that applies: `Length` exactly if the number of heights isn't the number of functions; `Zero`
/// exactly if a thread has no chunk; `Low` with the least site, by number, at which the caller is too low; `Root` with
/// the least of `main` and the functions with which threads are started that is too high.
pub fn check_budget(accepted: &Accepted, budget: &Budget) -> Result<(), BudgetError>
    ensures budget { IfOk result (λ _. IsBudget (lowered (accepted_tree accepted.now)) accepted.now.certificate budget.now) }
    ensures refused { IfErr result (IsRefusal (lowered (accepted_tree accepted.now)) accepted.now.certificate budget.now) }
{
    accepted.is_valid();
    check_code(accepted.flat(), accepted.certificate(), budget)
}

// Checks a budget of a program with a certificate.
fn check_code(
    flat: &FlatProgram,
    certificate: &Certificate,
    budget: &Budget,
) -> Result<(), BudgetError>
    requires rising { IsStrictlyIncreasing (fact_numbers certificate.now.sites) }
    requires few { length (program_code flat.now).functions ≤ 4096 }
    ensures budget { IfOk result (λ _. IsBudget (program_code flat.now) certificate.now budget.now) }
    ensures refused { IfErr result (IsRefusal (program_code flat.now) certificate.now budget.now) }
{
    let functions = flat.functions().len();
    if budget.heights.len() != functions {
        return Err(BudgetError::Length {
            heights: budget.heights.len() as u64,
            functions: functions as u32,
        });
    }
    if budget.per_thread == 0 {
        return Err(BudgetError::Zero);
    }
    match least_low_site(flat, certificate, budget.heights.as_slice()) {
        Some(site) => Err(BudgetError::Low { site }),
        None => match least_high_root(flat, budget) {
            Some(function) => Err(BudgetError::Root { function }),
            None => Ok(()),
        },
    }
}
