ghost use Rattle.std.specs.Prelude.{◌≡◌, ◌+◌, ◌^◌, ◌≤◌, sum, IfSome, IfNone};
ghost use Rattle.report_figures.specs.Ticks.{ticks_in};

use crate::TickList;

/// Returns the sum of the numbers, or `None` if it is 2^128 or more.
pub fn total_of(numbers: &TickList) -> Option<u128>
    ensures total { IfSome result (λ total. total ≡ sum (ticks_in numbers.now)) }
    ensures none { IfNone result (2 ^ 128 ≤ sum (ticks_in numbers.now)) }
{
    let small = with_small(0, numbers.small.as_slice())?;
    with_large(small, numbers.large.as_slice())
}

/// Adds these numbers to a total; `None` if it is 2^128 or more.
#[tactic(auto, using(crate::proofs::Sums::sum_more_le))]
fn with_small(before: u128, numbers: &[u32]) -> Option<u128>
    ensures total { IfSome result (λ total. total ≡ before + sum numbers.now) }
    ensures none { IfNone result (2 ^ 128 ≤ before + sum numbers.now) }
{
    let mut total = before;
    for number in numbers {
        total = total.checked_add(u128::from(*number))?;
    }
    Some(total)
}

/// Adds these numbers to a total; `None` if it is 2^128 or more.
#[tactic(auto, using(crate::proofs::Sums::sum_more_le))]
fn with_large(before: u128, numbers: &[u64]) -> Option<u128>
    ensures total { IfSome result (λ total. total ≡ before + sum numbers.now) }
    ensures none { IfNone result (2 ^ 128 ≤ before + sum numbers.now) }
{
    let mut total = before;
    for number in numbers {
        total = total.checked_add(u128::from(*number))?;
    }
    Some(total)
}
