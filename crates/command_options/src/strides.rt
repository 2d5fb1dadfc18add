// The stride rule, from the options.
ghost use Rattle.std.specs.Prelude.{◌≡◌, ◌≤◌, IfOk};
ghost use Rattle.command_words.specs.Values.{pairs_of};
ghost use Rattle.stride_rule.specs.State.{new_rule};
ghost use Rattle.stride_rule.specs.Tickets.{AreTickets};

use command_words::Tickets;
use std::alloc::{AllocError, Global};
use stride_rule::StrideRule;

/// Returns the stride rule with these tickets, before any thread is started.
pub fn stride_rule_of(alloc: Global, tickets: &Tickets) -> Result<StrideRule, AllocError>
    requires few { tickets.now.count ≤ 64 }
    requires in_range { AreTickets (pairs_of tickets.now) }
    ensures { IfOk result (λ rule. rule ≡ new_rule (pairs_of tickets.now)) }
{
    let given = Vec::from_slice(alloc, &tickets.pairs[..tickets.count as usize])?;
    Ok(StrideRule::new(alloc, given))
}
