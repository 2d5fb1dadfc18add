ghost use Rattle.std.specs.Prelude.{◌≡◌, nat_le};
ghost use Rattle.std.specs.List.{list_any, list_all};
ghost use Rattle.resource_monitor.specs.Gate.{gate_after};

fn any_at_least(seen: &[u32], high: u32) -> bool
    ensures { result ≡ list_any (λ p. nat_le high p) seen.now }
{
    seen.iter().any(|pressure| *pressure >= high)
}

fn all_at_most(seen: &[u32], low: u32) -> bool
    ensures { result ≡ list_all (λ p. nat_le p low) seen.now }
{
    seen.iter().all(|pressure| *pressure <= low)
}

/// Returns whether the gate is open after these pressures are observed.
pub(crate) fn is_open_after(high: u32, low: u32, was_open: bool, seen: &[u32]) -> bool
    ensures { result ≡ gate_after high low was_open seen.now }
{
    if any_at_least(seen, high) {
        false
    } else if all_at_most(seen, low) {
        true
    } else {
        was_open
    }
}
