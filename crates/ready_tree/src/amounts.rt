// Amounts of the eight resources.
ghost use Rattle.std.specs.Prelude.{◌≡◌, ℕ, ◌<◌, min, slice_index};
ghost use Rattle.ready_tree.specs.Needs.{fits_first};

/// Returns whether the amount of some resource is unused.
pub(crate) fn fits_some(amounts: &[u32; 8], unused: &[u32; 8]) -> bool
    ensures { result ≡ fits_first amounts.now unused.now 8 }
{
    let mut fits = false;
    for resource in 0..8 {
        fits = fits || amounts[resource] <= unused[resource];
    }
    fits
}

/// Returns the lesser of two amounts, for each resource.
pub(crate) fn lesser(amounts: &[u32; 8], others: &[u32; 8]) -> [u32; 8]
    ensures { (r : ℕ) → r < 8 → slice_index result r ≡ min (slice_index amounts.now r) (slice_index others.now r) }
{
    let mut least = *amounts;
    for resource in 0..8 {
        least[resource] = least[resource].min(others[resource]);
    }
    least
}

/// Returns an amount of one resource, and of no other.
pub(crate) fn only(resource: u32, amount: u32) -> [u32; 8]
    ensures { resource < 8 → slice_index result resource ≡ amount }
{
    let mut amounts = [u32::MAX; 8];
    if resource < 8 {
        amounts[resource as usize] = amount;
    }
    amounts
}
