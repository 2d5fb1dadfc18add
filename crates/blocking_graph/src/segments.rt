ghost use Rattle.std.specs.Prelude.{◌≡◌, ◌<◌, ◌-ℤ◌, pos, slice_index, slice_index_or, ℕ};

/// The record of a segment from one blocking point to the next: the nodes, the cost in instructions,
/// and the change in the use of each resource.
#[derive(Clone, Copy)]
pub struct SegmentRecord {
    /// The node at which the segment began.
    pub from: u32,
    /// The node at which it ended.
    pub to: u32,
    /// The number of instructions that it retired, below 2^40.
    pub cost: u64,
    /// The use of each resource after the segment minus its use before, from -2^31 to 2^31.
    pub change: [i64; 8],
}

/// Returns the change of each use, from the uses before and after a segment.
pub fn changes(before: &[u32; 8], after: &[u32; 8]) -> [i64; 8]
    ensures { (r : ℕ) → r < 8 → slice_index_or result r (pos 0) ≡ pos (slice_index after.now r) -ℤ pos (slice_index before.now r) }
{
    let mut change = [0; 8];
    for place in 0..8 {
        change[place] = difference(before[place], after[place]);
    }
    change
}

// The second use minus the first.
fn difference(before: u32, after: u32) -> i64
    ensures { result ≡ pos after -ℤ pos before }
{
    i64::from(after) - i64::from(before)
}
