// The uses of the resources of a world, and their changes by a segment.
ghost use Rattle.std.specs.Prelude.{◌≡◌, ◌<◌, ◌≤◌, ◌^◌, All, unsigned_abs};
ghost use Rattle.resource_monitor.specs.Monitor.{NoneAbove};

use thread_core::World;

/// The maximum change of a use.
const MOST: i64 = 0x8000_0000;

/// Returns the uses of the eight resources, at most these caps: a use is never above its cap.
pub(crate) fn uses_of(world: &World, caps: &[u32; 8]) -> [u32; 8]
    ensures { NoneAbove result caps.now }
{
    let mut uses = [0; 8];
    for resource in 0..8u32 {
        uses[resource as usize] = at_most(world.used(resource), caps[resource as usize]);
    }
    uses
}

/// Returns a use, or its cap if that is less.
fn at_most(used: u32, cap: u32) -> u32
    ensures { result ≤ cap }
{
    if used <= cap { used } else { cap }
}

/// Returns the change of each use.
pub(crate) fn changes(before: &[u32; 8], after: &[u32; 8]) -> [i64; 8]
    ensures { All (λ change. unsigned_abs change ≤ 2 ^ 31) result }
{
    [
        difference(before[0], after[0]),
        difference(before[1], after[1]),
        difference(before[2], after[2]),
        difference(before[3], after[3]),
        difference(before[4], after[4]),
        difference(before[5], after[5]),
        difference(before[6], after[6]),
        difference(before[7], after[7]),
    ]
}

/// Returns the second use minus the first; caps are at most 1,000,000, so it is never cut off.
fn difference(before: u32, after: u32) -> i64
    ensures { unsigned_abs result ≤ 2 ^ 31 }
{
    (i64::from(after) - i64::from(before)).clamp(-MOST, MOST)
}
