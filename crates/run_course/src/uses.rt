ghost use Rattle.std.specs.Prelude.{◌≡◌, ◌≤◌, ◌<◌, slice_index, ℕ};
ghost use Rattle.thread_core.specs.Worlds.{cap_in, used_in};

use thread_core::World;

/// Returns the uses of the eight resources of a world.
pub(crate) fn uses_of(world: &World) -> [u32; 8]
    ensures uses { (r : ℕ) → r < 8 → slice_index result r ≡ used_in world.now.machine r }
    ensures within { (r : ℕ) → r < 8 → slice_index result r ≤ cap_in world.now r }
{
    let mut uses = [0; 8];
    for resource in 0..8u32 {
        uses[resource as usize] = world.used(resource);
    }
    uses
}
