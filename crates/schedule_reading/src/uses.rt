// The uses of resources.
ghost use Rattle.std.specs.Prelude.{◌≡◌, ◌≤◌, ◌<◌, slice_index, length, ℕ};

use crate::reading::Reading;
use resource_monitor::Measure;

impl<C: Measure + Drop> Reading<'_, C> {
    ghost use Rattle.schedule_reading.specs.Uses.{cap_in, used_in};

    /// Returns the uses of the eight resources; that of resource 0 is the number of held chunks.
    pub(crate) fn uses(&self) -> [u32; 8]
        requires { self.now.core.free ≤ self.now.core.policy.chunks }
        ensures uses { (r : ℕ) → r < 8 → slice_index result r ≡ used_in self.now.core r }
        ensures within { (r : ℕ) → r < 8 → slice_index result r ≤ cap_in self.now.core r }
        ensures eight { length result ≡ 8 }
    {
        let mut uses = [0; 8];
        for resource in 0..8u32 {
            uses[resource as usize] = self.used(resource);
        }
        uses
    }

    /// Returns the use of a resource.
    fn used(&self, resource: u32) -> u32
        requires there { resource < 8 }
        requires free { self.now.core.free ≤ self.now.core.policy.chunks }
        ensures use_is { result ≡ used_in self.now.core resource }
        ensures within { result ≤ cap_in self.now.core resource }
    {
        if resource == 0 {
            self.policy.chunks - self.free
        } else {
            self.threads.used(resource)
        }
    }
}
