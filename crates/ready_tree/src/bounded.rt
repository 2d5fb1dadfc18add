ghost use Rattle.std.specs.Prelude.{◌≡◌};
ghost use Rattle.cap_word.specs.declared.threads.ThreadId.{ThreadId as ThreadIdOf};
ghost use Rattle.ready_tree.specs.declared.needs.Need.{Need as NeedOf};
ghost use Rattle.ready_tree.specs.Needs.{is_met, is_arrival};

use crate::bounds::Bounds;
use cap_word::{Ready, ThreadId};

/// A world of threads that knows their needs.
pub trait Bounded: Ready {
    // Whether the world guarantees that this is the need of a thread.
    ghost vouches: { Self → ThreadIdOf → NeedOf → Type 0 };

    /// Returns what is available now. If the world guarantees the need of a thread, the thread is ready exactly if the
    /// need is met, and the need is an arrival exactly if the thread is at `accept`.
    fn bounds(&self) -> Bounds
        ensures ready { (thread : ThreadIdOf) → (need : NeedOf) → vouches self.now thread need → Self.is_ready self.now thread ≡ is_met result need }
        ensures at_accept { (thread : ThreadIdOf) → (need : NeedOf) → vouches self.now thread need → Self.at_accept self.now thread ≡ is_arrival need };
}
