ghost use Rattle.std.specs.Prelude.{◌≡◌};
ghost use Rattle.scheduler.specs.LawfulChoice.{is_eligible};

use cap_word::{Ready, ThreadId};

/// Returns whether a thread is eligible: it is ready and, if it is at `accept`, the gate is open or
/// no thread that isn't at `accept` is ready.
pub fn may_go_on<R: Ready>(ready: &R, gate_open: bool, thread: ThreadId) -> bool
    ensures { result ≡ is_eligible (R.is_ready ready.now) (R.at_accept ready.now) (R.any_elsewhere ready.now) gate_open thread }
{
    ready.is_ready(thread) && (!ready.at_accept(thread) || gate_open || !ready.any_elsewhere())
}
