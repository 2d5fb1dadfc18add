// Checkpoint placement: the calls at which a thread tests whether its chunk has enough space.
//
// In: a call graph with sites that break every cycle, and max path, the maximum weight of a path of calls
// without a test. Out: a `Plan`, which has a bound for each function and the numbers of the checkpointed
// sites; or the first function whose frame is too large. `specs/Placement.antt` has the rule; the contract
// of `place` says that the plan follows it, and that a function's bound is the greatest weight of a path
// of calls from it without a checkpoint. Code generation relies on that. Source: only the idea is
// Capriccio's (von Behren et al., SOSP 2003), the rule is this project's.
#![tactic(auto)]

mod bounds;
mod callee_bounds;
mod checkpoints;
mod placing;
mod plans;
mod refusals;

pub use callee_bounds::greatest_of;
pub use placing::place;
pub use plans::Plan;
pub use refusals::PlaceError;
