// The state of a rule by which threads are chosen: the queues of the blocking graph, or the strides of threads.
//
// A run has one `RuleState` and asks it for each choice, so one loop serves both rules. A new thread waits at node 0
// (`start`); `take` chooses the thread that runs next, with its node, and notes the choice; after its segment the
// thread waits again at a node (`rejoin`) or has ended (`leave`). The effect of each call is defined by cases in
// `specs/Rules.antt`, from those of the scheduler and of the stride rule. The stride rule has no nodes:
// `StridesAtNodes` also keeps the node of each thread, by the slot of the thread's record. The runner cites
// `specs/Rules.antt`.
#![tactic(auto)]

mod nodes;
mod rules;
mod strides;

pub use rules::RuleState;
pub use strides::StridesAtNodes;
