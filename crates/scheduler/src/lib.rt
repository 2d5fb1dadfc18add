// The scheduler: which thread runs next, by the blocking graph and the pressure on resources.
//
// Threads wait in a queue for each node of the blocking graph (`Scheduler::enqueue`), with their needs if these are
// known (`Scheduler::enqueue_for`). A choice (`Scheduler::choose`) takes the node with the least score, that is, whose
// segments are expected to free resources under pressure, and the first eligible thread of that node. Threads at
// `accept` wait while the gate is closed and another thread can run. `Scheduler::note_choice` removes the thread from
// its queue. `Scheduler::take_choice` does both for a world that guarantees the needs, and asks no thread. The runner
// cites `specs/LawfulChoice.antt`, which defines a choice independently of the search for it, and `specs/State.antt`.
// The idea of a choice that depends on the use of resources is Capriccio's (von Behren et al., SOSP 2003); the order of
// nodes and the gate are our own.
#![tactic(auto)]

mod choices;
mod choosing;
mod eligibility;
mod finding;
mod node_queues;
mod queues;
mod scheduler;
mod scores;

pub use choices::Choice;
pub use eligibility::may_go_on;
pub use finding::bounds_at_gate;
pub use scheduler::Scheduler;
