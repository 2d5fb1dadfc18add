// The lawful log: which list of entries is the log of a program with its image and certificate, under a policy and a
// trace; and which entry each step of a run may write.
//
// Definitions that the runner and the command cite, and their laws. A state (State) is a machine world, a source
// world, what is left of the trace, the threads that wait and what choices rest on. An entry is allowed in a state and
// leads to the next: an event (Deliveries), the choice of a thread (Choice) by the rules of choice_rules, what a
// segment puts and how it ends (Segments). A log is a list of allowed entries from the start to a stop (Stops, Lawful), and
// it is good where each segment is a good stretch (Good). There is at most one (`uniqueness`). The idea of choices by a
// blocking graph is Capriccio's (von Behren et al., SOSP 2003).
//
// A run keeps a machine world beside the state of its log: between segments (IsBetween, specs/Within), where the clock may
// have moved (specs/Clocks), and within one (IsWithin), some steps without an entry after the state. It also keeps the
// threads that wait (specs/Waiting), the queues of a scheduler and the data of choices (specs/Beside). The laws `points`, `choosing` and `segments`
// say of each step of such a run which entry it may write; the runner cites their lemmas. Ready threads, sleepers and the
// choice are defined by the machine world and by the source world; here both agree.
//
// A run by strides has a stride rule, and the node of each thread, in addition to the state of its log (`strides`). Its
// clients are the waiting threads at their nodes (specs/Clients), and their passes are those that follow from the
// choices of the log (specs/Passes). Then the rule's choice is the lawful one, there is one if a thread is ready, and
// starts, choices and ends of segments keep both.
#![tactic(auto)]

mod choosing;
mod points;
mod segments;
mod strides;
mod uniqueness;

pub use choosing::choice_laws;
pub use points::point_laws;
pub use segments::segment_entry_laws;
pub use strides::stride_step_laws;
pub use uniqueness::at_most_one_log;
