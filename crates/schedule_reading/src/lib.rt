// Reads the log of a run without the machine: the state after its lines so far, and which line may
// come next.
//
// In: a program, limits, a monitor of its resources and a source of a trace. A `Reading` keeps an interpreter of the
// source with its threads, the scheduler's queues, the blocking graph, the monitor and the position in the trace. Out:
// what is required at a choice point and whether a line is allowed there, what the running thread does next within a
// number of steps, and the reading after a segment has ended. Each call keeps the invariant that relates the reading to
// a state of the lawful reading (`Stands`); the laws of a segment's lines are in proofs/. The crate above judges the
// lines one after another. The rules of choices by a blocking graph are Capriccio's (von Behren et al., SOSP 2003).
#![tactic(auto)]

mod choosing;
mod closing;
mod edges;
mod events;
mod held;
mod outputs;
mod parts;
mod points;
mod policy;
mod reading;
mod rulings;
mod stops;
mod threads;
mod uses;

pub use closing::is_key_of;
pub use edges::Shown;
pub use events::Happening;
pub use points::Point;
pub use policy::AuditPolicy;
pub use reading::{End, Next, Reading, Under};
pub use rulings::{Failure, Ruling, ruling_of};
pub use stops::Between;
pub use threads::{Rest, Slot, Threads};
