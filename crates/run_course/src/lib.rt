// The data of a run in addition to its world of threads, and the parts of its steps.
//
// In: a world, an event of a trace, a sink. Out: a `Course`, with the rule of choice, the graph, the monitor, the
// reader of the trace and the current segment; and in the sink the lines of the log. A look reads the next line of the
// trace, a delivery takes an event, a choice begins a segment, and a pass writes what its thread did last and continues
// it. `runner` builds steps and whole runs from these. The clauses say, in terms of the lawful log (`lawful_log`), what
// each part may write, but not how.
#![tactic(auto)]

mod course;
mod deliveries;
mod edges;
mod ends;
mod fitting;
mod lines;
mod looking;
mod segments;
mod uses;

pub use course::{Course, Under};
pub use edges::write_edges;
pub use ends::{Failure, Halt, goes_on};
pub use lines::{failure_of, write_line};
pub use looking::{Looked, Next};
