// The runner: runs a world of threads over a trace, to the end of the run.
//
// In: a new world, a monitor of its resources, a trace and a sink. Out: the lawful log in the sink, and how the run
// ended (`run`, `run_stride`). It delivers events, advances the clock, chooses threads and runs their segments, one
// step of a choice point after another (`run_course`), and writes a line for each. The crate above uses the clauses of
// `run` over the lawful log (`lawful_log`), which say what is written but not how. The idea of choices by a blocking
// graph is Capriccio's (von Behren et al., SOSP 2003).
#![tactic(auto)]

mod closing;
mod ends;
mod running;
mod stepping;
mod waiting;

pub use ends::{RunEnd, StrideEnd};
pub use running::{run, run_stride};
