// The commands that run a program, over the objects that are passed to them.
//
// In: a shelf of files, a trace and an output, with names and options. Out: the run of a pair to its stop (`serve`,
// `run_pair`), or a summary of the run of a workload (`demo`), with the status and the world at the stop (`Ended`), or
// the `Stop` that `finish` of `command_outcomes` reports on standard error. specs/Runs.antt of `pair_commands` and
// specs/Demos.antt define what is due, and specs/Ends.antt which world is returned. The other commands are in
// `pair_commands` and `command_audit`; `capriccio_call` joins them all. A caller that repeats a run gets its world from
// `made_world`, and passes worlds to `let_go`.
#![tactic(auto)]

mod commands;
mod demo_command;
mod ended;
mod running;
mod summaries;

pub use commands::{demo, run_pair, serve};
pub use ended::Ended;
pub use running::{let_go, made_world};
