// The commands over a pair without a run, and the accepted pair for the commands with one.
//
// In: a shelf of files, an output, the names and sizes of a command. Out: what the commands
// `build`, `check`, `graph` and `budget` print and store (`do_build` and the like); for `serve`,
// `run` and `demo` a pair that the checker accepted (`accept_source`, `accept_files`,
// `accept_program`). specs/ has a definition for each command; those of `serve` and `run` include
// their run (specs/Runs.antt), but don't use the runner. The crate above runs the accepted pair.
#![tactic(auto)]

mod budget_command;
mod build_command;
mod check_command;
mod frames;
mod graph_command;
mod layouts;
mod pairs;
mod run_command;

pub use budget_command::do_budget;
pub use build_command::do_build;
pub use check_command::do_check;
pub use graph_command::do_graph;
pub use run_command::{accept_files, accept_program, accept_source};
