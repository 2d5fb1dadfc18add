// What the commands of the program share: their ends, and the texts that they print.
//
// In: an output and standard error. Out: the status of a text that was printed (`print`), or the
// `Stop` that ends a command, whose line `finish` writes to standard error. specs/Outcome.antt
// defines what a command does, specs/Done.antt what a call changes outside, specs/Steps.antt the
// results of a step, and specs/CauseLines.antt the status and the line of each refusal. The thread
// package isn't named here: a command that runs nothing returns a status, and what a run returns is
// a parameter of `EndsAs`. command_files loads, reads and stores files; the crates above have the
// commands.
#![tactic(auto)]

mod cause_lines;
mod documents;
mod faults;
mod reports;
mod stops;
mod telling;

pub use cause_lines::{put_number, put_rejected, put_text};
pub use documents::Document;
pub use faults::Fault;
pub use reports::finish;
pub use stops::{Cause, Stop};
pub use telling::{print, tell};
