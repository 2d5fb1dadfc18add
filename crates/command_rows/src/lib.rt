// Rows over the program's public call, `capriccio_call`, on files, traces and streams in memory, and over the world of
// threads below it.
//
// For the program, a row has words, files and a trace with the status, the output, the line on standard error and the
// files that are expected, worked out by hand from what the commands promise. Only `calls.rt` calls the program;
// `sequence.rt` examines the world that it returns. `graphs.rt`, `checks.rt`, `builds.rt`, `audits.rt`, `serving.rt`,
// `demos.rt`, `refusals.rt` and `example_rows.rt` are the tables, by command; `faults.rt` and `server_faults.rt` have
// objects that fail, `untold.rt` a trace that doesn't expose its bytes, `command_line.rt` the words of a command line.
//
// For the world of threads, a source is built, its world made, and driven step by step by the public calls of
// `thread_core`, or run on the bytes of a trace by the runner, whose log is compared with a text. `building.rt` makes a
// world of a source. `sources.rt` has the programs that are driven, `turns.rt` the calls that run a segment,
// `playing.rt` does the steps of a row and compares their answers, `rows.rt` and `traps.rt` are the tables; `crowds.rt`
// has the maximum number of live threads, `memory.rt` runs out of memory. `logs.rt` and `run_rows.rt` are logs and the
// table of whole runs, which `runs.rt` runs; in `failing.rt` each read and each write fails in turn; `places.rt` has a
// stop in a thread whose slot isn't its number, and `standings.rt` the pc and registers of threads.
//
// All are in one crate, so that the run time is loaded and compiled only once. No crate uses this one.
#![tactic(auto)]

#[cfg(test)]
mod audits;
#[cfg(test)]
mod building;
#[cfg(test)]
mod builds;
#[cfg(test)]
mod calls;
#[cfg(test)]
mod checks;
#[cfg(test)]
mod command_line;
#[cfg(test)]
mod crowds;
#[cfg(test)]
mod demos;
#[cfg(test)]
mod example_rows;
#[cfg(test)]
mod failing;
#[cfg(test)]
mod faults;
#[cfg(test)]
mod graphs;
#[cfg(test)]
mod images;
#[cfg(test)]
mod logs;
#[cfg(test)]
mod memory;
mod moments;
#[cfg(test)]
mod places;
#[cfg(test)]
mod playing;
#[cfg(test)]
mod refusals;
#[cfg(test)]
mod rows;
#[cfg(test)]
mod run_rows;
#[cfg(test)]
mod runs;
#[cfg(test)]
mod sequence;
#[cfg(test)]
mod server_faults;
#[cfg(test)]
mod serving;
#[cfg(test)]
mod sources;
#[cfg(test)]
mod standings;
#[cfg(test)]
mod traps;
#[cfg(test)]
mod turns;
#[cfg(test)]
mod untold;

pub use moments::Moment;
