// The lawful logs of an accepted pair: there is exactly one, it is good, and with enough chunks for a budget it doesn't
// stop because no chunk is free.
//
// Laws only, over the definitions and laws of lawful_log and the laws of machine_meaning. A law has no effect at run
// time: its contract is the theorem.
//
// - `good_log`: each segment of a lawful log is a good stretch of as many steps as the log says. So a crate that runs a
//   program and writes its lawful log needs no further invariant for that.
// - `one`: for every trace and policy, entries lead from the start to a stop. Fuel bounds the steps of all segments,
//   and each event uses up a line of the trace.
// - `budgets`: the height of a function bounds the number of chunks that a call of it links. So along the frames of a
//   thread, which the machine world keeps in place, the number of linked calls plus the height of the innermost
//   function is at most the height of the thread's first function (specs/Roots.antt), and a thread holds at most as
//   many chunks as the budget allows. Every thread of a run of a valid pair started with `main` or with a function that
//   some site names. So if the pool has enough chunks that are large enough (specs/Rooms.antt) for the live threads
//   (specs/Lives.antt), no run and no lawful log stops because no chunk is free. All chunks of the certificate's size
//   are large enough.
#![tactic(auto)]

mod budgets;
mod good_log;
mod one;

pub use budgets::{
    certificate_chunks_law, chain_bound_law, enough_chunks_law, enough_in_logs_law, stack_law,
};
pub use good_log::good_log_law;
pub use one::one_log_law;
