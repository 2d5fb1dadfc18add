// What the program promises, part by part: each law concludes one part of the headline from one clause of `capriccio`.
//
// Laws only; no other crate uses them. A law has no effect at run time: its contract is the theorem.
//
// A reader who wants one part reads the module of specs/ that its law concludes, and the definitions under that: at
// most 400, and at most 40 for the pool. The premise is a clause of `capriccio` (crates/capriccio_call/src/command.rt),
// word for word, so the definitions under it needn't be read. `tools/trusted --promise NAME` lists those of a part.
//
// - `memory`: each load and store of a run lies in the running frame, or in one declared global or table, and each
//   frame in its chunk (specs/Memory).
// - `pool`: held and free chunks are exactly the pool, and ended threads hold none (specs/Pool).
// - `choices`: each printed choice is the rule's (specs/Choices).
// - `outputs`: what is printed is what the source does by itself, under the printed schedule; at a stop by fuel, chunks
//   or threads, up to what was printed (specs/Outputs).
// - `stops`: what the last line and the status say, but for the place of `nochunk` (specs/Stops).
// - `budget`: a budget suffices (specs/Budget).
// - `audit`: what the verdict `lawful` says of the outputs of a log; the clause `audited` says more, also of its choices
//   (specs/Audit).
// - `faults`: what holds after a failed read or write, or out of memory (specs/Faults).
//
// No part says that a run takes place, that the checker accepts the pair, or that costs and free chunks are the machine's:
// the clause `answer` does. Parts that speak of lines say nothing if the output doesn't expose what it took.
//
// proofs/Ran.antt has what the clause `answer` says of a returned world, and Returned that one is returned. The laws are
// projections of that, with the laws of log_laws and audited_logs: Frames, Sized, Chosen, Printed, Stopping, Judged and
// Failed.
#![tactic(auto)]

mod parts;

pub use parts::{audit, budget, choices, faults, memory, outputs, pool, stops};
