// Cycles of calls in a program's flat code, and a bottom-up order of its functions.
//
// In: a program in flat code. Out: `bottom_up_order` returns its functions, each after those that
// it calls directly or through a table, or the least function from which calls lead back to it; the
// start of a thread isn't a call. specs/Cycles.antt defines calls and cycles on the code,
// specs/Orders.antt the order. The order is that of `cycle_break` over the program's call graph.
// Cycles are found on the code itself, by a walk from each function, except from those that one
// pass over the reversed calls shows to be on no cycle (`off_cycles`, `reversed`).
#![tactic(auto)]

mod cycles;
mod off_cycles;
mod orders;
mod reaching;
mod reversed;

pub use orders::{OrderError, bottom_up_order};
