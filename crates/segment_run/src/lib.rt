// One thread of an accepted program over linked chunks, run from one call of the thread package to the next.
//
// In: an accepted program, the areas (pool of chunks, globals, tables), a thread's context and the number of
// instructions that may still retire. Out: the call at which the thread is, its end, or why it can't continue. No
// answer is a fault. specs/: `Contexts` (the thread of the machine world for a context), `Segments` (what an answer
// says of the machine), `Starting`, `Passing`, `Sources` (what it says of the source thread); `Kept`, `Spots`, `Safe`,
// `Turns`, `ReadyTurns`, `ReadyRuns`, `Lookups` and `Walking` define the parts. The crate above uses the clauses of
// `start`, `run_segment`, `retire`, `reply` and `walk`.
// Sources: linked stacks, Capriccio (von Behren et al., SOSP 2003); RISC-V unprivileged manual, chapters "RV32I" and
// "M".
#![tactic(auto)]

mod areas;
mod contexts;
mod links;
mod lookups;
mod places;
mod ready_turns;
mod register_file;
mod registers;
mod running;
mod segments;
mod sizes;
mod starting;
mod walking;

pub use areas::Areas;
pub use contexts::{Context, Fuel, reply, retire};
pub use segments::{Segment, run_segment};
pub use sizes::sizes_law;
pub use starting::start;
pub use walking::walk;
