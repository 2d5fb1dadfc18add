// What runs on the machine does what its source means, from flat code up to the world of all threads.
//
// Laws only, the lowest first. A law has no effect at run time: its contract is the theorem.
//
// - `lowering`: flat code does what its program does, and conversely. specs/StandsFor defines when a thread of flat
//   code stands for a thread of the source, and specs/Meaning when two such threads mean the same: step for step and
//   over whole runs, against any world. The proof is a simulation in which each step of the source corresponds to one
//   or more steps of flat code (X. Leroy, "Formal verification of a realistic compiler", CACM 2009).
// - `between`, `somewhere`, `keys`: machine_world defines directly, by registers, chunks and code, when a machine
//   thread at rest stands for a source thread. It does so exactly if some thread of flat code is between the two
//   (specs/Between); so theorems on machine and flat code, and on flat code and source, give theorems on machine and
//   source. Each machine thread that rests stands for some source thread, and the sites of the frames in place are the
//   source thread's key.
// - `sources`: from where it rests, one thread runs as each source thread for which it stands, up to its next modelled
//   call, trap or end (specs/AsSource), by the law of a segment against flat code (segment_laws). The run of a segment
//   cites it.
// - `lowered_code`: properties of the flat code of a well-scoped program that the rules of a certificate don't require,
//   and their consequences: it is well formed, each array that is set to zeros has a word, and an operation follows
//   each one that asks; in addition, no two functions have the same entry.
// - `roots`: no step of a source thread changes the function with which it was started (specs/Firsts). Its last frame
//   is of that function, and calls and returns only affect the frames above it. So a run of the thread keeps it until
//   the thread rests again, leaves all other threads at rest unchanged, and adds new threads after them.
// - `worlds`, `outside`, `runs`: a segment of any ready thread does what the source's run of that thread does.
//   specs/UnderWay relates a machine world to a source's segment, specs/Reached defines what a segment has done so far,
//   specs/Running covers many steps of a segment: such runs are good stretches. The invariant of a world is `IsSettled`
//   between segments and `IsRunning` within one; it needs no known source world, and doesn't depend on which thread is
//   chosen. The world of thread_core cites these.
#![tactic(auto)]

mod between;
mod keys;
mod lowered_code;
mod lowering;
mod outside;
mod roots;
mod runs;
mod somewhere;
mod sources;
mod worlds;

pub use between::between_laws;
pub use keys::key_law;
pub use lowered_code::lowered_facts_law;
pub use lowering::{lowering_keeps_meaning, sample_stands, threads_start_alike};
pub use outside::outside_laws;
pub use roots::{rest_root_law, segment_root_law};
pub use runs::running_laws;
pub use somewhere::somewhere_law;
pub use sources::{running_law, source_law};
pub use worlds::segment_world_laws;
