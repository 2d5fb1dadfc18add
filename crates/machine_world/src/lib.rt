// The machine world: live threads over one pool of linked chunks, as definitions that the crates
// above cite, with laws. A law has no effect at run time: its contract is the theorem.
//
// Memory of the threads: Areas. One thread: Local (its steps and the calls of the run time), Held
// and Links (its chunks). All threads: Threads (a step), Runs, Numbered, Chains and Counted (held
// and free chunks), WellFormed, Alone (what a step leaves unchanged). Frames in place: Places,
// InPlace, Keys, Rests, Stretches, GoodRuns. Against the source: Globals, StandsFor,
// StandsForWorld. Computed examples: Examples, Descending. Sources: RISC-V unprivileged manual,
// chapters "RV32I" and "M"; Capriccio (von Behren et al., SOSP 2003), "Linked Stack Management".
// The crates above use the definitions and the laws in src/.
#![tactic(auto)]

mod examples;
mod forms;
mod frame_laws;
mod laws;
mod linked;
mod sources;
mod stretches;
mod world_laws;

pub use examples::local_examples;
pub use forms::form_laws;
pub use frame_laws::chain_law;
pub use laws::{area_laws, chunk_laws};
pub use linked::linked_example;
pub use sources::source_example;
pub use stretches::stretch_laws;
pub use world_laws::{alone_laws, partition_laws, run_laws};
