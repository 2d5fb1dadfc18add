// The thread package: many threads over one pool of linked chunks.
//
// In: an accepted program, a policy, events, the clock, and the thread whose segment begins or continues. Out: the
// turns of a segment, which threads are ready, and other facts about the world. In contracts a world is the machine
// world (`machine_world`): `make` starts it, `deliver` and `advance` move it, `begin` and `proceed` run it.
// `specs/States` defines it from the fields, and `specs/Kept` is the invariant of every world. The three theorems on
// `begin` and `proceed` are in `specs/Turns` (the machine world after a turn), `specs/Sources` (the source's run) and
// `specs/Lengths` (the lengths of chains). The idea of cooperative threads on linked stacks is Capriccio's (von Behren
// et al., SOSP 2003).
#![tactic(auto)]

mod begins;
mod making;
mod outside;
mod parts;
mod policy;
mod records;
mod running;
mod standing;
mod state;
mod telling;
mod turns;
mod world;

pub use outside::Delivered;
pub use policy::WorldPolicy;
pub use running::MOST_THREADS;
pub use standing::Standing;
pub use turns::{Turn, WorldError};
pub use world::World;
