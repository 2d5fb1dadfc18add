// From a program to its image and certificate: lowering, placement and generation in one call.
//
// `analyse` takes a program and the most bytes of a path, and tells the bytes of each function's frame, the
// bounds, the call sites, the back edges and the checkpoints, or the first frame that is too large; it holds
// the flat code of one function at a time. `lay_out` goes on to the image and the certificate, which are
// those that the formats lay out for this placement and meet every rule of the checker; or the code is too
// large. `build` has the checker accept them. The definitions are in specs/Builds.antt, and each step's own
// in the crate that makes it.
#![tactic(auto)]

mod analysis;
mod building;
mod graphs;
mod refusals;

pub use analysis::{Analysis, analyse};
pub use building::{Built, build, lay_out};
pub use refusals::BuildError;
