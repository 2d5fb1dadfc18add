// Back edges of a call graph: sites that break every cycle of calls.
//
// In: a call graph. A depth-first walk starts at the start function, then at each function not yet visited
// (`specs/Walk.antt`); a site is a back edge if one of its callees is on the current path of the walk.
// `back_edges` returns their numbers, and its contract says that without these sites no path of calls leads
// back to its start. `leaving_order` returns the order in which the walk leaves the functions, which is
// bottom-up if the sites that are left out break every cycle; the placement of checkpoints uses it. Source:
// only the idea is Capriccio's (von Behren et al., SOSP 2003).
#![tactic(auto)]

mod back;
mod callees;
mod order;
mod path;
mod ranks;
mod walking;

pub use back::back_edges;
pub use order::leaving_order;
