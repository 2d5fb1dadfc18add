// The weighted call graph of a program: which function calls which, at which site, and the size of each
// function's frame.
//
// A graph has a weight for each function, the members of each table of functions, and the call sites in
// order of their numbers. A site calls a function or a table; a table's members are stored once in the
// graph, however many sites call it. The crates above cite `specs/Graph.antt`, which defines a graph and
// its invariant, `specs/Callees.antt`, which defines the functions that a call may enter, and
// `specs/Paths.antt`, which defines paths of calls and when sites break every cycle. Source: the
// weighted call graph of Capriccio (von Behren et al., SOSP 2003).
#![tactic(auto)]

mod call_graphs;
mod callee_lists;
mod flat_calls;
mod flat_graphs;
mod index;
mod sites;

pub use call_graphs::CallGraph;
pub use callee_lists::{Callees, callees_of};
pub use flat_calls::push_sites;
pub use flat_graphs::{graph, sorted_graph};
pub use index::{CallerIndex, is_among};
pub use sites::{GraphSite, Target};
