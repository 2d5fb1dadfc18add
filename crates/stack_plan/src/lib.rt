// The stack plan of a program: weights, call graph, back edges and placement in one call.
//
// Flat code comes in with the most bytes that a path of calls may need without a test. Out goes its call
// graph, whose functions weigh what their frames take, its back edges and its plan, or the first function
// whose frame is too large. The contract of `plan_of` says that these are the graph, the walk's back edges
// and the placement of the crates below, and what code may rely on in the plan (specs/Plans.antt): frames
// within bounds, bounds within a path, and each call without a test within its caller's bound.
// `plan_of_graph` does the same for a graph that is there already. Source: the idea is of Capriccio (von
// Behren et al., SOSP 2003).
#![tactic(auto)]

mod planning;

pub use planning::{Planned, plan_of, plan_of_graph};
