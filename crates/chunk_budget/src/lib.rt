// Chunk budgets: how many chunks are enough for each thread of an accepted program, computed before
// any run.
//
// In: an accepted program, and a `Budget`: a number of chunks for each thread, and for each
// function a height, the maximum number of chunks that a call of it may link. `check_budget`
// decides whether the heights agree with the certificate at every call and keep every thread within
// its chunks; its contract cites `specs/Budgets.antt`, which defines budgets and their refusals.
// `make_budget` returns the least budget of a program, or the least function on a cycle of calls,
// in which case there is no budget. It visits the functions bottom-up, in the order of
// `cycle_break`. The idea of bounding a thread's stack over the call graph is Capriccio's (von
// Behren et al., SOSP 2003).
#![tactic(auto)]

mod budgets;
mod checking;
mod heights;
mod least;
mod made;
mod making;
mod roots;
mod sites;

pub use budgets::{Budget, BudgetError, MakeBudgetError};
pub use checking::check_budget;
pub use making::make_budget;
