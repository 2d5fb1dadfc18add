// The output of `graph` and `budget`, with the places in the source.
//
// In: the lines that the command printed, and the places of the source. Out: each line as it is, followed by the place
// of its function or its call in the source. For a call also the call's text, the possible callees of a call through a
// table, and the reason for a checkpoint: the call closes a cycle of calls, or the frame of its caller plus the
// greatest bound of its callees exceeds the maximum path. The forms of the lines are those of `analysis_lines`.
#![tactic(auto)]

mod analyses;
mod budgets;
mod measures;

pub use analyses::put_analysis;
pub use budgets::put_budget;
