// The audit of a log: judges a printed log without the machine, by an interpreter of the source.
//
// In: a program, a policy, a monitor of its resources, a trace and the bytes of a log. Out: that
// every line of the log is allowed and the last is a stop, or the first line that isn't allowed, or
// that a line needs more steps of the source than the limit, or that a read failed or memory ran out
// (`audit`). It judges one line after
// another, with a `Reading` of the crate below: deliveries and choices by the rules of choice
// points; outputs, blocking points and traps by the source's own run; edges by the blocking graph.
// Of costs and free chunks only bounds are required, since no machine runs. The idea of choices by
// a blocking graph is Capriccio's (von Behren et al., SOSP 2003).
#![tactic(auto)]

mod audits;
mod ends;
mod segments;
mod verdicts;

pub use audits::{audit, take_line};
pub use schedule_reading::AuditPolicy;
pub use verdicts::Verdict;
