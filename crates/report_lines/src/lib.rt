// The lines of a report about the numbers of a run: its requests and their latencies, the time in the queue, the parts
// of one request's time, the waits by place, and the outputs of threads that served no request.
//
// In: the numbers of a run, the times of its trace, a window of clocks, and the places of its source. Out: lines in a
// `Text`. A `Scope` determines which requests and which waits are included: all of them without a window, and otherwise
// the requests that arrived in it and the waits that ended in it. `Counts` counts drops, choices, chunks and the gate
// in it. The numbers are those of `run_history`, their spreads those of `report_figures`.
#![tactic(auto)]

mod counts;
mod latencies;
mod lines;
mod queues;
mod requests;
mod scopes;
mod ticks;
mod told;
mod unasked;
mod waits;

pub use counts::{Closed, Counts};
pub use latencies::put_requests;
pub use lines::{ChunksLine, RequestsLine, WaitsPart};
pub use queues::put_queue;
pub use requests::{Asked, put_parts};
pub use scopes::Scope;
pub use told::{LinesError, told_by};
pub use unasked::put_unasked;
pub use waits::put_waits;
