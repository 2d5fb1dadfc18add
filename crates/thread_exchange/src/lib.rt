// The shared state of threads besides memory: the queue of arrivals, the queues of 64 channels, and the uses of seven
// resources.
//
// In: events, and the modelled calls of threads. Out: the result of a call, whether it is a trap, and whether a thread
// that is blocked at it is ready. Each answer is the row of that call in the table of the modelled calls (`c_mean`),
// which source and machine share. A thread package has one exchange in addition to its threads.
#![tactic(auto)]

mod exchange;
mod numbers;
mod queues;

pub use exchange::Exchange;
pub use numbers::ticks_of;
