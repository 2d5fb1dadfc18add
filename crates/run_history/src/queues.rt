ghost use Rattle.std.specs.Prelude.{◌≡◌};
ghost use Rattle.run_history.specs.Queues.{queued_by, queued_in};
ghost use Rattle.report_figures.specs.Ticks.{ticks_in};

use crate::numbers::Numbers;
use report_figures::TickList;

/// The time of a request in the queue.
#[derive(Clone, Copy)]
pub struct Queued {
    /// The time at which it arrived, by the trace.
    pub arrived: u64,
    /// The clock at which it was taken.
    pub taken: u64,
    /// The thread that took it.
    pub thread: u32,
}

/// Returns the time in the queue of the request of that number, if it was taken. `times` has the times of the trace's
/// events, in order.
pub fn queued_of(numbers: &Numbers, times: &TickList, request: usize) -> Option<Queued>
    ensures { result ≡ queued_in (ticks_in times.now) (ticks_in numbers.now.arrivals) numbers.now.takers.items (ticks_in numbers.now.taken) request }
{
    let thread = numbers.takers.as_slice().get(request).copied();
    let clock = numbers.taken.get(request);
    match numbers.arrivals.get(request) {
        None => None,
        Some(line) => queued_by(times.get(line as usize), thread, clock),
    }
}

/// Returns the time in the queue of a request that arrived then, and that this thread took at that clock.
fn queued_by(arrived: Option<u64>, thread: Option<u32>, clock: Option<u64>) -> Option<Queued>
    ensures { result ≡ queued_by arrived thread clock }
{
    match (arrived, thread, clock) {
        (Some(arrived), Some(thread), Some(taken)) => Some(Queued {
            arrived,
            taken,
            thread,
        }),
        _ => None,
    }
}
