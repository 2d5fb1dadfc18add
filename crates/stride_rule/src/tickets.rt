ghost use Rattle.std.specs.Prelude.{◌≡◌, ◌≤◌};
ghost use Rattle.stride_rule.specs.Tickets.{AreTickets, stride_of, tickets_of};

/// The stride of a thread with one ticket.
const WHOLE: u32 = 1_048_576;

/// Returns the tickets of a thread: 1 if none are given.
fn tickets_for(tickets: &[(u32, u32)], number: u32) -> u32
    requires { AreTickets tickets.now }
    ensures value { result ≡ tickets_of tickets.now number }
    ensures some { 1 ≤ result }
    ensures most { result ≤ 1024 }
{
    for (thread, count) in tickets {
        if *thread == number {
            return *count;
        }
    }
    1
}

/// Returns the stride of a thread.
pub(crate) fn stride_for(tickets: &[(u32, u32)], number: u32) -> u32
    requires { AreTickets tickets.now }
    ensures value { result ≡ stride_of tickets.now number }
    ensures most { result ≤ 1048576 }
{
    WHOLE / tickets_for(tickets, number)
}
