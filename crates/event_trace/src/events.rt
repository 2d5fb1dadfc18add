// The events of a trace.

/// A request or message that reaches the server from outside, at a time.
#[derive(Clone, Copy, PartialEq, Eq)]
pub struct Event {
    /// The time in cycles of the server's clock, from 0 to 10^15.
    pub time: u64,
    /// What arrives at that time.
    pub kind: EventKind,
}

/// What arrives.
#[derive(Clone, Copy, PartialEq, Eq)]
pub enum EventKind {
    /// A request with its value, a word of 32 bits that the trace writes as a signed number.
    Arrive { value: u32 },
    /// A message on a channel from 0 to 63, with its value as above.
    Message { channel: u32, value: u32 },
}
