/// The limits under which a log is read.
#[derive(Clone, Copy, PartialEq, Eq)]
pub struct AuditPolicy {
    /// The number of all chunks, from 1 to 131,072.
    pub chunks: u32,
    /// The number of instructions after which the run stops, at most 1,000,000,000.
    pub fuel: u64,
    /// The maximum length of a queue, from 1 to 4,096.
    pub backlog: u32,
    /// The caps of the resources 1 to 7 by number, each at most 1,000,000, or 0 for a resource without one. Entry 0
    /// isn't read.
    pub caps: [u32; 8],
    /// The maximum number of steps of the source, at most 1,000,000,000.
    pub steps: u64,
}
