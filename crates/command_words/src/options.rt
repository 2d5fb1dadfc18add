// The options of the commands.

/// The sizes that determine the layout of a program's frames, in bytes.
#[derive(Clone, Copy)]
pub struct Placement {
    /// The size of a chunk: a multiple of 16 from 64 to 65,536.
    pub chunk: u32,
    /// The maximum length of a path between two checkpoints: from 16 to `chunk` - 16.
    pub max_path: u32,
}

/// The tickets of at most 64 threads.
#[derive(Clone, Copy)]
pub struct Tickets {
    /// The numbers of the threads, strictly increasing, from 0 to 1,000,000, each with its tickets, from 1 to 1,024.
    /// The remaining pairs are zeros.
    pub pairs: [(u32, u32); 64],
    /// The number of threads with tickets.
    pub count: u32,
}

/// The rule by which the next thread is chosen.
#[derive(Clone, Copy)]
pub enum Rule {
    /// The priority rule, by the blocking graph.
    Graph,
    /// The stride rule. A thread without given tickets has one.
    Stride { tickets: Tickets },
}

/// The options of a run.
#[derive(Clone, Copy)]
pub struct Policy {
    /// The number of chunks of the certificate's size: from 1 to 65,536.
    pub chunks: u32,
    /// The number of chunks of the second size: at most 65,536.
    pub extra: u32,
    /// The size of each of these in bytes: a multiple of 16 from 32 to 65,536.
    pub extra_bytes: u32,
    /// The number of instructions after which the run stops: at most 1,000,000,000.
    pub fuel: u64,
    /// The maximum length of a queue: from 1 to 4,096.
    pub backlog: u32,
    /// The cap of each resource by number: from 1 to 1,000,000, or 0 if it has none. Resource 0 has none here.
    pub caps: [u32; 8],
    /// The pressure at which the gate closes: from 1 to 1000.
    pub high: u32,
    /// The pressure at or below which the gate opens: below `high`.
    pub low: u32,
    /// The rule by which the next thread is chosen.
    pub rule: Rule,
    /// The knee of the pressure curves, in thousandths of a cap: from 0 to 999.
    pub knee: u32,
}

/// The options of an audit.
#[derive(Clone, Copy)]
pub struct Audit {
    /// The policy of the runs whose logs are judged. No option of an audit sets `extra_bytes` and `rule`; they have
    /// their defaults.
    pub policy: Policy,
    /// The maximum number of steps of the source: at most 1,000,000,000.
    pub steps: u64,
}
