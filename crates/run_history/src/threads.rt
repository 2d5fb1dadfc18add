/// The state of a thread.
#[derive(Clone, Copy)]
pub enum Standing {
    /// It was chosen, and its segment is in progress or was cut off.
    Runs,
    /// It has been blocked at the call of that site, at that node, since that clock.
    Waits { site: u32, node: u32, since: u64 },
    /// It has ended.
    Ended,
}

/// What is known of a thread that has run.
#[derive(Clone, Copy)]
pub struct Thread {
    /// Its state.
    pub standing: Standing,
    /// The request that it took last, by its number from 0 in the order in which requests were taken. The thread serves
    /// it.
    pub request: Option<u64>,
}
