use schedule_log::Item;

/// A wait of a thread, from the end of the segment in which it blocked to the choice that ends it.
#[derive(Clone, Copy)]
pub struct Wait {
    /// The number of the thread.
    pub thread: u32,
    /// The site of the blocking call.
    pub site: u32,
    /// The clock at which it blocked.
    pub since: u64,
    /// The clock at which it was chosen.
    pub until: u64,
    /// The request that the choice takes, if the call is `accept`: its number from 0.
    pub request: Option<u64>,
}

/// A segment of a thread, from its choice to its block, its end or a stop that cuts it off.
#[derive(Clone, Copy)]
pub struct Segment {
    /// The number of the thread.
    pub thread: u32,
    /// The clock at which it began.
    pub began: u64,
    /// The clock at which it ended: `began` plus its cost.
    pub ended: u64,
    /// The number of words that it put.
    pub puts: u64,
    /// The request that its thread serves.
    pub request: Option<u64>,
}

/// What an entry says of the run.
#[derive(Clone, Copy)]
pub enum Happening {
    /// An arrival or a message was delivered at that clock.
    Came { clock: u64, item: Item },
    /// An arrival or a message was dropped at that clock.
    Lost { clock: u64, item: Item },
    /// A thread began at that clock that hadn't run before.
    Started { thread: u32, clock: u64 },
    /// A thread continues; this was its wait.
    Waited(Wait),
    /// A word was put.
    Put { thread: u32, value: i32 },
    /// A segment is finished; `free` chunks are free after it.
    Ran { segment: Segment, free: u32 },
    /// None of these: an edge, or a stop that cuts no segment off.
    Nothing,
}
