use crate::Averages;
use cap_word::{SiteKey, Stop};

/// What arrived from outside.
#[derive(Clone, Copy)]
pub enum Item {
    /// An arrival, with its word as a signed number.
    Arrive { value: i32 },
    /// A message on a channel, with its word as a signed number.
    Data { channel: u32, value: i32 },
}

/// Why a run stopped.
#[derive(Clone, Copy)]
pub enum StopLine {
    /// Every thread ended.
    Done,
    /// The trace has ended, and no thread will become ready.
    Idle,
    /// This line of the trace, counted from 1, was refused.
    Trace {
        line: u64,
    },
    /// The thread's segment was cut off after this cost, with this number of chunks free.
    Cut {
        thread: u32,
        stop: Stop,
        cost: u64,
        free: u32,
    },
}

/// A line of the log. Threads, nodes and channels are numbers, clocks and costs count instructions, and `free` is the
/// number of free chunks afterwards.
#[derive(Clone, Copy)]
pub enum Entry {
    /// `event`: the item was delivered at that clock.
    Event {
        clock: u64,
        item: Item,
    },
    /// `drop`: the item was dropped at that clock.
    Dropped {
        clock: u64,
        item: Item,
    },
    /// `run`: the thread was taken from the node at that clock.
    Run {
        clock: u64,
        thread: u32,
        node: u32,
    },
    /// `out`: the thread output that word, as a signed number.
    Out {
        thread: u32,
        value: i32,
    },
    /// `block`: the thread blocked at the node with this key, after a segment of that cost.
    Block {
        thread: u32,
        node: u32,
        key: SiteKey,
        cost: u64,
        free: u32,
    },
    /// `end`: the thread ended after a segment of that cost; its last chunk is free again.
    End {
        thread: u32,
        cost: u64,
        free: u32,
    },
    /// `edge`: an edge of the blocking graph, with the number of its records and their averages scaled by 256: of the
    /// cost, and of the change in the use of each resource.
    Edge {
        from: u32,
        to: u32,
        count: u64,
        cost: i128,
        changes: Averages,
    },
    /// `stop`: why the run stopped. It is the last line.
    Stop(StopLine),
}
