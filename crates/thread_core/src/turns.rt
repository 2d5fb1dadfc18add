use accepted_pairs::Accepted;
use cap_word::{SiteKey, Stop, ThreadId};
use std::fmt;
use thiserror::Error;

/// What the thread whose segment is in progress did.
#[derive(Clone, Copy, PartialEq, Eq)]
pub enum Turn {
    /// It put a value. The segment continues.
    Out { value: u32 },
    /// It started a thread. The segment continues.
    Spawned { thread: ThreadId },
    /// It is blocked at the site of that key, after a segment of `cost` instructions.
    Blocked { key: SiteKey, cost: u64 },
    /// It has ended, after a segment of `cost` instructions.
    Ended { cost: u64 },
    /// The run stops within its segment, after `cost` instructions.
    Cut { stop: Stop, cost: u64 },
    /// Out of memory at the start of a thread. The run stops.
    Memory,
}

/// Why no world is made. It has the program.
#[derive(Drop, Error)]
pub enum WorldError {
    /// Out of memory.
    #[error("out of memory")]
    Memory { accepted: Accepted },
}

// Names the cause alone: the accepted pair has no short form.
impl fmt::Debug for WorldError {
    fn fmt<W: fmt::Write>(&self, f: &mut fmt::Formatter<W>) -> fmt::Result {
        match self {
            WorldError::Memory { .. } => write!(f, "Memory {{ .. }}"),
        }
    }
}
