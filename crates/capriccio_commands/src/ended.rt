// The end of a command that did what its words ask.

use thread_core::World;

/// The end of a command that did what its words ask.
#[derive(Drop)]
pub struct Ended {
    /// The exit status.
    pub status: u8,
    /// The world that it ran, if any, at the stop.
    pub last: Option<World>,
}
