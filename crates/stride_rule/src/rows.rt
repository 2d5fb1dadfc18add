use crate::clients::Client;
use ready_tree::Need;

/// A thread at its place.
#[derive(Clone, Copy)]
pub struct Row {
    /// The thread with its stride and its pass.
    pub client: Client,
    /// Its need, or its last one if its segment is in progress.
    pub need: Need,
}
