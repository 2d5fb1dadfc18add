use segment_run::Context;

/// The record of a live thread.
#[derive(Clone, Copy)]
pub struct Record {
    /// The thread's number.
    pub number: u32,
    /// The thread between two segments.
    pub context: Context,
}
