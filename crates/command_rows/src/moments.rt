/// The state of a run: between two segments, within one, or stopped.
#[derive(Clone, Copy, PartialEq, Eq)]
pub enum Moment {
    /// No segment is in progress.
    Between,
    /// A segment is in progress.
    Within,
    /// The run has stopped.
    Over,
}
