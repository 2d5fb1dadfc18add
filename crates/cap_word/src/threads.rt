/// A thread of the thread package.
#[derive(Clone, Copy, PartialEq, Eq, Hash)]
pub struct ThreadId {
    /// The slot of the thread's record, which a later thread may use again.
    pub slot: u32,
    /// The thread's number, in order of starts, from 0. No other thread of a run has it.
    pub number: u32,
}
