/// What a CapC program did that stops the whole run.
#[derive(Clone, Copy, Debug, PartialEq, Eq)]
pub enum TrapKind {
    /// An array index isn't below the array's size.
    Index,
    /// A table index isn't below the number of its members.
    Table,
    /// `take` or `give` of a resource that doesn't exist, or of an amount out of range.
    Resource,
    /// `wait` or `waitfor` on a channel outside 0 to 63.
    Channel,
}
