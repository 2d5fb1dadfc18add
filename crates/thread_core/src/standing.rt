/// The pc of a live thread and three of its registers. At a stop they determine the function and the operation, and, at
/// an index past an array or a table, the index and the bound that were compared.
#[derive(Clone, Copy)]
pub struct Standing {
    /// The address of its next instruction.
    pub pc: u32,
    /// The lowest address of its innermost frame.
    pub sp: u32,
    /// The value of the register t0.
    pub t0: u32,
    /// The value of the register t1.
    pub t1: u32,
}
