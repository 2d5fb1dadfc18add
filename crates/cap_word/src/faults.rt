/// Why an instruction can't be executed (RISC-V unprivileged manual, "Exceptions, Traps, and
/// Interrupts"). A fault changes nothing.
#[derive(Clone, Copy, Debug, PartialEq, Eq)]
pub enum FaultKind {
    /// The pc isn't in the code.
    Fetch,
    /// The word at the pc isn't an instruction.
    Illegal,
    /// A load from a byte that isn't readable.
    Load,
    /// A store to a byte that isn't writable.
    Store,
    /// A pc, a jump's target or an address isn't a multiple of the size required.
    Misaligned,
    /// EBREAK.
    Break,
}
