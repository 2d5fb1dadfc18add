/// The registers of the machine (RISC-V unprivileged manual, chapter "RV32I", section "Programmers' Model
/// for Base Integer ISA").
#[derive(Clone, Copy, PartialEq, Eq)]
pub struct Regs {
    /// The address of the instruction.
    pub pc: u32,
    /// The values of the registers, by number. The value at 0 is never read.
    pub x: [u32; 32],
}
