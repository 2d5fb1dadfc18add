// The registers that the run time reads and sets, by their numbers in a thread's list of registers (RISC-V ABIs
// specification, chapter "Register Convention").

// The return address of a call.
pub(crate) const RA: usize = 1;

// The stack pointer.
pub(crate) const SP: usize = 2;

// The thread pointer: the address of the payload of the innermost chunk.
pub(crate) const TP: usize = 4;

// The need of a LINK.
pub(crate) const T1: usize = 6;

// The first argument of a call, and its result.
pub(crate) const A0: usize = 10;

// The second argument of a call.
pub(crate) const A1: usize = 11;
