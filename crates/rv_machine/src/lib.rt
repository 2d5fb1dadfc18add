// One step of a RISC-V machine: RV32I and M, over any memory by bytes.
//
// In: an image's code, as words or as decoded words, a memory (the trait `Memory`) and the registers (`Regs`). Out: the
// outcome of the instruction at pc (`StepResult`): it was executed, it asks for a call, or it faults and changes
// nothing. The definitions are in specs/: `Effect` has a row for each instruction, `Rows` the forms of these rows,
// `RowEffect` the effect of each form, `Step` the whole step with its faults in order, `Bytes` the meaning of memory,
// `Access` the bytes that a step loads or stores, `Words` the ranges that it preserves. The crates above provide a
// memory and cite the clauses of `step`, or of `step_decoded` or `step_of`, which say the same, and the laws, which
// have no effect at run time. The program runs ready operations (`decoded_code`), which are proved equal to the step,
// and `step_of` for the others; only rows call `step` and `step_decoded`. Source: RISC-V unprivileged manual, chapters
// "RV32I" and "M".
#![tactic(auto)]

mod accesses;
mod decoded;
mod execution;
mod laws;
mod memory;
mod moves;
mod registers;
mod results;
mod rows;
mod stepping;
mod words;

pub use decoded::{step_decoded, step_of};
pub use laws::{access_laws, byte_laws, word_laws};
pub use memory::Memory;
pub use registers::Regs;
pub use results::StepResult;
pub use stepping::step;
