// The instructions of RV32IM and their words.
//
// In: an instruction (`Instr`, with operands whose types enforce their ranges) or a word. Out: the word of
// the instruction (`encode`), or the instruction of the word (`decode`). The definitions are in specs/:
// `Field` and `Format` lay out words, `Table` has a row for each instruction, `Decoding` finds the row of a
// word, `Operands` has the ranges. The crates above cite `encoding`, `decoding` and the law that they are
// inverse. Source: RISC-V unprivileged manual, chapters "RV32I", version 2.1, and "M", version 2.0.
#![tactic(auto)]

mod decoding;
mod encoding;
mod fields;
mod formats;
mod immediates;
mod instructions;
mod laws;
mod offsets;
mod registers;

pub use decoding::decode;
pub use encoding::encode;
pub use immediates::{Immediate, ShiftCount, UpperImmediate};
pub use instructions::Instr;
pub use laws::table_laws;
pub use offsets::{BranchOffset, JumpOffset};
pub use registers::Register;
