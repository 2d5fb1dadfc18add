// The code of a machine, decoded once.
//
// In: the words of the code. Out: lists of decoded words, one for each word and in the same order, so a machine needn't
// decode a word again each time it executes it: as instructions, or none if a word isn't one (`decode_all`), and as
// ready operations of 8 bytes with indices in place of addresses (`ready_all`). rv_code alone defines the instruction
// of a word. specs/Ready.antt defines the outcome of a ready operation, and when it is the outcome of rv_machine's step
// at its place. For frequent sequences of operations, the kind of the first determines those of the others. Forms that
// the compiler of CapC doesn't emit are left to that step. The crates above keep the lists with the image. Source:
// RISC-V unprivileged manual, chapters "RV32I" and "M".
#![tactic(auto)]

mod lists;
mod ready;
mod readying;

pub use lists::{decode_all, ready_all};
pub use ready::{Action, Kind, Ready};
