// Machine words and the small types that all crates of Capriccio share.
//
// Words: the arithmetic of RV32IM (RISC-V unprivileged manual, chapters "RV32I" and "M"), on integers
// from 0 to 2^32 - 1; CapC's arithmetic is the same. A call takes and returns `u32`; its contract names
// a formula over integers in `specs/Word.antt`, which the crates above cite. `ModelledCall` is the
// table of the modelled calls; no other crate has a copy of it. Shared types: who runs (`ThreadId`),
// where it blocked (`SiteKey`), what it asks for (`Block`, `Ask`), how a run ends (`TrapKind`, `Stop`,
// `FaultKind`), which limit was exceeded (`Which`), a list of words (`Words`), and the trait `Ready`,
// by which the scheduler asks a world of threads. A function documented as a law has no effect at run
// time: its contract is a theorem.
#![tactic(auto)]

mod calls;
mod faults;
mod limits;
mod modelled_calls;
mod readiness;
mod runs;
mod site_keys;
mod stops;
mod threads;
mod traps;
mod word_lists;
mod words;

pub use calls::{Ask, Block};
pub use faults::FaultKind;
pub use limits::Which;
pub use modelled_calls::{ModelledCall, SPAWN_NUMBER, modelled_calls_have_numbers};
pub use readiness::Ready;
pub use runs::steps_add_up;
pub use site_keys::SiteKey;
pub use stops::Stop;
pub use threads::ThreadId;
pub use traps::TrapKind;
pub use word_lists::Words;
pub use words::{
    add, div, divu, mul, mulh, mulhsu, mulhu, rem, remu, sll, slt, sltu, sra, srl, sub,
};
