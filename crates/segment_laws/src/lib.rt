// One segment of a thread of checked code, compared with flat code: from where it rests, a machine thread runs as the
// thread of flat code for which it stands, up to its next question, trap or end, and it leaves the other threads
// unchanged.
//
// Laws only, over the world of machine_world; the lowest first. A law has no effect at run time: its contract is the
// theorem.
//
// - `operations`, `questions`: operation by operation, a machine thread that stands for a thread of flat code reaches,
//   by good steps, the state of that thread after its step. Definitions: specs/Ways (good steps), Facts (what the rules
//   of a certificate say of the code), Simulation (when a machine thread stands for a flat thread), Straight and Asking
//   (the conclusions of the laws). Lemmas: Spots and Words (memory by words), Registers, Stacks, Inside, FrameWords,
//   Variables, Finish (one instruction, one stored word), then a file for each kind of operation.
// - `calls`: if the flat thread calls a function or returns, the machine thread reaches the state of that thread
//   afterwards, in its caller's chunk or in one that it linked, or finds no chunk; if the flat thread ends, so does the
//   machine thread (specs/Calls). Lemmas: Standing (a thread at any place), Entering (the prologue), Calling
//   (arguments, call instructions), Transfers and Linked (in the caller's chunk), Agreeing, Linking and FarCalls
//   (LINK), Leaving, Coming, Returning and EndStub (returns), Unlinking (UNLINK), ReturnSteps (step by step). The
//   linked stacks are those of Capriccio (SOSP 2003).
// - `tables`: calls through a table: the guard of the index, the entry of the member, and the transfer, as for a call
//   of a function; or the trap if the index is out of range (specs/Tables).
// - `code_facts`, `call_facts`: what follows from a valid certificate for these laws. If a program is well formed, and
//   image and certificate are valid for it by the rules V1 to V12, then `CodeFacts` and `CallFacts` hold of the image's
//   code. specs/Zeroes has the only condition that doesn't follow from the rules, but from the lowering of a source.
// - `rest`: if the machine rests at an ECALL, it stands for the flat thread that asks there; and each pc of checked
//   code has one place.
// - `segments`: the whole segment (specs/Alike defines its results). The run of a segment and the laws of the source
//   are based on it.
// - `around`: how a new thread rests, how a thread rests that has passed its ECALL, and which chunks the steps in
//   between leave unchanged (specs/Around).
// - `steps`: what steps of the running thread over the areas change in the world of all threads (specs/Silent).
// - `staying`, `others`: a thread stays in place and at rest while others run, since it depends only on the words of
//   its own chunks (specs/Kept), and a step of another thread changes no chunk that is neither in its own chain nor
//   free.
// - `numbered`: live threads by their numbers, read from records at places in any order (specs/Found), while the
//   threads of machine_world's world are in the order of their numbers.
//
// Source: RISC-V unprivileged manual, chapters "RV32I" and "M".
#![tactic(auto)]

mod around;
mod call_facts;
mod calls;
mod code_facts;
mod numbered;
mod operations;
mod others;
mod questions;
mod rest;
mod segments;
mod staying;
mod steps;
mod tables;

pub use around::{alone_laws, passing_laws, starting_law};
pub use call_facts::call_facts_law;
pub use calls::calling_laws;
pub use code_facts::facts_law;
pub use numbered::numbered_laws;
pub use operations::straight_laws;
pub use others::others_laws;
pub use questions::asking_laws;
pub use rest::rest_laws;
pub use segments::segment_law;
pub use staying::staying_laws;
pub use steps::step_laws;
pub use tables::table_laws;
