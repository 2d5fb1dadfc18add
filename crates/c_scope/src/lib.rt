// From the bytes of a source without calls inside expressions to a program.
//
// `read_program` takes the bytes of a source and returns its program, or the refusal of the first
// of three stages that has one: tokens (`c_lex`), tree (`c_parse`), program (`scope_rules`).
// `ReadsAs` (specs/SourceText.antt) defines the program of a source. The laws on the workload and
// the rows use this call; the commands use `read_nested` of `c_hoist`. The errors of all readers
// are here (`SourceError`). The rules are in the crate of each stage; `resolve`, the last stage of
// this reader, is passed on from `scope_rules`, because only that stage is shared with `c_hoist`.
#![tactic(auto)]

mod source_errors;
mod source_text;

pub use scope_rules::{ScopeError, resolve};
pub use source_errors::SourceError;
pub use source_text::read_program;
