// The reader of the grammar of CapC: one function for each form, which reads its tokens and builds
// its tree.
//
// In: the bytes of a source (`Text`) and the tokens still to be read (`Cursor`). Out: the items of
// the source, with names and their places, or the first refusal: the first place at which the
// tokens aren't the beginning of a program, or at which more than 64 constructs are open.
// specs/Steps.antt, StmtSteps, BodySteps and ItemSteps define, by the definitions of `c_grammar`,
// what the function of a form has read and when it refuses. `c_parse` uses `all_items`. The rules
// are those of ISO/IEC 9899:2018, clauses 6.5 to 6.9, for the subset of docs/LANGUAGE.md.
#![tactic(auto)]

mod cursor;
mod expressions;
mod functions;
mod globals;
mod held;
mod items;
mod loops;
mod operators;
mod parameters;
mod plain_statements;
mod simples;
mod statements;
mod tables;

pub use cursor::{Cursor, Text};
pub use items::all_items;
