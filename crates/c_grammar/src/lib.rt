// The grammar of CapC, a subset of C, as definitions against which a reader of tokens is proved.
//
// `Sign` is the class of a token in the grammar, and `ParseError` says why tokens have no tree. specs/Grammar.antt
// defines the tree of a list of tokens, specs/Rests.antt what may follow the tokens so far, and specs/Refusals.antt
// where tokens are refused. specs/Machine.antt and specs/Reading.antt define the same as steps from token to token,
// which `grammar_reader` follows. `grammar_laws` proves that they agree, and `c_parse` has the calls that the crates
// above use. The rules are those of ISO/IEC 9899:2018, clauses 6.5 to 6.9, for the subset that docs/LANGUAGE.md
// defines.
#![tactic(auto)]

mod errors;
mod signs;

pub use errors::ParseError;
pub use signs::{Sign, sign_of};
