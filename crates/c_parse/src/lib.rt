// From the tokens of a source to its tree.
//
// In: the bytes of a source and its tokens, from `c_lex`. Out: a `RawProgram` of `c_tree`, with
// names and their places, or the first place at which the tokens aren't the beginning of a program,
// at which more than 64 constructs are open, or at which there is a call inside an expression.
//
// The crates above use the contracts of `parse` and `parse_nested`; `parse_nested` refuses such a
// call only in the parentheses of a `for`. The grammar is defined in `c_grammar` and read by
// `grammar_reader`; `grammar_laws` has the laws on every list of tokens. This crate adds the
// refusal of calls inside expressions. The rules are those of ISO/IEC 9899:2018, clauses 6.5 to
// 6.9, for the subset of docs/LANGUAGE.md.
#![tactic(auto)]

mod for_parts;
mod nested_calls;
mod parser;

pub use c_grammar::ParseError;
pub use parser::{parse, parse_nested};
