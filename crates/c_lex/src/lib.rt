// Lexical analysis of CapC, a subset of C: from the bytes of a source to its list of tokens.
//
// In: a source of at most 1,048,576 bytes, any bytes. Out: its names, numbers, keywords and marks, each with its
// place and length; or the first place where no token begins: a byte that begins no token, a comment without an end,
// or a number that is malformed or too large. White space and comments are skipped.
//
// The crates above use the contract of `lex`: it returns the tokens exactly if `AreTokensOf` holds of the source and
// the list (specs/Tokens.antt), and otherwise the refusal that `IsLexErrorOf` defines.
//
// The rules are those of ISO/IEC 9899:2018, 6.4, for ASCII only, without strings, characters, suffixes and octal
// numbers. A law has no effect at run time: its contract is a theorem.
#![tactic(auto)]

mod bytes;
mod comments;
mod keywords;
mod laws;
mod lexer;
mod marks;
mod numbers;
mod pieces;
mod tokens;

pub use keywords::Keyword;
pub use laws::{reading_is_unique, tokens_stand_in_source};
pub use lexer::lex;
pub use marks::Mark;
pub use tokens::{LexError, Token, TokenKind};
