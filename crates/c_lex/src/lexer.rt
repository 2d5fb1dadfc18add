// From the bytes of a source to its tokens.
ghost use Rattle.std.specs.Prelude.{List, ◌≡◌, ◌≢◌, ◌≤◌, ◌⊎◌, length, IfOk, IfErr, IsErrOf, MatchResult};
ghost use Rattle.c_lex.specs.declared.tokens.LexError.{LexError};
ghost use Rattle.c_lex.specs.declared.tokens.Token.{Token};
ghost use Rattle.c_lex.specs.Tokens.{AreTokensOf, IsLexErrorOf};

use crate::pieces::{Piece, first_piece};
use crate::tokens::{LexError, Token};
use std::alloc::Global;

/// Returns the tokens of a source of at most 1,048,576 bytes, in order, by ISO/IEC 9899:2018, 6.4, as far as the
/// subset goes.
///
/// # Errors
///
/// `BadByte`, `OpenComment` or `BadNumber` at the first place where no token begins; `Memory` if an allocation fails.
pub fn lex(alloc: Global, source: &[u8]) -> Result<Vec<Token>, LexError>
    requires { length source.now ≤ 1048576 }
    ensures tokens { IfOk result (λ tokens. AreTokensOf source.now tokens.items) }
    ensures refusal { IfErr result (λ error. error ≢ LexError.Memory → IsLexErrorOf source.now error) }

    // The source has no other tokens, and no other refusal.
    ensures only_tokens { (tokens : List Token) → AreTokensOf source.now tokens →
        MatchResult result (λ answer. answer.items ≡ tokens) (λ error. error ≡ LexError.Memory) }
    ensures only_refusal { (error : LexError) → IsLexErrorOf source.now error →
        IsErrOf result error ⊎ IsErrOf result LexError.Memory }
{
    let mut tokens = Vec::new(alloc);
    let mut at = 0;
    while at < source.len() {
        let place = at as u32;
        match first_piece(&source[at..], place)? {
            Piece::Gap { length } => at += length,
            Piece::Token { kind, length } => {
                let token = Token {
                    kind,
                    at: place,
                    length: length as u32,
                };
                tokens.push(token).map_err(|_| LexError::Memory)?;
                at += length;
            }
        }
    }
    Ok(tokens)
}
