// The first piece of a text: a gap, a token, or neither.
ghost use Rattle.std.specs.Prelude.{ℕ, ◌≡◌, ◌≢◌, ◌<◌, ◌≤◌, ◌^◌, length, slice_index, take, IsTrue, IfSome, IfNone, IfOk, IfErr};
ghost use Rattle.std.specs.Char.{is_ascii_digit};
ghost use Rattle.c_lex.specs.Bytes.{is_white_space, is_word_byte};
ghost use Rattle.c_lex.specs.Lexemes.{IsWord, BeginsComment, IsOfKind};
ghost use Rattle.c_lex.specs.Numbers.{IsNumber};
ghost use Rattle.c_lex.specs.Pieces.{IsFirstPiece};
ghost use Rattle.c_lex.specs.Tokens.{BeginsNone};

use crate::bytes::{is_white_space, is_word_byte};
use crate::comments::{block_comment_length, line_comment_length};
use crate::keywords::keyword_of;
use crate::marks::mark_at;
use crate::numbers::number_of;
use crate::tokens::{LexError, TokenKind};

/// The first piece of a text.
#[derive(Clone, Copy)]
pub(crate) enum Piece {
    /// White space or a comment, with its length in bytes.
    Gap { length: usize },
    /// A token, with its length in bytes.
    Token { kind: TokenKind, length: usize },
}

// The number of word bytes at the front of the text.
fn word_length(text: &[u8]) -> usize
    ensures within { result ≤ length text.now }
    ensures word { (k : ℕ) → k < result → IsTrue (is_word_byte (slice_index text.now k)) }
    ensures longest { result < length text.now → ¬ IsTrue (is_word_byte (slice_index text.now result)) }
{
    for (place, byte) in text.iter().enumerate() {
        if !is_word_byte(*byte) {
            return place;
        }
    }
    text.len()
}

// The kind of a word, or `None` if it begins with a digit and isn't a number.
fn word_kind(word: &[u8]) -> Option<TokenKind>
    requires { IsWord word.now }
    ensures kind { IfSome result (λ kind. IsOfKind word.now kind) }
    ensures digit { IfNone result (IsTrue (is_ascii_digit (slice_index word.now 0))) }
    ensures none { IfNone result ((value : ℕ) → value < 2 ^ 32 → ¬ IsNumber word.now value) }
{
    if word[0].is_ascii_digit() {
        let value = number_of(word)?;
        return Some(TokenKind::Number { value });
    }
    match keyword_of(word) {
        Some(keyword) => Some(TokenKind::Keyword(keyword)),
        None => Some(TokenKind::Name),
    }
}

// The word at the front of the text, which is at the place `at` of the source.
fn word_piece(text: &[u8], at: u32) -> Result<Piece, LexError>
    requires nonempty { 0 < length text.now }
    requires word { IsTrue (is_word_byte (slice_index text.now 0)) }
    ensures piece { IfOk result (λ piece. IsFirstPiece text.now piece) }
    ensures none { IfErr result (λ error. BeginsNone at text.now error) }
{
    let length = word_length(text);
    match word_kind(&text[..length]) {
        Some(kind) => Ok(Piece::Token { kind, length }),
        None => Err(LexError::BadNumber { at }),
    }
}

// The comment at the front of the text, which is at the place `at` of the source, or `None` if none
// begins there.
fn comment_piece(text: &[u8], at: u32) -> Result<Option<Piece>, LexError>
    ensures piece { IfOk result (λ answer. IfSome answer (λ piece. IsFirstPiece text.now piece)) }
    ensures absent { IfOk result (λ answer. IfNone answer (¬ BeginsComment text.now)) }
    ensures none { IfErr result (λ error. BeginsNone at text.now error) }
{
    if text.starts_with(b"//") {
        let length = line_comment_length(text);
        return Ok(Some(Piece::Gap { length }));
    }
    if text.starts_with(b"/*") {
        return match block_comment_length(text) {
            Some(length) => Ok(Some(Piece::Gap { length })),
            None => Err(LexError::OpenComment { at }),
        };
    }
    Ok(None)
}

// The mark at the front of the text, which is at the place `at` of the source.
fn mark_piece(text: &[u8], at: u32) -> Result<Piece, LexError>
    requires nonempty { 0 < length text.now }
    requires space { ¬ IsTrue (is_white_space (slice_index text.now 0)) }
    requires word { ¬ IsTrue (is_word_byte (slice_index text.now 0)) }
    requires comment { ¬ BeginsComment text.now }
    ensures piece { IfOk result (λ piece. IsFirstPiece text.now piece) }
    ensures none { IfErr result (λ error. BeginsNone at text.now error) }
{
    match mark_at(text) {
        Some(mark) => Ok(Piece::Token {
            kind: TokenKind::Mark(mark),
            length: mark.text().len(),
        }),
        None => Err(LexError::BadByte { at }),
    }
}

/// Returns the first piece of a text that isn't empty and is at the place `at` of the source.
///
/// # Errors
///
/// `BadByte`, `OpenComment` or `BadNumber` at `at` if neither a gap nor a token begins there.
pub(crate) fn first_piece(text: &[u8], at: u32) -> Result<Piece, LexError>
    requires { 0 < length text.now }
    ensures piece { IfOk result (λ piece. IsFirstPiece text.now piece) }
    ensures none { IfErr result (λ error. BeginsNone at text.now error) }
{
    if is_white_space(text[0]) {
        return Ok(Piece::Gap { length: 1 });
    }
    if is_word_byte(text[0]) {
        return word_piece(text, at);
    }
    match comment_piece(text, at)? {
        Some(piece) => Ok(piece),
        None => mark_piece(text, at),
    }
}
