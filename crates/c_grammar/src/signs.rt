// The classes of tokens in the grammar.
ghost use Rattle.std.specs.Prelude.{◌≡◌};
ghost use Rattle.c_grammar.specs.Signs.{sign_of_token, sign_of_keyword, sign_of_mark};

use c_lex::{Keyword, Mark, TokenKind};

/// The class of a token in the grammar. `+`, `-` and `*` have other uses than between two operands, and `!` and `~`
/// are only used before an operand. The other operators between operands differ, for the grammar, only in how tightly
/// they bind.
#[derive(Clone, Copy, PartialEq, Eq)]
pub enum Sign {
    Name,
    Number,
    Int,
    Void,
    If,
    Else,
    While,
    For,
    Break,
    Continue,
    Return,
    LeftParenthesis,
    RightParenthesis,
    LeftBracket,
    RightBracket,
    LeftBrace,
    RightBrace,
    Comma,
    Semicolon,
    Question,
    Colon,
    Assign,
    Plus,
    Minus,
    Star,
    /// `!` and `~`
    Prefix,
    /// `/` and `%`
    Multiplicative,
    /// `<<` and `>>`
    Shift,
    /// `<`, `<=`, `>` and `>=`
    Relational,
    /// `==` and `!=`
    Equality,
    BitAnd,
    BitXor,
    BitOr,
    LogicalAnd,
    LogicalOr,
    /// A keyword or a mark of C that the grammar doesn't use.
    Unused,
    /// No token: the end of the source.
    Finish,
}

/// Returns the class of a token of this kind.
pub fn sign_of(kind: TokenKind) -> Sign
    ensures { result ≡ sign_of_token kind }
{
    match kind {
        TokenKind::Name => Sign::Name,
        TokenKind::Number { .. } => Sign::Number,
        TokenKind::Keyword(keyword) => keyword_sign(keyword),
        TokenKind::Mark(mark) => mark_sign(mark),
    }
}

fn keyword_sign(keyword: Keyword) -> Sign
    ensures { result ≡ sign_of_keyword keyword }
{
    match keyword {
        Keyword::Int => Sign::Int,
        Keyword::Void => Sign::Void,
        Keyword::If => Sign::If,
        Keyword::Else => Sign::Else,
        Keyword::While => Sign::While,
        Keyword::For => Sign::For,
        Keyword::Break => Sign::Break,
        Keyword::Continue => Sign::Continue,
        Keyword::Return => Sign::Return,
        _ => Sign::Unused,
    }
}

fn mark_sign(mark: Mark) -> Sign
    ensures { result ≡ sign_of_mark mark }
{
    match mark {
        Mark::LeftParenthesis => Sign::LeftParenthesis,
        Mark::RightParenthesis => Sign::RightParenthesis,
        Mark::LeftBracket => Sign::LeftBracket,
        Mark::RightBracket => Sign::RightBracket,
        Mark::LeftBrace => Sign::LeftBrace,
        Mark::RightBrace => Sign::RightBrace,
        Mark::Comma => Sign::Comma,
        Mark::Semicolon => Sign::Semicolon,
        Mark::Question => Sign::Question,
        Mark::Colon => Sign::Colon,
        Mark::Assign => Sign::Assign,
        Mark::Plus => Sign::Plus,
        Mark::Minus => Sign::Minus,
        Mark::Star => Sign::Star,
        Mark::Exclamation | Mark::Tilde => Sign::Prefix,
        Mark::Slash | Mark::Percent => Sign::Multiplicative,
        Mark::ShiftLeft | Mark::ShiftRight => Sign::Shift,
        Mark::Less | Mark::LessEqual | Mark::Greater | Mark::GreaterEqual => Sign::Relational,
        Mark::Equal | Mark::NotEqual => Sign::Equality,
        Mark::Ampersand => Sign::BitAnd,
        Mark::Caret => Sign::BitXor,
        Mark::Bar => Sign::BitOr,
        Mark::AndAnd => Sign::LogicalAnd,
        Mark::OrOr => Sign::LogicalOr,
        _ => Sign::Unused,
    }
}
