// Which tokens are operators, and how tightly the binary ones bind.
ghost use Rattle.std.specs.Prelude.{◌≡◌, Some};
ghost use Rattle.c_grammar.specs.Operators.{unary_operator_of, infix_operator_of, level_of_infix};

use c_lex::{Mark, TokenKind};
use c_tree::{BinaryOperator, Infix, UnaryOperator};

/// The number of levels of binary operators; `||`, the loosest, has level 0.
pub(crate) const LEVELS: u32 = 10;

/// Returns the operator before an operand that the token is, if it is one (ISO/IEC 9899:2018, 6.5.3).
pub(crate) fn unary_of(kind: TokenKind) -> Option<UnaryOperator>
    ensures { result ≡ unary_operator_of (Some kind) }
{
    match kind {
        TokenKind::Mark(Mark::Minus) => Some(UnaryOperator::Negate),
        TokenKind::Mark(Mark::Plus) => Some(UnaryOperator::Plus),
        TokenKind::Mark(Mark::Exclamation) => Some(UnaryOperator::Not),
        TokenKind::Mark(Mark::Tilde) => Some(UnaryOperator::Complement),
        _ => None,
    }
}

/// Returns the operator between two operands that the token is, if it is one (ISO/IEC 9899:2018, 6.5.5 to
/// 6.5.14).
pub(crate) fn infix_of(kind: TokenKind) -> Option<Infix>
    ensures { result ≡ infix_operator_of (Some kind) }
{
    match kind {
        TokenKind::Mark(Mark::OrOr) => Some(Infix::LogicalOr),
        TokenKind::Mark(Mark::AndAnd) => Some(Infix::LogicalAnd),
        TokenKind::Mark(Mark::Bar) => Some(Infix::Binary(BinaryOperator::BitOr)),
        TokenKind::Mark(Mark::Caret) => Some(Infix::Binary(BinaryOperator::BitXor)),
        TokenKind::Mark(Mark::Ampersand) => Some(Infix::Binary(BinaryOperator::BitAnd)),
        TokenKind::Mark(Mark::Equal) => Some(Infix::Binary(BinaryOperator::Equal)),
        TokenKind::Mark(Mark::NotEqual) => Some(Infix::Binary(BinaryOperator::NotEqual)),
        TokenKind::Mark(Mark::Less) => Some(Infix::Binary(BinaryOperator::Less)),
        TokenKind::Mark(Mark::LessEqual) => Some(Infix::Binary(BinaryOperator::LessOrEqual)),
        TokenKind::Mark(Mark::Greater) => Some(Infix::Binary(BinaryOperator::Greater)),
        TokenKind::Mark(Mark::GreaterEqual) => Some(Infix::Binary(BinaryOperator::GreaterOrEqual)),
        TokenKind::Mark(Mark::ShiftLeft) => Some(Infix::Binary(BinaryOperator::ShiftLeft)),
        TokenKind::Mark(Mark::ShiftRight) => Some(Infix::Binary(BinaryOperator::ShiftRight)),
        TokenKind::Mark(Mark::Plus) => Some(Infix::Binary(BinaryOperator::Add)),
        TokenKind::Mark(Mark::Minus) => Some(Infix::Binary(BinaryOperator::Subtract)),
        TokenKind::Mark(Mark::Star) => Some(Infix::Binary(BinaryOperator::Multiply)),
        TokenKind::Mark(Mark::Slash) => Some(Infix::Binary(BinaryOperator::Divide)),
        TokenKind::Mark(Mark::Percent) => Some(Infix::Binary(BinaryOperator::Remainder)),
        _ => None,
    }
}

/// Returns the level of an operator, from 0 for `||` to 9 for `*`, `/` and `%`.
pub(crate) fn level_of(operator: Infix) -> u32
    ensures { result ≡ level_of_infix operator }
{
    match operator {
        Infix::LogicalOr => 0,
        Infix::LogicalAnd => 1,
        Infix::Binary(binary) => match binary {
            BinaryOperator::BitOr => 2,
            BinaryOperator::BitXor => 3,
            BinaryOperator::BitAnd => 4,
            BinaryOperator::Equal | BinaryOperator::NotEqual => 5,
            BinaryOperator::Less
            | BinaryOperator::Greater
            | BinaryOperator::LessOrEqual
            | BinaryOperator::GreaterOrEqual => 6,
            BinaryOperator::ShiftLeft | BinaryOperator::ShiftRight => 7,
            BinaryOperator::Add | BinaryOperator::Subtract => 8,
            BinaryOperator::Multiply | BinaryOperator::Divide | BinaryOperator::Remainder => 9,
        },
    }
}
