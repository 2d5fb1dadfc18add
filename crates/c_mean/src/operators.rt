// The values of operators.
ghost use Rattle.std.specs.Prelude.{◌≡◌};
ghost use Rattle.c_mean.specs.Operators.{unary_value, binary_value};
ghost use Rattle.cap_word.specs.Word as word;

use c_tree::{BinaryOperator, UnaryOperator};

/// Returns a word as a signed number.
fn signed(a: u32) -> i32
    ensures { result ≡ word.signed a }
{
    a.cast_signed()
}

/// Returns 1 if the test holds, and 0 otherwise.
#[tactic(auto, unfolding(cap_word::specs::Word::flag))]
fn flag(test: bool) -> u32
    ensures { result ≡ word.flag test }
{
    u32::from(test)
}

/// Returns the value of a unary operator.
pub fn unary(operator: UnaryOperator, a: u32) -> u32
    ensures { result ≡ unary_value operator a }
{
    match operator {
        UnaryOperator::Plus => a,
        UnaryOperator::Negate => cap_word::sub(0, a),
        UnaryOperator::Complement => a ^ u32::MAX,
        UnaryOperator::Not => flag(a == 0),
    }
}

/// Returns the value of a binary operator.
#[inline(always)]
pub(crate) fn binary(operator: BinaryOperator, a: u32, b: u32) -> u32
    ensures { result ≡ binary_value operator a b }
{
    match operator {
        BinaryOperator::Add => cap_word::add(a, b),
        BinaryOperator::Subtract => cap_word::sub(a, b),
        BinaryOperator::Multiply => cap_word::mul(a, b),
        BinaryOperator::Divide => cap_word::div(a, b),
        BinaryOperator::Remainder => cap_word::rem(a, b),
        BinaryOperator::BitAnd => a & b,
        BinaryOperator::BitOr => a | b,
        BinaryOperator::BitXor => a ^ b,
        BinaryOperator::ShiftLeft => cap_word::sll(a, b),
        BinaryOperator::ShiftRight => cap_word::sra(a, b),
        BinaryOperator::Less => flag(signed(a) < signed(b)),
        BinaryOperator::Greater => flag(signed(a) > signed(b)),
        BinaryOperator::LessOrEqual => flag(signed(a) <= signed(b)),
        BinaryOperator::GreaterOrEqual => flag(signed(a) >= signed(b)),
        BinaryOperator::Equal => flag(a == b),
        BinaryOperator::NotEqual => flag(a != b),
    }
}
