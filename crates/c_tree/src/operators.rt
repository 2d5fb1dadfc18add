// Operators.

/// An operator that evaluates both operands (ISO/IEC 9899:2018, 6.5.5 to 6.5.12).
#[derive(Clone, Copy, PartialEq, Eq)]
pub enum BinaryOperator {
    Add,
    Subtract,
    Multiply,
    Divide,
    Remainder,
    BitAnd,
    BitOr,
    BitXor,
    ShiftLeft,
    ShiftRight,
    Less,
    Greater,
    LessOrEqual,
    GreaterOrEqual,
    Equal,
    NotEqual,
}

/// An operator between two operands. The logical ones evaluate the right operand only if the left
/// one doesn't determine the result (ISO/IEC 9899:2018, 6.5.13 and 6.5.14).
#[derive(Clone, Copy, PartialEq, Eq)]
pub enum Infix {
    Binary(BinaryOperator),
    LogicalAnd,
    LogicalOr,
}

/// An operator before its operand: `+`, `-`, `~` and `!` (ISO/IEC 9899:2018, 6.5.3.3).
#[derive(Clone, Copy, PartialEq, Eq)]
pub enum UnaryOperator {
    Plus,
    Negate,
    Complement,
    Not,
}
