// Expressions as they are read, with names.

use crate::operators::{Infix, UnaryOperator};

/// A name in the source: the place of its first byte, and its bytes.
#[derive(Drop)]
pub struct Name {
    pub at: u32,
    pub text: Vec<u8>,
}

/// An expression with names, which may have calls anywhere in it.
#[derive(Drop)]
pub enum RawExpr {
    /// A number, taken modulo 2^32.
    Number(u32),
    Name(Name),
    /// `name[index]`
    Element {
        name: Name,
        index: Box<RawExpr>,
    },
    Unary {
        operator: UnaryOperator,
        operand: Box<RawExpr>,
    },
    Parenthesized(Box<RawExpr>),
    /// A list of operators of one level, which group to the left: `a - b + c` is `(a - b) + c`.
    Chain {
        first: Box<RawExpr>,
        rest: Vec<(Infix, RawExpr)>,
    },
    /// `condition ? then : otherwise`.
    Conditional {
        condition: Box<RawExpr>,
        then: Box<RawExpr>,
        otherwise: Box<RawExpr>,
    },
    /// `name(arguments)`
    Call {
        name: Name,
        arguments: Vec<RawExpr>,
    },
    /// `name[index](argument)`
    TableCall {
        name: Name,
        index: Box<RawExpr>,
        argument: Box<RawExpr>,
    },
}
