// Expressions with numbers in place of names.

use crate::operators::{Infix, UnaryOperator};

/// An expression without calls. Variables are numbered within their function, parameters first;
/// globals are numbered within the program.
#[derive(Drop)]
pub enum Expr {
    /// A number, taken modulo 2^32.
    Number(u32),
    /// A variable of one word.
    Local(u32),
    /// A global of one word.
    Global(u32),
    /// A word of a variable, by its index.
    LocalElement {
        array: u32,
        index: Box<Expr>,
    },
    /// A word of a global, by its index.
    GlobalElement {
        array: u32,
        index: Box<Expr>,
    },
    Unary {
        operator: UnaryOperator,
        operand: Box<Expr>,
    },
    /// An expression in parentheses.
    Parenthesized(Box<Expr>),
    /// A list of operators of one level, which group to the left: `a - b + c` is `(a - b) + c`.
    Chain {
        first: Box<Expr>,
        rest: Vec<(Infix, Expr)>,
    },
    /// `condition ? then : otherwise`.
    Conditional {
        condition: Box<Expr>,
        then: Box<Expr>,
        otherwise: Box<Expr>,
    },
}
