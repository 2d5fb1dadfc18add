// Statements as they are read, with names.

use crate::raw_expressions::{Name, RawExpr};

/// A declaration of one name, an assignment, or a call.
#[derive(Drop)]
pub enum RawSimple {
    /// `int name;`
    DeclareScalar {
        name: Name,
    },
    /// `int name[words];`, with the number as in the text.
    DeclareArray {
        name: Name,
        words: u32,
    },
    /// `int name = value;`
    DeclareWith {
        name: Name,
        value: RawExpr,
    },
    /// `name = value`
    Set {
        name: Name,
        value: RawExpr,
    },
    /// `name[index] = value`
    SetElement {
        name: Name,
        index: Box<RawExpr>,
        value: RawExpr,
    },
    /// `name(arguments)`
    Call {
        name: Name,
        arguments: Vec<RawExpr>,
    },
    /// `name[index](argument)`
    TableCall {
        name: Name,
        index: Box<RawExpr>,
        argument: Box<RawExpr>,
    },
}

/// The parts in the parentheses of a `for`.
#[derive(Drop)]
pub struct RawForParts {
    pub init: Vec<RawSimple>,
    pub condition: Option<RawExpr>,
    pub step: Option<RawSimple>,
}

/// A statement with names. `at` is the place of the statement's keyword.
#[derive(Drop)]
pub enum RawStmt {
    Simple(RawSimple),
    /// `;`
    Empty,
    Block(Vec<RawStmt>),
    If {
        condition: RawExpr,
        then: Box<RawStmt>,
    },
    IfElse {
        condition: RawExpr,
        then: Box<RawStmt>,
        otherwise: Box<RawStmt>,
    },
    While {
        condition: RawExpr,
        body: Box<RawStmt>,
    },
    /// `for (init; condition; step) body`. Declarations of several names are several entries of `init`.
    For {
        parts: Box<RawForParts>,
        body: Box<RawStmt>,
    },
    Break {
        at: u32,
    },
    Continue {
        at: u32,
    },
    Return {
        at: u32,
        value: Option<RawExpr>,
    },
}
