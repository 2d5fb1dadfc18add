// Calls and statements with numbers in place of names.

use crate::expressions::Expr;
use cap_word::ModelledCall;

/// A call, with the number of its site. Its arguments don't contain calls.
#[derive(Drop)]
pub enum Call {
    Function {
        site: u32,
        function: u32,
        arguments: Vec<Expr>,
    },
    /// `table[index](argument)`, a call of the table's member at the index.
    Table {
        site: u32,
        table: u32,
        index: Box<Expr>,
        argument: Box<Expr>,
    },
    /// `spawn(function, argument)`, which starts a thread. `function` is the function's number.
    Spawn {
        site: u32,
        function: u32,
        argument: Box<Expr>,
    },
    Modelled {
        site: u32,
        call: ModelledCall,
        arguments: Vec<Expr>,
    },
}

/// The right side of an assignment or the value of a `return`: an expression, or a call whose result is
/// used.
#[derive(Drop)]
pub enum RightSide {
    Expr(Expr),
    Call(Call),
}

/// A statement that contains no other statement and leaves no loop or function: a declaration of one
/// name, an assignment, or a call.
#[derive(Drop)]
pub enum Simple {
    /// `int x;`
    DeclareScalar {
        variable: u32,
    },
    /// `int x[words];`
    DeclareArray {
        variable: u32,
        words: u32,
    },
    /// `int x = value;`
    DeclareWith {
        variable: u32,
        value: RightSide,
    },
    SetLocal {
        variable: u32,
        value: RightSide,
    },
    SetGlobal {
        global: u32,
        value: RightSide,
    },
    SetLocalElement {
        array: u32,
        index: Box<Expr>,
        value: Box<RightSide>,
    },
    SetGlobalElement {
        array: u32,
        index: Box<Expr>,
        value: Box<RightSide>,
    },
    /// A call; its result, if it gives one, is discarded.
    Call(Call),
}

/// The parts in the parentheses of a `for`.
#[derive(Drop)]
pub struct ForParts {
    pub init: Vec<Simple>,
    pub condition: Option<Expr>,
    pub step: Option<Simple>,
}

/// A statement (ISO/IEC 9899:2018, 6.8).
#[derive(Drop)]
pub enum Stmt {
    Simple(Simple),
    /// `;`
    Empty,
    Block(Vec<Stmt>),
    If {
        condition: Expr,
        then: Box<Stmt>,
    },
    IfElse {
        condition: Expr,
        then: Box<Stmt>,
        otherwise: Box<Stmt>,
    },
    While {
        condition: Expr,
        body: Box<Stmt>,
    },
    /// `for (init; condition; step) body`. Declarations of several names are several entries of `init`.
    For {
        parts: Box<ForParts>,
        body: Box<Stmt>,
    },
    Break,
    Continue,
    Return(Option<RightSide>),
}
