// The parts of a program: functions, globals, tables and call sites.

use crate::statements::Stmt;

/// A function with a body. It has a variable for each parameter, followed by one for each name that
/// its body declares, in the order of the text.
#[derive(Drop)]
pub struct Function {
    /// The bytes of its name.
    pub name: Vec<u8>,
    /// The number of its parameters.
    pub params: u32,
    /// Whether it is an `int` function, so that its calls give a result.
    pub gives: bool,
    /// The size of each variable in words: 1 for a scalar.
    pub sizes: Vec<u32>,
    pub body: Vec<Stmt>,
}

/// A global of `words` words, each with the initial value `start`.
#[derive(Clone, Copy, PartialEq, Eq)]
pub struct GlobalFact {
    pub words: u32,
    pub start: u32,
}

/// A table of functions, by their numbers.
#[derive(Drop)]
pub struct TableFact {
    pub members: Vec<u32>,
}

/// A call site: a call in the text, by its number.
#[derive(Clone, Copy, PartialEq, Eq)]
pub struct Site {
    pub number: u32,
    pub kind: SiteKind,
}

/// What is called at a site, by number: a function, a table, the function that a new thread runs, or a
/// modelled call by its number in the run time.
#[derive(Clone, Copy, PartialEq, Eq)]
pub enum SiteKind {
    Function(u32),
    Table(u32),
    Spawn(u32),
    Modelled(u32),
}
