// The declarations and definitions of a source outside functions, as they are read.

use crate::raw_expressions::Name;
use crate::raw_statements::RawStmt;

/// A table's declaration: `int (*name[size])(int) = { members };`
#[derive(Drop)]
pub struct RawTable {
    pub name: Name,
    pub size: u32,
    pub members: Vec<Name>,
}

/// A function's prototype. Its parameters may be unnamed.
#[derive(Drop)]
pub struct RawPrototype {
    /// Whether the result is `int`.
    pub gives: bool,
    pub name: Name,
    pub params: Vec<Option<Name>>,
}

/// A function's definition.
#[derive(Drop)]
pub struct RawFunction {
    /// Whether the result is `int`.
    pub gives: bool,
    pub name: Name,
    pub params: Vec<Name>,
    pub body: Vec<RawStmt>,
}

/// One declaration or definition outside functions. A declaration of several globals is several
/// items.
#[derive(Drop)]
pub enum RawItem {
    /// A global of one word, with its initial value.
    Global { name: Name, start: u32 },
    /// A global array, with the number of words as in the text.
    GlobalArray { name: Name, words: u32 },
    Table(RawTable),
    Prototype(RawPrototype),
    Function(RawFunction),
}
