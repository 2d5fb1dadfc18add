// The trees of a CapC source: as it is read, with names, and as it is resolved, with numbers.
//
// `RawProgram` is the output of a reader: names with their places in the text, not yet resolved.
// `Program` is the output of a resolver: functions, globals, tables, variables and call sites have
// numbers. Its invariant says that all of them exist, are in scope, of the right kind and within the
// limits, so the crates above index without a test. Contracts see both as plain trees, without capacities
// and addresses (specs/Trees.antt, specs/RawTrees.antt). A chain of operators of one level is a list in
// the code and leans to the left in the plain tree, so a walk recurses no deeper than the source nests.
//
// Which calls have to be whole is defined here too: where calls may be nested in expressions, those in
// the parentheses of a `for` (specs/WholeForParts.antt; the law `whole_in_fors`). The parser and the
// rewriting both use this definition. The rules are those of ISO/IEC 9899:2018, clauses 6.2.1, 6.5 and
// 6.8, for the subset CapC.
#![tactic(auto)]

mod expressions;
mod facts;
mod for_parts;
mod operators;
mod programs;
mod raw_expressions;
mod raw_items;
mod raw_programs;
mod raw_statements;
mod sites;
mod statements;
mod temporaries;

pub use cap_word::ModelledCall;
pub use expressions::Expr;
pub use facts::{Function, GlobalFact, Site, SiteKind, TableFact};
pub use for_parts::whole_in_fors;
pub use operators::{BinaryOperator, Infix, UnaryOperator};
pub use programs::Program;
pub use raw_expressions::{Name, RawExpr};
pub use raw_items::{RawFunction, RawItem, RawPrototype, RawTable};
pub use raw_programs::RawProgram;
pub use raw_statements::{RawForParts, RawSimple, RawStmt};
pub use statements::{Call, ForParts, RightSide, Simple, Stmt};
