// From a tree with names to a program.
//
// `resolve` takes the tree of a source in which every call is whole. It returns the same tree with
// numbers in place of names, or the rule of scope or the limit that the source breaks. A name means
// the latest declaration that is in scope at its place (specs/Names.antt). The rules
// (specs/Expressions, Calls, Simples, Statements, Items) list the faults of each form of the tree,
// and the least fault is reported (specs/Faults, Outcomes). `Resolver` takes a source item by item,
// so an item can be freed before the next one is built, and numbers the calls differently from the
// order of the tree. It takes a definition statement by statement (`FunctionResolver`), and a
// statement with a body in parts (specs/Openings, Making). `c_scope` uses `resolve`, and `c_hoist` uses `Resolver`, after tokens and tree
// of the source have been read. The rules are those of ISO/IEC 9899:2018, clauses 6.2.1, 6.2.2,
// 6.5.2.2, 6.7 and 6.8, for the subset CapC.
#![tactic(auto)]

mod calls;
mod errors;
mod expressions;
mod faults;
mod forms;
mod functions;
mod held;
mod items;
mod limits;
mod meanings;
mod names;
mod numbering;
mod openings;
mod places;
mod resolver;
mod simples;
mod statements;

pub use errors::ScopeError;
pub use openings::Opening;
pub use resolver::{FunctionResolver, Resolver, resolve};
