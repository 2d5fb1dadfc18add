// The rewriting that moves calls out of expressions: its definitions, and the small functions that
// decide its cases.
//
// specs/Expressions.antt and Statements.antt define, one table row for each form, the tree in which
// each call that isn't whole is moved before its statement, and the remaining expression;
// specs/NewNames.antt defines the new names, which begin with a digit. The functions here decide
// whether a tree contains a call and which part gets a name, and build names and chains of
// operators; `hoist_rules` builds the whole tree with them. proofs/ has the laws of the definitions
// (Whole.antt: every call of the new tree is whole), so `hoist_meaning` is proved in parallel with
// `hoist_rules`.
#![tactic(auto)]

mod chains;
mod held_calls;
mod new_names;

pub use chains::{Chain, condition_by, is_branching, is_false, is_true, unary};
pub use held_calls::{
    calls_after, calls_among, either_holds_call, holds_call, holds_nested, is_left_alone, is_spawn,
    needs_name,
};
pub use new_names::{new_name, used};
