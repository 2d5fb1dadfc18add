// Moves calls inside expressions before their statements.
//
// `hoist_body` takes the body of a function, and rewrites it to statements in which every call is
// whole, if every call in the parentheses of a `for` is: those parentheses stay as they are. A call
// that isn't whole goes before its statement, as the declaration of a new name. So does everything
// that is evaluated before the call, so evaluation stays from left to right (`hoist_parts`:
// specs/Expressions.antt, Statements.antt). New names begin with a digit. The statements are passed
// one by one to a receiver (`Receive`), because one expression can become more statements than
// memory should hold. For the same reason a statement with a body is passed in parts: what begins
// it, the statements of its body, and its end. `Resolving` resolves them (`scope_rules`); `Keeping`
// keeps them. `c_hoist` calls `hoist_body` between the tree and the program of a source, and
// `hoist_item` for the rewritten tree. The public functions with empty bodies are examples: they
// have no effect at run time, and their contracts are theorems. The order of evaluation is CapC's;
// the operators are those of ISO/IEC 9899:2018, clauses 6.5.13 to 6.5.15.
#![tactic(auto, using(crate::proofs::Followed::following))]

mod bodies;
mod branches;
mod built;
mod copies;
mod examples;
mod expressions;
mod functions;
mod hoisting;
mod items;
mod keeping;
mod receivers;
mod simples;
mod singles;
mod statements;

pub use examples::{
    arguments_go_before, bodies_become_blocks, calls_go_before, conditionals_choose,
    indexes_go_before, left_parts_have_names, logical_operators_decide, loops_test_calls,
    spawned_function_stays, tables_go_before, whole_calls_stay,
};
pub use functions::hoist_body;
pub use items::hoist_item;
pub use keeping::Keeping;
pub use receivers::{Receive, Resolving};
