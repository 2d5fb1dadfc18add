// The parts of a source thread's step: the values of expressions, and what a frame has still to do.
//
// In: an expression with the words of names and globals; or statements, and a stack of items to
// push them on. Out: the value or its first trap (`evaluate`; `short_value` evaluates an expression
// of few parts, and `composed` one for which that returns `None`); the stack with the statement's
// items on it (`push_stmt`, `push_body`, `push_turn`), without the items that a jump skips
// (`leave`, `skip`), or without its next item (`take_item`). An item is a part of a statement
// (`Item`), and a stack of items is the list of `c_mean`'s ToDo, the next item on top
// (specs/Items.antt). The words of all names are in one list (`Rows`). `source_runs`, the
// interpreter of threads, uses these calls. The rules are those of ISO/IEC 9899:2018, 6.5 and 6.8,
// for the subset CapC.
#![tactic(auto)]

mod items;
mod rows;
mod values;

pub use items::{
    Item, Part, condition_of, leave, push_body, push_stmt, push_stmts, push_turn, skip, start_of,
    step_of, take_item,
};
pub use rows::Rows;
pub use values::{composed, evaluate, short_value};
