// The laws of the grammar of CapC: theorems on every list of tokens and its tree, for any reader.
//
// The functions here are laws: they have no effect at run time, and their contracts are theorems.
//
// - `token_lists`: a list of tokens has exactly one verdict and at most one tree, and an `else` may always belong to
//   the nearest `if` that can take it. proofs/ shows that the steps from token to token (specs/Machine.antt of
//   `c_grammar`) and the rests of the grammar (specs/Rests.antt there) agree: Forward, Backward, Agreement, Outcome. By
//   them `c_parse` proves that it returns the one tree or the one refusal.
// - `places`: names, calls, and `break`, `continue` and `return` are in the tree in the order of the text, whichever of
//   them are listed (specs/Places.antt, `places_rise`). So numbering the calls in the order of the tree numbers them in
//   the order of the text. The number of a call by the place of its name is the rank of this place (specs/Ranks.antt,
//   `ranks_are_numbers`). specs/Nested.antt lists the places of the calls that aren't whole; `decisions` has the laws
//   on the first of them.
#![tactic(auto)]

mod places;
mod token_lists;

pub use places::{places_rise, ranks_are_numbers};
pub use token_lists::{else_to_the_nearest, one_tree, one_verdict};
