// The rewriting of calls inside expressions preserves the meaning of a text, and its calls.
//
// Only laws, over the definitions of hoist_parts, scope_rules, grammar_laws, deep_mean and c_mean:
// functions without an effect at run time, whose contracts are theorems. A text with calls inside
// expressions has a meaning without rewriting (`deep_mean`); the program as which it is read has
// each such call before its statement (`hoist_parts`, `scope_rules`), and does what `c_mean`
// defines.
//
// - `meaning`: for every schedule both have the same outputs, modelled calls with values, keys,
//   traps and ends (specs/SameRuns.antt; the law is `rewritten_sources_mean_the_same`). The law
//   requires that no name begins with a digit, as the new names do (specs/SourceNames.antt); no
//   name of a source does (`names_begin_with_letters`).
// - `calls`: the rewriting neither loses nor duplicates a call, by the places of their names
//   (`calls_stay`); so the calls of the rewritten source keep the numbers of the text
//   (`calls_keep_numbers`). Only a call in the first argument of `spawn` would be lost;
//   specs/SpawnArguments.antt says that there is none, which holds if the rewritten source breaks
//   no rule of scope (`spawned_functions_are_names`).
#![tactic(auto)]

mod calls;
mod meaning;

pub use calls::{calls_keep_numbers, calls_stay, spawned_functions_are_names};
pub use meaning::{names_begin_with_letters, rewritten_sources_mean_the_same};
