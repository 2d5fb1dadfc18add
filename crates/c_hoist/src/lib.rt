// From a source, with or without calls inside expressions, to a program.
//
// `read_nested` takes the bytes of a source and returns its program, or the refusal of the first
// stage that has one: tokens (`c_lex`), tree (`c_parse`), and, after the rewriting (`hoist_rules`),
// program (`scope_rules`); the calls keep the numbers of the text (`call_numbers`). `ReadsNested`
// (specs/NestedText.antt) defines the program of a source. The commands use this reader. A source
// that `c_scope` accepts is the same program here (law `whole_sources_read_alike`). The program
// does what the text means (`deep_mean`, `hoist_meaning`): this is `MeansText`, a clause of
// `read_nested`. `hoist` returns the rewritten tree itself.
#![tactic(auto)]

mod laws;
mod nested_text;
mod trees;

pub use laws::whole_sources_read_alike;
pub use nested_text::read_nested;
pub use trees::hoist;
