// The numbers of a tree's calls, by the places of their names.
//
// `numbers_by_places` takes the places of the calls' names, in the order of the tree (`call_places`),
// and returns for each the number of places that are less (specs/Ranks.antt of `grammar_laws`).
// `c_hoist` gives these numbers to the calls of a rewritten tree, in which calls aren't in the order
// of the text.
#![tactic(auto)]

mod numbers;

pub use numbers::numbers_by_places;
