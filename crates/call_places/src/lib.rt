// The places of a source's calls.
//
// In: the tree of a source. Out: the place of each call's name, in the order of the tree. Sites are
// numbered from 0 in the order of the text, which is the same order (`places_rise` of
// `grammar_laws`), so the place of a site is the element at its number; `put`, `give`, `self`,
// `spawn` and the blocking calls count like any other. `source_places` uses the clause of
// `places_of_calls` over `items_places` of `grammar_laws`; `c_hoist` collects the places item by
// item, by `add_places_of_calls`.
#![tactic(auto)]

mod calls;

pub use calls::{
    add_places_of_calls, add_places_of_calls_in, add_places_of_calls_in_expr,
    add_places_of_calls_in_parts, places_of_calls,
};
