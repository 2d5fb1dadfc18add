// The places of the calls, the functions and the array elements of a source.
//
// In: the bytes of a source and the name of its file. Out: `Places`, which appends to a `Text` the place of a site with
// its callee and its function, the call's text, a function's name, and the places of the elements of an array. Sites
// and functions have the numbers that images and logs use; lines and columns are those of `report_figures`.
#![tactic(auto)]

mod elements;
mod places;

pub use places::{Access, Array, Places, PlacesError};
