// Pairs of an image and a certificate that are valid for a program.
//
// In: a program with an image and a certificate that meet the rules V1 to V12 of certificate_rules,
// its flat code, and lists of facts about the image's code. Out: an `Accepted`, which contains
// them. There is no other way to make one, so its invariant, which `is_valid` states, is that the
// pair is valid. The checker, certificate_check, decides the rules and makes the value; the crates
// above rely only on the invariant. The crate also has the look-ups by number in a program and its
// certificate that both need.
#![tactic(auto)]

mod accepted;
mod code_lists;
mod lookups;
mod words_before;

pub use accepted::Accepted;
pub use code_lists::{CodeLists, code_lists_of};
pub use lookups::{find_site, function_of, kind_of_operation, operation_of};
pub use words_before::words_before_each;
