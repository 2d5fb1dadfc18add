// The first failure of each rule of valid pairs, except V9 and V10, which compare the needs and
// bounds of sites.
//
// In: a program in flat code, an image and a certificate. Out: for each of the rules V1 to V8, V11
// and V12 the first place at which it fails, or none: the least index in a function, or, if the
// rule concerns all functions at once, the least function and in it the least index. The rules are
// the definitions of certificate_rules. The checker, certificate_check, tries the rules in order;
// it decides V9 and V10 itself.
#![tactic(auto)]

mod fit;
mod frames;
mod image_lists;
mod lookups;
mod marks;
mod named_sites;
mod operations;
mod places;
mod ranges;
mod settings;
mod spots;
mod tables;
mod words;

pub use fit::first_unfit;
pub use frames::{first_outside_path, first_wrong_frame};
pub use image_lists::{first_wrong_global, first_wrong_member};
pub use lookups::certified_site_of;
pub use operations::first_wrong_operation;
pub use places::first_wrong_place;
pub use ranges::first_wrong_range;
pub use spots::Spot;
pub use tables::Tables;
pub use words::{first_wrong_prologue_word, first_wrong_stub_word};
