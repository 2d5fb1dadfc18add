// The lines that the command `graph` prints.
//
// In: the functions of a program, with the size of each frame in bytes and its bound, and the call
// sites in order, with the numbers of the back edges and of the checkpointed sites. Out: a line for
// each function and one for each site (specs/Lines.antt). The crates above use the contract of
// `analysis_text`. The form of the lines is Capriccio's own.
#![tactic(auto)]

mod text;

pub use text::{Findings, analysis_text};
