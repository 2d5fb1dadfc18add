// The text of a report, written piece by piece.
//
// In: words, numbers, formats with a placeholder for each number, and names. Out: the text, if there was enough memory
// for all of it. A `Text` records whether there was, so the functions that write to it return no errors. A complete
// text has each piece that was put into it, in order (`Adds` of specs/Written.antt), and each number in decimal digits
// (`filled`); so a report shows what was computed.
#![tactic(auto)]

mod text;

pub use text::Text;
