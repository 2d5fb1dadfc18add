// Integers, fields and lines as bytes.
//
// `read_dec`, `read_signed` and `read_wide` read an integer from the bytes of a field, and `put_dec` appends one to a
// line. `Fields` iterates over the pieces between separators, `Lines` over those between line feeds. The calls on
// numbers cite one definition, the canonical decimal of an integer: its ASCII digits, with no leading `0` except in `0`
// itself, after a `-` if the number is negative. So a number has exactly one spelling, and reading inverts writing. The
// formats of the crates above consist of such fields and lines; these crates use the laws beside the contracts. The
// digits are those of ISO/IEC 9899:2018, 6.4.4.1, in base ten; a line ends with the newline of POSIX, LF. A law has no
// effect at run time: its contract is a theorem.
#![tactic(auto)]

mod fields;
mod laws;
mod lines;
mod numbers;
mod putting;

pub use fields::Fields;
pub use laws::{fields_are_pieces, lines_come_back, numbers_have_one_decimal};
pub use lines::Lines;
pub use numbers::{NumberError, read_dec, read_signed, read_wide};
pub use putting::put_dec;
