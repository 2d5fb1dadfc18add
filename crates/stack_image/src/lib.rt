// Image files: the code, the initial globals, the tables and the entries of a program, as bytes.
//
// `read_image` converts bytes to an `Image`, and `write_image` an `Image` to bytes; an image has
// exactly one spelling. A file that isn't an image is refused with the place or the limit.
// `specs/Spelling.antt` has the format and `specs/Refusal.antt` the refusals in their order; the
// contracts of `read_image` and `write_image` say that they follow these, and that reading inverts
// writing. The crates above see an image as four lists of words. The format is Capriccio's own; words
// are little-endian, as in the RISC-V unprivileged manual, "RV32I".
#![tactic(auto)]

mod images;
mod reading;
mod refusals;
mod writing;

pub use images::{CODE_START, Image};
pub use reading::read_image;
pub use refusals::ImageError;
pub use writing::write_image;
