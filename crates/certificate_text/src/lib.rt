// Reading and writing the text of a certificate of stack use.
//
// `read_cert` converts bytes to a `Certificate`, or returns the first line that breaks the format, and
// `write_cert` converts a certificate to its text. specs/Text.antt has the lines and limits, and
// specs/FirstRefused.antt defines which line of another text is refused. The commands read and write
// certificates by these two calls. The law `texts_mean_one_thing` says that a text is that of at most one
// certificate, and has at most one first refused line. The format is Capriccio's own.
#![tactic(auto)]

mod errors;
mod fact_lines;
mod reading;
mod text_laws;
mod text_rest;
mod writing;

pub use errors::CertError;
pub use reading::read_cert;
pub use text_laws::texts_mean_one_thing;
pub use writing::write_cert;
