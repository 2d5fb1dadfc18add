// A writer of bytes through a buffer.
//
// A `BufferedWriter` has the bytes that its sink hasn't taken yet, at most 4,096, and the first refusal, if there was
// one. The log of a run is written through it. `Writes` defines the effect of a text that is written piece by piece on
// the writer and on its sink. After a refusal nothing more is written, as in a stream of C whose error indicator is
// set.
#![tactic(auto)]

mod writer;

pub use writer::{BufferedWriter, PutError};
