// The log of a run, line by line.
//
// An `Entry` is one line of the log: an event that was delivered or dropped, a thread that was
// chosen, a value that it output, where it blocked or ended, an edge of the blocking graph, or why
// the run stopped. A `LogWriter` writes the lines of entries to a sink through a buffer,
// `put_entry` writes one directly, and `read_entry` parses a line. All cite one definition of the
// text of an entry; `log_text` is the text of a list of entries, which the law of a whole run
// cites. A line is a word and fields separated by single spaces, with numbers as canonical
// decimals, and ends with LF. A law has no effect at run time: its contract is a theorem.
#![tactic(auto)]

mod averages;
mod entries;
mod laws;
mod lists;
mod parts;
mod reading;
mod writer;
mod writing;

pub use averages::Averages;
pub use buffered_writer::PutError;
pub use entries::{Entry, Item, StopLine};
pub use laws::log_lines_are_entries;
pub use reading::{LogError, read_entry};
pub use writer::LogWriter;
pub use writing::put_entry;
