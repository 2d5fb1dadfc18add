// The events of a trace, read line by line from a source.
//
// A trace has the requests and messages that reach a server, as text: `arrive T V` and `data T CH V`, one line each, in
// order of time. `TraceReader::next` returns one event after another from the bytes of its source, however these are
// split into reads. It refuses the first line that isn't an event, the first time that decreases, and a read that
// fails. One definition says which line spells which event; the crates above cite it. Numbers are canonical decimals as
// in `cap_text`; docs/FORMATS.md describes the format of trace lines.
#![tactic(auto)]

mod blocks;
mod events;
mod gathering;
mod parsing;
mod reader;
mod refusals;

pub use events::{Event, EventKind};
pub use reader::TraceReader;
pub use refusals::TraceError;
