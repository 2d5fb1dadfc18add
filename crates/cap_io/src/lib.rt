// External objects: sources of bytes, sinks for bytes, and shelves of files.
//
// `Source`, `Sink` and `Shelf` are the three kinds of object that a command takes. Each has, for contracts alone, a
// count of its faults, and its contents if it exposes them: the bytes left, the bytes taken, the files by name. So a
// contract above can say that a call failed only if a fault was counted, and exactly what it read or wrote if the
// object exposes its contents. `put_all` writes a whole piece. The objects in memory serve tests: `MemSource`,
// `MemSink` and `MemShelf` fail at given calls, `CleanSource`, `CleanSink` and `CleanShelf` never fail. `StdSource`,
// `StdSink` and `DirShelf` are real streams and files. The calls follow `read` and `write` of POSIX and of Rust's
// `std::io`.
#![tactic(auto)]

mod copies;
mod file_list;
mod folder;
mod memory_shelf;
mod memory_sink;
mod memory_source;
mod put;
mod shelves;
mod sinks;
mod sources;
mod std_streams;

pub use folder::DirShelf;
pub use memory_shelf::{CleanShelf, MemShelf};
pub use memory_sink::{CleanSink, MemSink};
pub use memory_source::{CleanSource, MemSource};
pub use put::put_all;
pub use shelves::{Shelf, ShelfError};
pub use sinks::{Sink, SinkError};
pub use sources::{Failed, Source};
pub use std_streams::{StdSink, StdSource};
