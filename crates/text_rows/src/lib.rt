// Rows over the public calls of the crates that read and write text and files.
//
// Tests only: numbers, fields and lines (`cap_text`), sources, sinks and shelves (`cap_io`), traces (`event_trace`),
// logs (`schedule_log`), images (`stack_image`) and the lists of words of the command line (`command_words`). The rows
// come from the formats of docs/FORMATS.md and their worked examples, from the table of commands and options, and from
// what a call must not do if a read, a write or an allocation fails. They aren't in the libraries, since a crate with
// tests is proved twice.
#![tactic(auto)]

#[cfg(test)]
mod images;
#[cfg(test)]
mod lists;
#[cfg(test)]
mod logs;
#[cfg(test)]
mod numbers;
#[cfg(test)]
mod streams;
#[cfg(test)]
mod traces;
