// The program as one call, over the objects that are passed to it.
//
// In: the words after the program's name, a shelf of files, a trace, an output and standard error. Out: what the words
// ask for, done; the status; and the world of the run, if there was one. The clauses of `capriccio` are the theorem of
// the program (docs/HEADLINE.md): exactly one outcome is due for the words, the files and the trace (specs/Due.antt),
// and all of it was done, or a part of it after a fault (`answer`, `after_fault`); every run was good (`good`,
// specs/Headline.antt); an audit calls no lawful log unlawful, and a log that it calls lawful is the source's
// (`audited`, specs/Audited.antt); with enough chunks no run stops because no chunk is free (`enough`,
// specs/EnoughChunks.antt). dispatch.rt joins the commands: `serve`, `run` and `demo` of `capriccio_commands`, `audit`
// of `command_audit`, and the others of `pair_commands`. The crate above, `capriccio_cli`, makes the real objects.
#![tactic(auto)]

mod command;
mod command_line;
mod dispatch;

pub use command::capriccio;
pub use command_line::words_of;
