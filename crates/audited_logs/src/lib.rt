// What a lawful log says: an audit calls it lawful, and it is what the text of its source means.
//
// Laws only, over the definitions of lawful_log and of lawful_reading. A law has no effect at run
// time: its contract is the theorem.
//
// - `audits`: a log of an accepted pair is lawful for the lawful reading, or needs more steps than the limit. The
//   lawful log is that of the machine; the reading judges the printed lines by the source's own runs, without the
//   machine. specs/Audited.antt defines the input of the reading from that of a run. For each state of the log there is
//   a state of its reading (proofs/Beside.antt): between segments the same state without the machine; within one, the
//   source's run of the thread after the printed outputs. So each entry of the log is allowed as a line of the reading
//   (Comings, Choices, Outs, Resting, Stops), and so is the whole text (Texts, Logs). Ranges and Fitting prove that
//   each line has the format.
// - `meanings`: a text with calls inside expressions has a meaning without rewriting (`deep_mean`). Every well-scoped
//   program as which a text is read has the runs of the text (`programs_mean_their_text`), and the lines of its lawful
//   log are what the text does under the schedule that they print: outputs, keys, ends and the stop
//   (`logs_are_the_texts`; specs/TextLog.antt says it line by line).
//
// The clauses `good` and `audited` of `capriccio_call` cite these.
#![tactic(auto)]

mod audits;
mod meanings;

pub use audits::{
    lawful_logs_are_read_as_lawful, pairs_have_logs_that_are_read, read_choices_are_lawful,
};
pub use meanings::{logs_are_the_texts, programs_mean_their_text, read_logs_are_the_texts};
