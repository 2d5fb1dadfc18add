// The command `audit`: judges a log on the trace, without a machine.
//
// In: a shelf of files, a trace, an output, the names of a source and a log, the options of an
// audit. Out: the line with the judgement on the log, and its status (`do_audit`, over `Audits` of
// specs/Audits.antt). audit_command.rt loads the two files and passes them to `schedule_audit`;
// judgements.rt has the lines of the judgements. The crate above has the other commands.
#![tactic(auto)]

mod audit_command;
mod judgements;

pub use audit_command::do_audit;
