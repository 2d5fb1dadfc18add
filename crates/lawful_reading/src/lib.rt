// The lawful reading of a log: which lines the log of a program may have, under a policy and a
// trace, by the source alone; and that every log has exactly one judgement.
//
// Definitions: the state of a reading (State), which line is allowed in it and the state after that line (Choice for
// events and the chosen thread, Segments for a segment's lines, Ends for the edges and the stop), and the judgement on
// a whole log (Reading): lawful, the first line that isn't allowed, or the first line that needs more steps of the
// source than the limit. What the running thread does next is the source's own run (Happenings), step by step, without
// a bound on depth and without a machine; of costs and free chunks only bounds are required. The audit cites these
// definitions; the rules of choice points are those of `choice_rules`, as for the log of a run. A law has no effect at
// run time: its contract is the theorem.
//
// `Judgement` is the type of judgements, and specs/Judgements.antt says which of them a log has. No log
// has two (`exclusion`). The law `existence` finds one, since every condition of a line is
// decidable: of the finitely many entries that fit, whether the text of one comes next
// (proofs/Searching.antt); of a trace, its next line (TraceLines of choice_rules); at a choice
// point, the events and the lawful choice (Points); of the source's run, each further step up to the
// limit (SegmentLines, DecidedHappenings). So each line is passed, needs too many steps, or is
// refused (Lines, Beyond), and a log is read to its end (Found, OneJudgement).
#![tactic(auto)]

mod exclusion;
mod existence;
mod judgement;

pub use exclusion::{empty_logs_are_refused, verdicts_exclude_each_other};
pub use existence::audit_has_an_outcome;
pub use judgement::Judgement;
