// A run, read from the entries of its log.
//
// In: the entries of a log, one after another. Out: what happened at each entry (`Happening`): what came or was
// dropped, the wait that a choice ends, the segment that a line ends, with the request that its thread serves. A
// `History` keeps what is known of each thread and of the segment in progress, so its memory grows with the number of
// threads and not with the log. Its clauses are over `with_entry` and `happening` (specs/Known.antt), and for whole
// logs over `happenings` and the lists and counts of specs/Happenings.antt.
//
// The numbers of a run (`Numbers`) are collected from its happenings: which requests came, were dropped and were taken,
// when each was answered, the length and site of each wait, and the maximum number of held chunks. They keep what the
// spreads of latencies and waits need: a few numbers for each request and each wait. Their clauses are over
// `IsNumbersOf` and `IsOneMore` (specs/Numbers.antt). `numbers_of` reads a whole log once for them, and a `Watch` sees
// each entry, such as the last wait at `take` of each thread (`Takes`, over specs/Takes.antt), and the outputs of
// threads that took no request (`Unasked`, over specs/Unasked.antt). The time in the queue of a request follows from
// the numbers (`queued_of`, over specs/Queues.antt). The waits are grouped by site (`WaitLists`, over
// specs/Waits.antt), each site with its longest (specs/Longest.antt). The parts of one request's time (`Parts`) are
// over specs/Parts.antt.
//
// Which outputs are the answers to a request (`Answering`) is over `answers_by` (specs/AnsweredBy.antt): those of the
// thread that took it, those that the user chooses (specs/PairedRuns.antt), or also those of the threads that work for
// it (specs/FollowedRuns.antt). Two laws (specs/Outputs.antt) say what the user's two choices mean by the numbers of
// requests and outputs.
//
// How often and for how long the gate was closed (`Spells`) follows from the happenings of a log and the thresholds of
// the gate. A log has only the use of chunks, so this applies to a run without other resources. `Spells::start` and
// `Spells::with` are over `at_start` and `with_happening` (specs/Spells.antt), whose gate and pressure are those of
// `resource_monitor`.
#![tactic(auto)]

mod answering;
mod answers;
mod choices;
mod followed;
mod happenings;
mod history;
mod laws;
mod numbers;
mod pairs;
mod parts;
mod queues;
mod reading;
mod spells;
mod takes;
mod threads;
mod unasked;
mod waits;

pub use answering::Answering;
pub use answers::{AnswerList, Answers};
pub use followed::{Followed, Spawned};
pub use happenings::{Happening, Segment, Wait};
pub use history::{History, HistoryError};
pub use laws::{outputs_answer_in_order, outputs_answer_in_turn};
pub use numbers::Numbers;
pub use pairs::{Pairing, Pairs};
pub use parts::{Part, Parts};
pub use queues::{Queued, queued_of};
pub use reading::{ReadError, Reading, Watch, numbers_of};
pub use spells::{Marks, Spells};
pub use takes::Takes;
pub use threads::{Standing, Thread};
pub use unasked::Unasked;
pub use waits::{SiteWaits, WaitLength, WaitLists};
