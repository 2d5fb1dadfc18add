// Stride scheduling: which thread runs next, by passes and strides.
//
// A thread has tickets; its stride is 1,048,576 divided by its tickets, and its pass grows by its stride each time that
// it is chosen. Of the eligible threads, the one with the least pass is chosen; of several, the one with the least
// number. `StrideRule` has the threads from their start (`start`) to their end (`leave`); `choose` returns the choice,
// `note_choice` begins its segment, and `rejoin` ends it. `take_choice` chooses and notes for a world that guarantees
// the needs passed to `rejoin_for`; after some choice has found a waiting thread that wasn't eligible, it asks no
// thread. `specs/Choices.antt` defines a choice independently of the search for it, and `specs/State.antt` the effect
// of each call; `spread` says that the passes differ by at most the greatest stride as long as every waiting thread was
// eligible. choice_rules defines the passes over the choices of a whole run. The rule is that of Waldspurger and Weihl
// ("Stride Scheduling", 1995); a thread starts at the pass of the thread chosen last, in place of their global pass.
#![tactic(auto)]

mod choices;
mod clients;
mod levels;
mod places;
mod rows;
mod rule;
mod searching;
mod spreads;
mod summaries;
mod threads;
mod tickets;

pub use choices::StrideChoice;
pub use clients::Client;
pub use rule::StrideRule;
