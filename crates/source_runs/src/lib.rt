// Runs of source threads, with a count of steps: an interpreter of CapC.
//
// In: a program, a thread of it with the globals, and a maximum number of steps. Out: the thread's next modelled call,
// its end or its trap, with the globals at that moment, or the thread after that number of steps. A step is the source
// step of `c_mean` (specs/Steps.antt there), so a count of steps here is one there; no machine and no flat code is
// involved. What a frame has still to do is a stack of items, the next one on top, which is the list of `c_mean`'s
// ToDo; the places of names in a frame's words are computed once for each function (`layout.rt`). Short expressions
// need no call (`expressions.rt`), and a frame reuses the memory of one that has ended (`spare.rt`). The crate above,
// which audits logs, cites the clauses of `Interpreter`. The rules are those of ISO/IEC 9899:2018, 6.5 and 6.8, for the
// subset CapC.
#![tactic(auto)]

mod calls;
mod expressions;
mod frames;
mod halts;
mod interpreter;
mod layout;
mod names;
mod spare;
mod steps;
mod storing;

pub use frames::{Frame, Next, Place, Thread, WaitingFrame};
pub use interpreter::{Coming, Interpreter};
