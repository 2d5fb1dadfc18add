// Flat code: the form of a program between its tree and machine words.
//
// A function is a list of operations on numbered variables (`Op`), in which jumps name operations by
// number. `FlatProgram` is the result of lowering a source; call graph, templates, code generator and
// checker take it. Its invariant (specs/WellFormed.antt) says that every number in it is in range, that
// arguments agree with parameters, and that its sizes are within their limits, so the crates above index
// without a test. Contracts see it as plain data (`program_code`). specs/Step.antt defines what flat code
// does: frames of variables and the number of the next operation, as a machine of cap_word's
// specs/Runs.antt. Variables take the place of a stack machine's temporaries, as in three-address code
// (Aho, Lam, Sethi, Ullman, "Compilers", section 6.2). A law or an example has no effect at run time: its
// contract is a theorem.
#![tactic(auto)]

mod functions;
mod laws;
mod operations;
mod operators;
mod programs;
mod weights;

pub use functions::FlatFunction;
pub use laws::{samples_run, variables_are_apart};
pub use operations::{Op, Ops};
pub use operators::BinOp;
pub use programs::{FlatGlobal, FlatProgram};
pub use weights::weight;
