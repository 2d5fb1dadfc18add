// From a program to flat code, by a table with one row for each form of expression, call and statement.
//
// `lower` takes a `Program` of c_tree and gives the `FlatProgram` that the table gives, operation for
// operation (specs/ProgramCode.antt; the rows are in ExprCode, CallCode and StmtCode), and `lower_function`
// gives one function of it. The variables of a function are its parameters, its declared names in the order
// of the text, and as many temporaries as it uses; an expression's value goes through temporaries as through
// a stack. Jumps name operations. The sizes of the statements that they pass over are taken once, in a walk
// from the end of a function to its start, and a jump in an expression is patched where its target is
// reached. So the work is linear in the tree. A chain of operators is a list, so that nothing here goes
// deeper than the source nests. The method is that of three-address code (Aho, Lam, Sethi, Ullman,
// "Compilers", sections 6.4 and 6.6).
#![tactic(auto)]

mod calls;
mod expressions;
mod functions;
mod jumps;
mod laws;
mod operators;
mod places;
mod programs;
mod simples;
mod sizes;
mod statements;

pub use functions::lower_function;
pub use laws::{
    calls_have_their_rows, expressions_have_their_rows, samples_are_lowered,
    simple_statements_have_their_rows, statements_have_their_rows,
};
pub use programs::lower;
