// The meaning of a source with calls inside expressions, without rewriting.
//
// Definitions that the clauses of other crates cite, and small programs on which they are computed;
// nothing runs. A deep thread is a thread of the source (`c_mean`) whose frames may have a partly
// evaluated expression: the values of the parts that have been evaluated, from left to right, and
// the parts still to be evaluated (specs/Evaluation.antt, DeepSteps.antt). A deep world and its
// runs are those of the source over such threads (specs/DeepWorld.antt); the table of modelled
// calls is the same. specs/Naming.antt defines the program of a text, with calls where the text has
// them. The rules are those of ISO/IEC 9899:2018, clauses 6.5 and 6.8, for the subset CapC.
#![tactic(auto)]

mod examples;
mod statement_examples;

pub use examples::{
    arguments_come_in_order, calls_are_tested_in_loops, calls_take_what_is_needed,
    index_comes_before_call, index_is_tested_last, keys_follow_calls, left_is_read_first,
    names_have_numbers, threads_start_with_results,
};
pub use statement_examples::{
    accepts_come_in_order, indexes_are_tested, loops_go_on, members_are_called, names_follow_scope,
};
