// The meaning of CapC programs, over the plain trees of c_tree.
//
// The definitions are in specs/: the value of an expression (Values), what a frame has still to do and one step of a
// source thread (ToDo, Frames, Steps), the table of the modelled calls, for source, flat code and machine alike
// (ModelledCalls), the world of threads and its runs (World), and where a function's calls stand in its text (Sites). A
// thread is a machine of cap_word/specs/Runs.antt. The crates above cite these definitions and the laws. `value_of`
// computes the value of an expression; `source_items` evaluates the expressions of a running thread, with the same
// operators (`unary`, `decided`, `joined`). The other public functions are laws and examples, whose contracts are proved.
// The rules are those of ISO/IEC 9899:2018, clauses 6.5 and 6.8, for the subset CapC, with wrapping arithmetic; the
// threads are Capriccio's (SOSP 2003) in idea.
#![tactic(auto)]

mod examples;
mod laws;
mod layout;
mod operators;
mod values;

pub use examples::{
    blocked_threads_are_ready, call_pushes_frame, calls_out_of_range_trap, deep_thread_blocks,
    divisions_have_values, loops_turn, operands_are_evaluated_as_needed, operators_have_edges,
    range_is_tested_last, recursion_returns, server_serves, silent_threads_wake,
    stores_beyond_trap, tables_are_called, turns_without_condition_are_left,
};
pub use laws::{
    deliveries_change_one_queue, frames_wait_in_text, jumps_pass_statements,
    modelled_calls_are_known, runs_have_one_end, runs_leave_others_alone,
    scoped_expressions_are_in_range, segments_run_threads,
};
pub use operators::unary;
pub use values::{decided, joined, value_of};
