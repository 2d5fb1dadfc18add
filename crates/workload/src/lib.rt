// The workload of n: a source and a trace of its requests, written as bytes.
//
// `make_program` writes the source (specs/Programs.antt) line by line, `make_trace` the trace (specs/Traces.antt). The
// command `demo` runs the source on the trace. By two laws it is never refused; a law has no effect at run time, its
// contract is the theorem:
//
// - `source_law`: the source reads as a program, for every n. proofs/ applies the reader's definitions: Spelling, Words
//   and Marks prove when a text that is written token by token has those tokens; Pieces has the tokens of each of its
//   four kinds of line; Lexed, Within, Trees and Scopes read the tokens, count open constructs, give the tree, and
//   resolve each name.
// - `size_law`: no frame of that program is too large, and its code isn't, by the definitions of a build
//   (`frame_refusal` and `IsTooLarge` of `stack_build`). Its functions are of four shapes, each with a frame of at most
//   32 bytes and at most 60 words of code, wherever its calls test the stack (proofs/Shapes); so n + 3 functions have
//   fewer words than the maximum of a build.
#![tactic(auto)]

mod numbers;
mod program;
mod size_law;
mod source_law;
mod trace;

pub use program::make_program;
pub use size_law::workload_is_built;
pub use source_law::program_is_read;
pub use trace::make_trace;
