// A program has one call graph and one placement, and its image and certificate fit their files.
//
// Only laws, over the definitions of `call_graph`, `cycle_break`, `checkpoint_place`, `stack_plan`
// and `codegen_link`, and over the flat code of a program (`c_lower`): functions without an effect
// at run time, whose contracts are theorems. proofs/OnePlan and RisingLists: a program has at most
// one graph and one placement. proofs/LoweredGraph: the graph of a source's program is a call
// graph. proofs/Limits: its image and certificate are within the limits of their files. The crates
// that build pairs, and the laws on every pair that is built, use these lemmas.
#![tactic(auto)]

mod laws;

pub use laws::{one_plan_law, pairs_fit_law};
