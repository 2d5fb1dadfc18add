// The rules V1 to V12: when an image and a certificate are valid for a program in flat code.
//
// A certificate claims where the functions of a program are in the code, how they use their stack, and which calls
// link a new chunk. specs/Rules.antt has a definition for each rule, in the order in which they are tested: its
// condition at a function and an index. specs/Validity.antt combines them: a pair is valid if every rule holds
// everywhere; otherwise the first failure is the least rule, in it the least function, and in it the least index.
// The checker decides exactly these definitions, the generator's pair meets them, and the proof that the machine
// simulates the program relies on them. Each rule concerns single words and single inequalities, never a run. A law
// has no effect at run time: its contract is a theorem.
#![tactic(auto)]

mod laws;

pub use laws::{failures_are_one, valid_pairs_have_room};
