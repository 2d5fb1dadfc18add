// Machine code with linked stacks, and its certificate, from flat code and a placement of checkpoints.
//
// In: a program of flat code and a plan, which has a bound for each function and the checkpointed call sites.
// Out: `generate` returns the image and the certificate that specs/Layout.antt lays out: functions one after
// another behind the end stub, a frame as large as its function's weight, variables from its start upward,
// and a test of the stack at each checkpointed call. The words are those of the templates of
// `stack_certificate`, each written once, in order. Linked chunks and tests at chosen calls are Capriccio's
// (von Behren, Condit, Zhou, Necula, Brewer, "Capriccio: Scalable Threads for Internet Services", SOSP 2003).
#![tactic(auto)]

mod areas;
mod facts;
mod generating;
mod layouts;
mod links;
mod lookups;
mod options;
mod refusals;
mod settings;
mod sites;
mod sizes;
mod words;

pub use generating::generate;
pub use options::Options;
pub use refusals::GenError;
