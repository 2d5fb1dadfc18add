// A queue of threads that finds the first thread whose need is met, without testing those before it.
//
// A need is the condition under which a thread is ready: nothing, an arrival, a message on one of some channels or a
// time, or an unused amount of a resource. In: threads with their needs, in order of joining, and the bounds, which say
// what is available now. Out: the first thread whose need is met (`ReadyTree::first`). Needs are stored in blocks; a
// tree above the blocks records the needs below each node, so a search follows one path from the root and then one
// block. `NeedTree` has the same tree above several queues by number, and finds the next queue in which a need is met
// (`NeedTree::next`). A world that knows the needs of its threads is `Bounded`: a need that it guarantees is met
// exactly if the thread is ready. The scheduler chooses by it.
#![tactic(auto)]

mod amounts;
mod bounded;
mod bounds;
mod entries;
mod need_tree;
mod needs;
mod nodes;
mod places;
mod ready_tree;
mod subtrees;

pub use bounded::Bounded;
pub use bounds::Bounds;
pub use entries::Entry;
pub use need_tree::NeedTree;
pub use needs::{Need, Needs};
pub use ready_tree::ReadyTree;
