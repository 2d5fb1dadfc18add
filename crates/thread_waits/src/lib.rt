// Waiting threads by place, with the need of each, and the clock.
//
// In: a thread that begins to wait or runs, and the clock. Out: whether any thread is ready, whether any that isn't at
// `accept` is, the least time at which a sleeping thread wakes, and the need of each thread (`ready_tree`). None of
// these looks at each waiting thread: counts say how many are always ready, at `accept` and at each channel, and trees
// of minima over blocks of places have the wake times and the amounts of each resource that are waited for. Only if
// some thread is ready by a message or a time are the sleeping threads searched one by one. Only `new` and `make_place`
// allocate.
#![tactic(auto)]

mod blocks;
mod kinds;
mod min_tree;
mod needs;
mod parts;
mod telling;
mod waits;

pub use min_tree::MinTree;
pub use waits::{Wait, Waits};
