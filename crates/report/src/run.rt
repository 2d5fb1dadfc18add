// The run that is reported.

use cap_io::{Shelf, Sink, Source};
use capriccio_call::capriccio;
use std::alloc::Global;
use thread_core::World;

/// Makes the run that the words ask for, and returns its status: it calls `capriccio`, with all that is proved of it.
/// `last` is then the world at the stop, if there is one. It has no clauses, so that proof search in its callers
/// doesn't try those of `capriccio`.
pub(crate) fn make_run<F: Shelf, S: Source, K: Sink, E: Sink>(
    alloc: Global,
    words: &Vec<String>,
    shelf: &mut F,
    trace: &mut S,
    log: &mut K,
    err: &mut E,
    last: &mut Option<World>,
) -> u8 {
    capriccio(alloc, words, shelf, trace, log, err, last)
}
