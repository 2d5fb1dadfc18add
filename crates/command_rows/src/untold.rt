// A run on a trace that doesn't expose its bytes, like the real standard input.
use crate::calls::{NONE, files_of, status_of, words_of};
use crate::serving::{LOG_OF_SERVER, SERVER, SERVER_TRACE};
use cap_io::{CleanShelf, CleanSink, StdSource};
use std::alloc::{AllocError, Global};
use thread_core::World;

/// Checks whether the world is that at the end of the server's log: two workers live, on a chunk each, after 201
/// instructions.
fn is_at_end(last: &Option<World>) -> bool {
    match last {
        None => false,
        Some(world) => world.live() == 2 && world.free() == 1022 && world.cost() == 201,
    }
}

/// Checks whether a call on the server's trace has the same result as on one that exposes its bytes.
fn leaves(alloc: Global, words: &Vec<String>, shelf: &mut CleanShelf) -> bool {
    let mut trace = StdSource::new(SERVER_TRACE);
    let mut out = CleanSink::new(alloc);
    let mut err = CleanSink::new(alloc);
    let mut last = None;
    let status = status_of(
        alloc, words, shelf, &mut trace, &mut out, &mut err, &mut last,
    );
    let is_world = is_at_end(&last);
    let is_so = status == 10 && out.bytes() == LOG_OF_SERVER && err.bytes() == NONE && is_world;
    drop(last);
    drop(err);
    drop(out);
    drop(trace);
    is_so
}

/// Does the same with the words of a `serve` of that server.
fn serves(alloc: Global, shelf: &mut CleanShelf) -> Result<bool, AllocError> {
    let words = words_of(alloc, "serve P --caps 1=1")?;
    let is_so = leaves(alloc, &words, shelf);
    drop(words);
    Ok(is_so)
}

/// Does the same for a shelf that has only the source.
fn is_served(alloc: Global) -> Result<bool, AllocError> {
    let mut shelf = CleanShelf::new(alloc, files_of(alloc, &[("P", SERVER)])?);
    let is_so = serves(alloc, &mut shelf);
    drop(shelf);
    is_so
}

#[test]
fn a_trace_that_is_not_told(rt: HostRuntime) {
    assert!(rt; matches!(is_served(rt.alloc()), Ok(true)));
}
