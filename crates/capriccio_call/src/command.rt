// The program as a whole, over the objects that are passed to it.
ghost use Rattle.std.specs.Prelude.{◌≡◌, map};
ghost use Rattle.std.specs.String.{string_bytes};
ghost use Rattle.command_outcomes.specs.Done.{outside_by};
ghost use Rattle.capriccio_call.specs.AfterFault.{HoldsAfterFault};
ghost use Rattle.capriccio_call.specs.Audited.{IsAudited};
ghost use Rattle.capriccio_call.specs.EnoughChunks.{HasEnoughChunks};
ghost use Rattle.capriccio_call.specs.Headline.{IsAnswer, WasGood};

use crate::dispatch::do_words;
use cap_io::{Shelf, Sink, Source};
use capriccio_commands::Ended;
use command_outcomes::finish;
use std::alloc::Global;
use thread_core::World;

/// Does what the words ask for, and returns the status. If the command refuses or something fails, `err` takes the line
/// that says so. `last` is the world of the run at its stop, or `None` if no run reached its stop.
///
/// | Status | When |
/// |---|---|
/// | 0 | the command succeeded |
/// | 1 | the words aren't a word list |
/// | 2 | the source is refused |
/// | 3 | the pair is refused |
/// | 4 | the image, the certificate, the log or the trace is refused |
/// | 5 | a frame, the code or the pool is too large |
/// | 6, 7, 8 | a read failed, a write failed, memory ran out |
/// | 9 | a file doesn't exist |
/// | 10 to 14 | a run idles, traps, finds no free chunk that fits, has spent its fuel, has too many threads |
/// | 15, 16 | an audit finds that the log isn't lawful, that a line needs too many steps |
/// | 17 | the program of a budget has a cycle of calls |
pub fn capriccio<F: Shelf, S: Source, K: Sink, E: Sink>(
    alloc: Global,
    words: &Vec<String>,
    shelf: &mut F,
    trace: &mut S,
    out: &mut K,
    err: &mut E,
    last: &mut Option<World>,
) -> u8
    ensures answer { let outside = outside_by F.files F.load_faults F.store_faults S.left S.faults
        K.taken K.faults in
        IsAnswer (map (λ word. string_bytes word) words.now.items)
        (outside shelf.old trace.old out.old) (outside shelf.new trace.new out.new)
        (E.taken err.old) (E.taken err.new) (E.faults err.old) (E.faults err.new) last.new result }
    ensures good { let outside = outside_by F.files F.load_faults F.store_faults S.left S.faults
        K.taken K.faults in
        WasGood (map (λ word. string_bytes word) words.now.items)
        (outside shelf.old trace.old out.old) (outside shelf.new trace.new out.new) last.new
        result }
    ensures after_fault { let outside = outside_by F.files F.load_faults F.store_faults S.left
        S.faults K.taken K.faults in
        HoldsAfterFault (map (λ word. string_bytes word) words.now.items)
        (outside shelf.old trace.old out.old) (outside shelf.new trace.new out.new)
        (E.taken err.old) (E.taken err.new) (E.faults err.old) (E.faults err.new) result }
    ensures audited { let outside = outside_by F.files F.load_faults F.store_faults S.left S.faults
        K.taken K.faults in
        IsAudited (map (λ word. string_bytes word) words.now.items)
        (outside shelf.old trace.old out.old) (outside shelf.new trace.new out.new) result }
    ensures enough { let outside = outside_by F.files F.load_faults F.store_faults S.left S.faults
        K.taken K.faults in
        HasEnoughChunks (map (λ word. string_bytes word) words.now.items)
        (outside shelf.old trace.old out.old) last.new result }
{
    match do_words(alloc, words, shelf, trace, out) {
        Ok(
            Ended {
                status,
                last: world,
            },
        ) => {
            put(last, world);
            status
        }
        Err(stop) => {
            put(last, None);
            finish(alloc, err, stop)
        }
    }
}

/// Replaces the value of a place, and drops the old one.
fn put<T: Drop>(place: &mut T, value: T)
    ensures { place.new ≡ value }
{
    *place = value;
}
