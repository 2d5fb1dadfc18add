// Capriccio's program: linked stacks and blocking-graph scheduling for a subset of C on RV32IM.
//
// In: the words after the program's name, files in the current folder, and a trace on standard input. Out: text on
// standard output, a refusal's line on standard error, and the status. `capriccio` of the crate `capriccio_call` is the
// whole program over objects that are passed to it; `main` makes the real ones.
#![tactic(auto)]

use cap_io::{DirShelf, StdSink, StdSource};
use capriccio_call::{capriccio, words_of};
use command_outcomes::{Fault, tell};
use std::process::ExitCode;

fn main(rt: HostRuntime) -> ExitCode {
    let mut shelf = DirShelf::new(&rt);
    let mut out = StdSink::new(rt.stdout());
    let mut err = StdSink::new(rt.stderr());
    let Ok(words) = words_of(rt.alloc(), &rt) else {
        return ExitCode::from(tell(&mut err, Fault::Memory.line(), Fault::Memory.status()));
    };
    let mut trace = StdSource::new(rt.stdin());
    let mut last = None;
    let status = capriccio(
        rt.alloc(),
        &words,
        &mut shelf,
        &mut trace,
        &mut out,
        &mut err,
        &mut last,
    );
    drop(last);
    drop(trace);
    drop(words);
    ExitCode::from(status)
}
