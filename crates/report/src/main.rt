// A program that makes a run of Capriccio and shows what happened in it.
//
// In: its options and the words of the run, the source in a file, and the trace on standard input. Out: a report on
// standard output, pictures in files, and the status of the run. The run is that of `capriccio`, which `make_run` calls
// with a log in memory; with `--log` a stored log is read instead. docs/REPORT.md describes the report. `show` of
// outcome.rt is the whole program over objects that are passed to it; `main` makes the real ones.
//
// The happenings of a log's entries and the numbers of a whole log are those of `run_history`; `report_lines` writes
// the lines about them, `run_pictures` the pictures, and `source_places` has the places of a source's calls. The
// repeated run is in `again`, the report on the world at the stop in `report`, the output of `graph` and `budget` in
// `analysis`. All output is written into a `Text` of `report_text`: a complete text has each piece that was put into
// it, and each number in decimal digits.
#![tactic(auto)]

mod again;
mod analysis;
mod failures;
mod help;
mod inputs;
mod outcome;
mod pictures;
mod push;
mod report;
mod run;
mod subject;
mod trace;
mod wanted;

use crate::failures::{Failure, tell};
use crate::outcome::show;
use cap_io::{DirShelf, StdSink, StdSource};
use capriccio_call::words_of;
use std::process::ExitCode;

fn main(rt: HostRuntime) -> ExitCode {
    let mut shelf = DirShelf::new(&rt);
    let mut out = StdSink::new(rt.stdout());
    let mut err = StdSink::new(rt.stderr());
    let Ok(words) = words_of(rt.alloc(), &rt) else {
        return ExitCode::from(tell(&mut err, Failure::Memory));
    };
    let mut trace = StdSource::new(rt.stdin());
    let shown = show(
        rt.alloc(),
        words,
        &mut shelf,
        &mut trace,
        &mut out,
        &mut err,
    );
    drop(trace);
    match shown {
        Ok(status) => ExitCode::from(status),
        Err(failure) => ExitCode::from(tell(&mut err, failure)),
    }
}
