/// The output of `report --help`: the usage of the program, with its additional options.
pub const HELP: &str =
    "usage: report [OPTION ..] serve SRC .. | run SRC IMG CRT ..     the trace on standard input
       report [OPTION ..] --log LOG serve SRC ..                a stored log, and its trace on standard input
       report graph SRC .. | budget SRC IMG CRT                 what these print, beside the text

A report on the run in place of its log. The words behind the options are those of capriccio.

  --timeline FILE   stores a timeline as SVG
  --graph FILE      stores the blocking graph as SVG, or as DOT where FILE ends in .dot
  --why             tells what decided the choices, and who holds what at the end
  --answers HOW     first: the N-th output answers the N-th request; value: an output answers the first request of its value
  --from CLOCK      tells the requests, waits and choices from there on, and begins the timeline there
  --to CLOCK        ends both there
  --request N       tells the parts of the time of the N-th request that came
  --log LOG         makes no run and reads that log
  --help            says this

docs/REPORT.md says what a report tells.
";
