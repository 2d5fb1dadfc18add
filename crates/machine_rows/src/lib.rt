// Rows over the public calls of the operators on words, of the instructions, of the machine's step, of the pool and of
// segments.
//
// `Ram` and `WordRam` are memories for the rows, stored as bytes and as words: the second reads and writes whole words,
// has numbers that aren't memory, and shows what a memory above the machine has to prove. `accepted_of` builds a
// source, `begin` starts its `main` over a pool of chunks, and `run_on` runs it until it ends, blocks or can't
// continue; a benchmark uses them too. The rest is tests: `words` has the public suite's rows of each operator,
// `instructions` the manual's vectors, `steps` each fault, extension, store and link, of both forms of the step,
// `pools` links and addresses worked out by hand, `recursions`, `operations` and `stops` programs run as segments, each
// with counts worked out by hand from the templates, and `vectors` the same for programs whose code has the manual's
// vectors.
#![tactic(auto)]

mod ram;
mod runs;
mod word_ram;

pub use ram::Ram;
pub use runs::{Begun, Outcome, accepted_of, begin, run_on};
pub use word_ram::WordRam;

#[cfg(test)]
mod cases;
#[cfg(test)]
mod instructions;
#[cfg(test)]
mod operations;
#[cfg(test)]
mod pools;
#[cfg(test)]
mod recursions;
#[cfg(test)]
mod steps;
#[cfg(test)]
mod stops;
#[cfg(test)]
mod vectors;
#[cfg(test)]
mod words;
