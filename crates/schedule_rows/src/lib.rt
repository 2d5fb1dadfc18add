// Rows over the public calls of the crates that choose the next thread: the blocking graph, the pressure on resources
// with the gate, and the scheduler.
//
// Tests only. The input is a table of records, uses or waiting threads; the expected results were worked out by hand
// from the rules in docs/SCHEDULING.md. No crate uses this one: it is separate from the libraries so that they are
// proved only once, and not again with their tests.
#![tactic(auto)]

#[cfg(test)]
mod choices;
#[cfg(test)]
mod graphs;
#[cfg(test)]
mod monitors;
#[cfg(test)]
mod needs;
#[cfg(test)]
mod steps;
#[cfg(test)]
mod strides;
