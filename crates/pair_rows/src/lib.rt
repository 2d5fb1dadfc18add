// Rows over what is computed from a program: call graphs and their placement, flat code, templates, certificates, pairs
// of an image and a certificate, and budgets of chunks.
//
// `samples` makes a program with an operation of each kind and its certificate, from specs/Sample.antt, so a
// well-formed program exists. `templates` compares the words of its templates with those that llvm-mc makes,
// `certificates` has texts. `pairs` has five valid pairs: with a plain call, with a linked one, with a number that is
// put, with calls of a table, and with a thread that is started. A row of `rows` changes a line of the certificate or a
// word of the image (`changes`) and has the rule, the function and the index at which the changed pair fails first, or
// says that it is still accepted. `built` tests that `build` makes exactly these pairs, and the limits of frames and of
// code.
//
// `placements` has graphs of a few functions with their back edges, bounds and checkpointed sites, worked out by hand
// from the rule in docs/MACHINE.md, and frames that are too large, `large_graphs` a graph as large as a program's, and
// `graph_lines` the lines that the command `graph` writes for small programs. `budget_sources` has the programs of
// which a budget is checked (`budget_checks`) or computed (`budgets_made`). All are in one crate, so that the libraries
// below are loaded and compiled only once. No crate uses this one.
#![tactic(auto)]

#[cfg(test)]
mod budget_checks;
#[cfg(test)]
mod budget_sources;
#[cfg(test)]
mod budgets_made;
#[cfg(test)]
mod built;
#[cfg(test)]
mod certificates;
#[cfg(test)]
mod changes;
#[cfg(test)]
mod graph_lines;
#[cfg(test)]
mod graph_sites;
#[cfg(test)]
mod large_graphs;
#[cfg(test)]
mod pairs;
#[cfg(test)]
mod placements;
#[cfg(test)]
mod rows;
#[cfg(test)]
mod samples;
#[cfg(test)]
mod templates;
