// Rows over the public calls of the crates that read a source: tokens, trees, grammar, whole programs, values of
// expressions, and the rewritten trees of sources with calls inside expressions.
//
// It has tests alone. What comes in is a table of sources, numbers and trees made by hand; what each must give was worked
// out by hand from ISO/IEC 9899:2018, 6.4 to 6.9, and the rules and limits of the subset that docs/LANGUAGE.md gives. A
// table is one text, a row a line: what is wanted, a colon, and the source (`lines`); a long source is made of parts
// (`built`). No crate stands on this one: it is apart from the libraries so that they are proved once and not a second
// time with their tests. The small program of `trees` is made by `Program::new`, so a well-scoped program exists
// (specs/Sample.antt).
#![tactic(auto)]

#[cfg(test)]
mod built;
#[cfg(test)]
mod depth;
#[cfg(test)]
mod expressions;
#[cfg(test)]
mod grammar;
#[cfg(test)]
mod limits;
#[cfg(test)]
mod lines;
#[cfg(test)]
mod nested;
#[cfg(test)]
mod programs;
#[cfg(test)]
mod rewriting;
#[cfg(test)]
mod texts;
#[cfg(test)]
mod tokens;
#[cfg(test)]
mod trees;
#[cfg(test)]
mod values;
#[cfg(test)]
mod workloads;
