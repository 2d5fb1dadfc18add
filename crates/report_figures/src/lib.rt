// What a report computes from plain numbers and bytes.
//
// In: numbers in any order; a text and a byte offset in it; a clock, and the clock at which a run ended. Out: lists of
// the numbers (`TickList`), their ranks (`spread_of`) and their sum (`total_of`); the line and column of the offset
// (`position_of`); the column of the clock in a timeline, of 1,200 (`column_of`), and a window of clocks with its
// columns (`Window`). The crates above use their clauses, over specs/Ticks.antt, Ranks.antt, Positions.antt,
// Columns.antt and Windows.antt. They are separate from the crates that print them, so that must-fail edits here don't
// repeat the proofs of texts and pictures.
//
// Each number that is pushed to a `TickList` takes 4 bytes up to the first one of at least 2^32, and 8 bytes from there
// on: the clocks of most runs stay below 2^32. If `set` puts such a number before it, all take 8. `sort` sorts them in
// place. `run_history` keeps the numbers of a run in such lists.
//
// A percentile is by nearest rank: the p-th is the least number such that at least p percent of the numbers are at or
// before it, so it is always one of the numbers. Lines and columns count from 1, as in editors and compilers: a line
// ends with its line feed, and a column is a byte.
#![tactic(auto)]

mod columns;
mod positions;
mod spread;
mod ticks;
mod totals;
mod windows;

pub use columns::{COLUMNS, column_of};
pub use positions::{Position, position_of};
pub use spread::{Spread, spread_of};
pub use ticks::TickList;
pub use totals::total_of;
pub use windows::Window;
