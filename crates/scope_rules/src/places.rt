// The scope at a statement, and the next numbers.

use crate::faults::Fault;
use crate::names::Names;
use std::alloc::Global;

/// The names in scope at a place, and the counts and faults so far.
#[derive(Drop)]
pub struct Place {
    pub alloc: Global,
    pub names: Names,
    /// The number of names outside this scope.
    pub outer: usize,
    /// The sizes in words of the variables so far.
    pub sizes: Vec<u32>,
    /// The number of the next site, up to 65,537.
    pub site: u32,
    /// The least fault so far.
    pub least: Option<Fault>,
}
