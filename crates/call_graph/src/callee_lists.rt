ghost use Rattle.std.specs.Prelude.{◌≡◌};
ghost use Rattle.call_graph.specs.Callees.{callees};

use crate::sites::{GraphSite, Target};
use std::marker::Model;
use std::slice;

/// The functions that a call may enter, in order: the members of a table. Contracts see the list of
/// them.
#[derive(Drop)]
pub struct Callees {
    functions: Vec<u32>,
}

impl Model for Callees {
    ghost use Rattle.std.specs.Prelude.{ℕ, List};

    ghost Value = { List ℕ };

    ghost view = { λ callees. callees.functions.items };
}

impl Callees {
    /// Returns the list of these functions. It doesn't allocate.
    pub fn new(functions: Vec<u32>) -> Callees
        ensures { result ≡ functions.items }
    {
        Callees { functions }
    }

    /// Returns the functions, in the `Vec` that holds them. It doesn't allocate.
    pub fn into_vec(self) -> Vec<u32>
        ensures { result.items ≡ self }
    {
        self.functions
    }

    /// Returns the functions, in order.
    pub fn as_slice(&self) -> &[u32]
        ensures { result.now ≡ self.now }
    {
        self.functions.as_slice()
    }
}

/// Returns the functions that the call at a site may enter: the function that it calls, or the members of its table, in
/// order. A table without a number in `tables` has none.
pub fn callees_of<'a>(tables: &'a [Callees], site: &'a GraphSite) -> &'a [u32]
    ensures { result.now ≡ callees tables.now site.now.target }
{
    match &site.target {
        Target::Function(function) => slice::from_ref(function),
        Target::Table(table) => match tables.get(*table as usize) {
            Some(members) => members.as_slice(),
            None => &[],
        },
    }
}
