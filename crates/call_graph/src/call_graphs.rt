ghost use Rattle.std.specs.Prelude.{◌≡◌};

use crate::callee_lists::{Callees, callees_of};
use crate::sites::GraphSite;
use std::marker::Model;

/// A weighted call graph. Contracts see the weights of the functions, the members of the tables, the call
/// sites and the start function. Its invariant: every function's number is below the number of weights,
/// the sites' numbers increase, and every site has a callee.
#[derive(Drop)]
pub struct CallGraph {
    weights: Vec<u32>,
    tables: Vec<Callees>,
    sites: Vec<GraphSite>,
    main: u32,
}

impl Model for CallGraph {
    ghost use Rattle.call_graph.specs.Graph.{CallGraphState, IsCallGraph};

    ghost Value = { CallGraphState };

    ghost view = { λ g. record { weights = g.weights.items; tables = g.tables.items; sites = g.sites.items; main = g.main } };

    ghost invariant = { λ g. IsCallGraph (record { weights = g.weights.items; tables = g.tables.items; sites = g.sites.items; main = g.main }) };
}

impl CallGraph {
    ghost use Rattle.call_graph.specs.Callees.{callees};
    ghost use Rattle.call_graph.specs.Graph.{IsCallGraph};

    /// Returns the graph with these weights in bytes, by function, these tables, these sites and this
    /// start function. It doesn't allocate.
    pub fn new(
        weights: Vec<u32>,
        tables: Vec<Callees>,
        sites: Vec<GraphSite>,
        main: u32,
    ) -> CallGraph
        requires { IsCallGraph (record { weights = weights.items; tables = tables.items; sites = sites.items; main = main }) }
        ensures { result ≡ record { weights = weights.items; tables = tables.items; sites = sites.items; main = main } }
    {
        CallGraph {
            weights,
            tables,
            sites,
            main,
        }
    }

    /// Returns the weights of the functions in bytes, by number.
    pub fn weights(&self) -> &[u32]
        ensures value { result.now ≡ self.now.weights }
        ensures kept { IsCallGraph self.now }
    {
        self.weights.as_slice()
    }

    /// Returns the members of the tables, by number.
    pub fn tables(&self) -> &[Callees]
        ensures { result.now ≡ self.now.tables }
    {
        self.tables.as_slice()
    }

    /// Returns the call sites, in order of their numbers.
    pub fn sites(&self) -> &[GraphSite]
        ensures { result.now ≡ self.now.sites }
    {
        self.sites.as_slice()
    }

    /// Returns the functions that the call at a site may enter, in order. A site of the graph has at least one.
    pub fn callees<'a>(&'a self, site: &'a GraphSite) -> &'a [u32]
        ensures { result.now ≡ callees self.now.tables site.now.target }
    {
        callees_of(self.tables.as_slice(), site)
    }

    /// Returns the weights, the members of the tables, and the call sites, in the lists that hold them. It doesn't
    /// allocate.
    pub fn into_lists(self) -> (Vec<u32>, Vec<Callees>, Vec<GraphSite>)
        ensures weights { result.0.items ≡ self.weights }
        ensures tables { result.1.items ≡ self.tables }
        ensures sites { result.2.items ≡ self.sites }
    {
        (self.weights, self.tables, self.sites)
    }

    /// Returns the number of the start function.
    pub fn main(&self) -> u32
        ensures { result ≡ self.now.main }
    {
        self.main
    }
}
