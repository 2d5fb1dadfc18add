ghost use Rattle.std.specs.Prelude.{◌≡◌, ◌≤◌, ◌<◌, ◌^◌, ◌+◌, length, unsigned_abs, IfOk, OnOk, OnErr};
ghost use Rattle.blocking_graph.specs.Edges.{edges_with, count_of, prediction};
ghost use Rattle.blocking_graph.specs.Nodes.{keys_with, node_number};

use crate::adding::add;
use crate::edges::EdgeLine;
use crate::segments::SegmentRecord;
use crate::sums::{NodeSums, sums_with};
use cap_word::SiteKey;
use indexmap::IndexSet;
use std::alloc::{AllocError, Global};
use std::collections::BTreeMap;
use std::marker::Model;

/// The blocking points of a run with the edges between them. Contracts see the keys that have numbers, in
/// order, and for each pair of nodes with records their number and averages. In addition it keeps, for
/// each node, the sums over the edges from it, so a prediction needs one search.
#[derive(Drop)]
pub struct Graph {
    keys: IndexSet<SiteKey>,
    edges: Vec<EdgeLine>,
    sums: BTreeMap<u32, NodeSums>,
}

impl Model for Graph {
    ghost use Rattle.blocking_graph.specs.Graph.{GraphState, IsGraph};
    ghost use Rattle.blocking_graph.specs.Sums.{AreSumsOf};

    ghost Value = { GraphState };

    ghost view = { λ graph. record { keys = graph.keys.keys; edges = graph.edges.items } };

    ghost invariant = { λ graph. IsGraph (record { keys = graph.keys.keys; edges = graph.edges.items }) × AreSumsOf graph.edges.items graph.sums };
}

impl Graph {
    ghost use Rattle.blocking_graph.specs.Graph.{empty_graph, IsSegment, IsRising};

    /// Returns the graph without keys and records. It doesn't allocate.
    pub fn new(alloc: Global) -> Graph
        ensures { result ≡ empty_graph }
    {
        Graph {
            keys: IndexSet::new(alloc),
            edges: Vec::new(alloc),
            sums: BTreeMap::new(alloc),
        }
    }

    /// Returns the number of the node with this key. A new key gets the next number; the first is 2.
    pub fn node_of(&mut self, key: &SiteKey) -> Result<u32, AllocError>
        requires { length self.old.keys < 2 ^ 31 }
        ensures number { IfOk result (λ number. number ≡ node_number self.old.keys key.now) }
        ensures ok { OnOk result (self.new ≡ record self.old { keys = keys_with self.old.keys key.now }) }
        ensures counted { OnOk result (length self.new.keys ≤ length self.old.keys + 1) }
        ensures err { OnErr result (self.new ≡ self.old) }
    {
        let (place, _is_new) = self.keys.insert_full(*key)?;
        Ok(place as u32 + 2)
    }

    /// Adds the record of a segment.
    #[tactic(auto, using(crate::proofs::GraphLemmas::counts))]
    pub fn note(&mut self, segment: SegmentRecord) -> Result<(), AllocError>
        requires range { IsSegment segment }
        requires room { count_of self.old.edges < 2 ^ 40 }
        ensures ok { OnOk result (self.new ≡ record self.old { edges = edges_with self.old.edges segment }) }
        ensures counted { OnOk result (count_of self.new.edges ≡ count_of self.old.edges + 1) }
        ensures err { OnErr result (self.new ≡ self.old) }
    {
        self.edges.reserve(1)?;
        let sums = sums_with(&self.sums, self.edges.as_slice(), &segment);
        self.sums.insert(segment.from, sums)?;
        add(&mut self.edges, &segment)
    }

    /// Returns the expected change of the use of the resource by a segment from the node, scaled by 256:
    /// the average over the edges from the node, weighted by their counts and rounded down, or 0 if there
    /// are none.
    pub fn predicted(&self, node: u32, resource: u32) -> i128
        requires { resource < 8 }
        ensures value { result ≡ prediction self.now.edges node resource }
        ensures small { unsigned_abs result ≤ 2 ^ 39 }
    {
        match self.sums.get(&node) {
            Some(sums) => sums.average(resource as usize),
            None => 0,
        }
    }

    /// Returns the edges, ordered by `from`, then `to`.
    pub fn edges(&self) -> Result<Vec<EdgeLine>, AllocError>
        ensures all { IfOk result (λ edges. edges.items ≡ self.now.edges) }
        ensures order { IfOk result (λ edges. IsRising edges.items) }
    {
        self.edges.clone()
    }
}
