// The blocking graph: where threads block, and the cost of a segment from one blocking point to the next.
//
// A node is a blocking point; its key is the list of call sites that led there. Keys are numbered in the order in which
// they first occur (`Graph::node_of`). Each segment that a thread runs from one blocking point to the next gives a
// record (`Graph::note`). For each pair of nodes the graph keeps the number of records, and averages of their cost and
// of the change of each resource; for each node it keeps the sums over the edges from it. The records themselves aren't
// kept. An edge is found by binary search, and a node's sums in a tree. The scheduler asks for the expected change by a
// segment from a node (`Graph::predicted`), and the log lists the edges (`Graph::edges`). The crates above cite
// `specs/Edges.antt` and `specs/Nodes.antt`; the law `edges_tell_of_records` says that an edge has the count and
// averages of its pair's records. The idea of a graph of blocking points with averages is Capriccio's (von Behren et
// al., SOSP 2003); the rule of the averages is our own.
#![tactic(auto)]

mod adding;
mod averages;
mod edges;
mod graph;
mod laws;
mod segments;
mod sums;

pub use edges::EdgeLine;
pub use graph::Graph;
pub use laws::edges_tell_of_records;
pub use segments::{SegmentRecord, changes};
