// Keys and their numbers, records and their edges.

ghost use Rattle.std.specs.Prelude.{◌≡◌, ◌≤◌, ◌<◌, ◌+◌, ◌^◌, length, OnOk};
ghost use Rattle.blocking_graph.specs.Edges.{count_of};
ghost use Rattle.blocking_graph.specs.Graph.{empty_graph};

use blocking_graph::{EdgeLine, Graph, SegmentRecord};
use cap_word::SiteKey;
use std::alloc::Global;

/// A segment: the nodes from and to which it leads, its cost, and its change of the use of resource 1.
type Segment = (u32, u32, u32, i32);

// Records a segment. Returns `false` if memory runs out.
fn note(graph: &mut Graph, segment: &Segment) -> bool
    requires room { count_of graph.old.edges < 2 ^ 40 }
    ensures { count_of graph.new.edges ≤ count_of graph.old.edges + 1 }
{
    let (from, to, cost, change) = *segment;
    let record = SegmentRecord {
        from,
        to,
        cost: u64::from(cost),
        change: [0, i64::from(change), 0, 0, 0, 0, 0, 0],
    };
    matches!(graph.note(record), Ok(()))
}

// Records at most eight segments, one after another. Returns `false` if memory runs out.
fn note_all(graph: &mut Graph, segments: &[Segment]) -> bool
    requires { graph.old ≡ empty_graph }
{
    if segments.len() > 8 {
        return false;
    }
    for at in 0..segments.len() {
        if !note(graph, &segments[at]) {
            return false;
        }
    }
    true
}

// Checks whether a key has these sites, at most eight.
fn keys_are_their_sites() -> bool {
    let full = SiteKey::new(&[1, 2, 3, 4, 5, 6, 7, 8]);
    let key = SiteKey::new(&[7, 0]);
    full.length() == 8
        && full.site(0) == 1
        && full.site(7) == 8
        && key.sites() == [7, 0].as_slice()
        && key != SiteKey::new(&[7, 0, 0])
}

// Returns the number of a key, or 0 if memory runs out.
fn number_in(graph: &mut Graph, key: &[u32]) -> u32
    requires room { length graph.old.keys < 2 ^ 31 }
    requires some { 1 ≤ length key.now }
    requires fits { length key.now ≤ 8 }
    ensures { length graph.new.keys ≤ length graph.old.keys + 1 }
{
    match graph.node_of(&SiteKey::new(key)) {
        Ok(number) => number,
        Err(_) => 0,
    }
}

// Keys and their numbers; the third key is the first again.
const KEYS: &[(&[u32], u32)] = &[(&[7, 3], 2), (&[7], 3), (&[7, 3], 2), (&[3, 7], 4)];

fn are_numbered(graph: &mut Graph, rows: &[(&[u32], u32)]) -> bool
    requires { graph.old ≡ empty_graph }
{
    if rows.len() > 8 {
        return false;
    }
    for at in 0..rows.len() {
        let (key, number) = rows[at];
        if key.is_empty() || key.len() > 8 || number_in(graph, key) != number {
            return false;
        }
    }
    true
}

fn keys_have_numbers(alloc: Global) -> bool {
    let mut graph = Graph::new(alloc);
    let right = are_numbered(&mut graph, KEYS);
    drop(graph);
    right
}

// Checks whether the edges are these.
fn has_edges(graph: &Graph, wanted: &[EdgeLine]) -> bool {
    match graph.edges() {
        Ok(edges) => {
            let same = edges.as_slice() == wanted;
            drop(edges);
            same
        }
        Err(_) => false,
    }
}

/// A node, a resource, and the expected change of its use by a segment from the node.
type Prediction = (u32, u32, i128);

fn predicts(graph: &Graph, rows: &[Prediction]) -> bool {
    for (node, resource, change) in rows {
        if *resource >= 8 || graph.predicted(*node, *resource) != *change {
            return false;
        }
    }
    true
}

// An edge has its count and averages.
const OF_ONE: &[Segment] = &[(0, 2, 8, -1), (0, 2, 16, 0)];

const ONE_EDGE: &[EdgeLine] = &[EdgeLine {
    from: 0,
    to: 2,
    count: 2,
    cost: 2304,
    change: [0, -224, 0, 0, 0, 0, 0, 0],
}];

const FROM_ONE: &[Prediction] = &[(0, 1, -224), (2, 1, 0)];

// Predictions are weighted by counts.
const OF_TWO: &[Segment] = &[(4, 4, 5, 0), (4, 2, 5, -1), (4, 2, 5, -1), (4, 2, 5, -1)];

const FROM_TWO: &[Prediction] = &[(4, 1, -192), (4, 0, 0)];

// Pairs that occur out of order, and occur again, are in order with their averages, and each node's prediction is from
// its own edges.
const OF_THREE: &[Segment] = &[
    (4, 2, 8, -1),
    (2, 4, 4, 2),
    (4, 2, 16, 0),
    (2, 2, 1, 1),
    (2, 4, 4, -2),
];

const THREE_EDGES: &[EdgeLine] = &[
    EdgeLine {
        from: 2,
        to: 2,
        count: 1,
        cost: 256,
        change: [0, 256, 0, 0, 0, 0, 0, 0],
    },
    EdgeLine {
        from: 2,
        to: 4,
        count: 2,
        cost: 1024,
        change: [0, 384, 0, 0, 0, 0, 0, 0],
    },
    EdgeLine {
        from: 4,
        to: 2,
        count: 2,
        cost: 2304,
        change: [0, -224, 0, 0, 0, 0, 0, 0],
    },
];

const FROM_THREE: &[Prediction] = &[(2, 1, 341), (4, 1, -224), (3, 1, 0)];

// Checks whether segments lead to these predictions and, if any are given, to these edges.
fn lead_to(
    alloc: Global,
    segments: &[Segment],
    edges: &[EdgeLine],
    predictions: &[Prediction],
) -> bool {
    let mut graph = Graph::new(alloc);
    let right = note_all(&mut graph, segments)
        && (edges.is_empty() || has_edges(&graph, edges))
        && predicts(&graph, predictions);
    drop(graph);
    right
}

#[test]
fn graphs(rt: HostRuntime) {
    let alloc = rt.alloc();
    assert!(rt;
        keys_are_their_sites()
            && keys_have_numbers(alloc)
            && lead_to(alloc, OF_ONE, ONE_EDGE, FROM_ONE)
            && lead_to(alloc, OF_TWO, &[], FROM_TWO)
            && lead_to(alloc, OF_THREE, THREE_EDGES, FROM_THREE)
    );
}
