use report_text::Text;
use schedule_log::Averages;

/// An edge of the blocking graph, as in the log.
#[derive(Clone, Copy)]
pub struct GraphEdge {
    /// The node from which it leads.
    pub from: u32,
    /// The node to which it leads.
    pub to: u32,
    /// The number of segments from the one node to the other.
    pub count: u64,
    /// The average of their costs, in 256ths.
    pub cost: i128,
    /// The averages of the changes in the use of each resource, in 256ths, the chunks first.
    pub changes: Averages,
}

/// Appends the blocking graph as DOT: a box for each node with its name, an arrow for each edge with its label. `names`
/// has the names of the nodes by number; a node without a name is shown by its number.
pub fn put_graph(text: &mut Text, names: &[String], edges: &[GraphEdge]) {
    text.words("digraph blocking {\n  node [shape=box];\n");
    put_nodes(text, names);
    for edge in edges {
        text.form(
            "  n$ -> n$ [label=\"",
            &[u64::from(edge.from), u64::from(edge.to)],
        );
        put_label(text, edge);
        text.words("\"];\n");
    }
    text.words("}\n")
}

/// Appends the boxes of the nodes.
fn put_nodes(text: &mut Text, names: &[String]) {
    let mut node: u64 = 0;
    for name in names {
        text.form("  n$ [label=\"", &[node]);
        text.quoted(name.as_str());
        text.words("\"];\n");
        node = node.saturating_add(1);
    }
}

/// Appends the label of an edge: its count, the integer part of its average cost, and the average changes that aren't
/// 0.
pub(crate) fn put_label(text: &mut Text, edge: &GraphEdge) {
    let cost = edge.cost / 256;
    text.line(&edge.count);
    text.words(if cost < 0 { " x -" } else { " x " });
    text.line(&cost.unsigned_abs());
    let mut resource: u64 = 0;
    for average in edge.changes.values() {
        if *average != 0 {
            put_change(text, resource, *average);
        }
        resource = resource.saturating_add(1);
    }
}

/// Appends an average change in units, of the chunks or of another resource, with its sign and two decimal places.
fn put_change(text: &mut Text, resource: u64, average: i128) {
    if resource == 0 {
        text.words(", chunks ");
    } else {
        text.form(", resource $ ", &[resource]);
    }
    let size = average.unsigned_abs();
    text.words(if average < 0 { "-" } else { "+" });
    text.line(&(size / 256));
    text.form(
        ".$$",
        &[
            (size % 256 * 10 / 256) as u64,
            (size % 256 * 100 / 256 % 10) as u64,
        ],
    )
}
