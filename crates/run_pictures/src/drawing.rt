use crate::graph::{GraphEdge, put_label};
use crate::head::HEAD;
use report_text::Text;
use std::alloc::{AllocError, Global};
use std::collections::BTreeSet;

/// The vertical distance from one node to the next.
const STEP: u64 = 70;

/// The height of a node's box.
const BOX: u64 = 30;

/// The width of the margin for labels on either side, and of the space for arrows.
const LABELS: u64 = 300;

const ARROWS: u64 = 290;

/// The left side of the boxes.
const LEFT: u64 = LABELS + ARROWS;

/// The minimum width of the boxes, and the maximum width of a letter of a name.
const NARROWEST: u64 = 260;

const LETTER: u64 = 7;

/// How far an arrow bows out for each node between its ends, and its maximum.
const BOW: u64 = 45;

const FARTHEST: u64 = 360;

/// The height of a line of labels.
const LINE: u64 = 13;

/// The extent of a drawing: the right side of its boxes, its width and its height. The boxes are as wide as the longest
/// name, the arrows are beside them, and the labels are outside all arrows, each in a separate line, so that none meets
/// another or an arrow.
#[derive(Clone, Copy)]
struct Extent {
    right: u64,
    width: u64,
    height: u64,
}

/// Appends the blocking graph as SVG: the nodes one below another with their names, and an arrow for each edge, with
/// its label in the margin and a thin line to it. Arrows down are to the right of the boxes, arrows up and loops to the
/// left.
pub fn put_drawing(alloc: Global, text: &mut Text, names: &[String], edges: &[GraphEdge]) {
    let mut lines = Vec::new(alloc);
    match add_lines(alloc, &mut lines, edges) {
        Ok(last) => {
            let extent = extent_of(names, last);
            put_head(text, extent);
            put_arrows(text, edges, extent);
            put_boxes(text, names, extent);
            put_labels(text, edges, lines.as_slice(), extent);
            text.form(MEANING, &[LEFT, extent.height.saturating_sub(10)])
        }
        Err(AllocError) => text.lack(),
    }
}

/// The meaning of the labels, and the end of the picture.
const MEANING: &str =
    "<text x=\"$\" y=\"$\">from - to: n x c: n segments went from one node to the other, with c instructions on average; then the average change of what they hold, if any</text>\n</svg>\n";

/// The tip of the arrows.
const TIP: &str =
    "<defs><marker id=\"tip\" markerWidth=\"8\" markerHeight=\"8\" refX=\"7\" refY=\"4\" orient=\"auto\"><path d=\"M0,0 L8,4 L0,8 z\"/></marker></defs>\n";

/// Appends the head of the picture.
fn put_head(text: &mut Text, extent: Extent) {
    let Extent { width, height, .. } = extent;
    text.form(HEAD, &[width, height, width, height]);
    text.words(TIP)
}

/// Returns the extent of a drawing of nodes with these names, whose last line of labels is that one.
fn extent_of(names: &[String], last: u64) -> Extent {
    let mut wide = NARROWEST;
    for name in names {
        let letters = (name.len() as u64).saturating_add(6);
        wide = wide.max(letters.saturating_mul(LETTER));
    }
    let right = wide.saturating_add(LEFT);
    let below = last.saturating_add(2).saturating_mul(LINE);
    Extent {
        right,
        width: right.saturating_add(LEFT),
        height: top_of(names.len() as u64).max(below).saturating_add(20),
    }
}

/// Appends the arrows.
fn put_arrows(text: &mut Text, edges: &[GraphEdge], extent: Extent) {
    for edge in edges {
        let arrow = arrow_of(edge);
        let (side, far) = if arrow.goes_down {
            (extent.right, extent.right.saturating_add(arrow.bow))
        } else {
            (LEFT, LEFT.saturating_sub(arrow.bow))
        };
        let Arrow { start, end, .. } = arrow;
        text.form(ARROW, &[side, start, far, start, far, end, side, end])
    }
}

/// The frame of a node's box, and the number in it.
const FRAME: &str =
    "<rect x=\"$\" y=\"$\" width=\"$\" height=\"$\" fill=\"#eef3fa\" stroke=\"#000000\"/>\n<text x=\"$\" y=\"$\">$: ";

/// Appends the boxes of the nodes.
fn put_boxes(text: &mut Text, names: &[String], extent: Extent) {
    let wide = extent.right.saturating_sub(LEFT);
    let mut node: u64 = 0;
    for name in names {
        let y = top_of(node);
        let base = y.saturating_add(19);
        text.form(FRAME, &[LEFT, y, wide, BOX, LEFT + 8, base, node]);
        text.escaped(name.as_str());
        text.words("</text>\n");
        node = node.saturating_add(1);
    }
}

/// Returns the upper side of a node's box.
fn top_of(node: u64) -> u64 {
    node.saturating_mul(STEP).saturating_add(10)
}

/// The begin, the end and the turn of an arrow, and its side.
#[derive(Clone, Copy)]
struct Arrow {
    start: u64,
    end: u64,
    bow: u64,
    goes_down: bool,
}

impl Arrow {
    /// Returns its distance from the boxes at its turn: three quarters of that of the control points.
    fn reach(self) -> u64 {
        self.bow / 4 * 3
    }

    /// Returns the height of its turn.
    fn middle(self) -> u64 {
        (self.start / 2).saturating_add(self.end / 2)
    }
}

/// Returns the arrow of an edge.
fn arrow_of(edge: &GraphEdge) -> Arrow {
    let between = edge.from.abs_diff(edge.to) as u64;
    Arrow {
        start: top_of(edge.from as u64).saturating_add(20),
        end: top_of(edge.to as u64).saturating_add(10),
        bow: between.saturating_mul(BOW).saturating_add(30).min(FARTHEST),
        goes_down: edge.from < edge.to,
    }
}

/// An arrow from a side, which bows out and returns to it with its tip.
const ARROW: &str =
    "<path d=\"M$,$ C$,$ $,$ $,$\" fill=\"none\" stroke=\"#555555\" marker-end=\"url(#tip)\"/>\n";

/// Adds the line of each edge's label, at the middle of its arrow or below it; no two labels of a side share a line.
/// Returns the last line.
fn add_lines(alloc: Global, lines: &mut Vec<u64>, edges: &[GraphEdge]) -> Result<u64, AllocError> {
    let mut left = BTreeSet::new(alloc);
    let mut right = BTreeSet::new(alloc);
    let mut last: u64 = 0;
    for edge in edges {
        let arrow = arrow_of(edge);
        let middle = arrow.middle() / LINE;
        let line = if arrow.goes_down {
            take_line(&mut right, middle)?
        } else {
            take_line(&mut left, middle)?
        };
        lines.push(line)?;
        last = last.max(line);
    }
    Ok(last)
}

/// Takes the first free line from that one on.
fn take_line(taken: &mut BTreeSet<u64>, from: u64) -> Result<u64, AllocError> {
    let free = first_free(taken, from);
    taken.insert(free)?;
    Ok(free)
}

/// Returns the first free line from that one on.
fn first_free(taken: &BTreeSet<u64>, from: u64) -> u64 {
    let mut line = from;
    for _ in 0..taken.len() {
        if !taken.contains(&line) {
            return line;
        }
        line = line.saturating_add(1);
    }
    line
}

/// Appends the labels of the edges in these lines.
fn put_labels(text: &mut Text, edges: &[GraphEdge], lines: &[u64], extent: Extent) {
    let mut place: usize = 0;
    for edge in edges {
        let line = lines.get(place).copied().unwrap_or(0);
        put_at(
            text,
            edge,
            line.saturating_add(1).saturating_mul(LINE),
            extent,
        );
        place = place.saturating_add(1);
    }
}

/// A thin line from an arrow to its label, with the label that begins there, or the one that ends there.
const BEGINS: &str =
    "<path d=\"M$,$ L$,$\" stroke=\"#bbbbbb\" stroke-dasharray=\"2 3\"/>\n<text x=\"$\" y=\"$\">";

const ENDS: &str =
    "<path d=\"M$,$ L$,$\" stroke=\"#bbbbbb\" stroke-dasharray=\"2 3\"/>\n<text x=\"$\" y=\"$\" text-anchor=\"end\">";

/// Appends the label of an edge at that height, with the nodes from and to which it leads.
fn put_at(text: &mut Text, edge: &GraphEdge, y: u64, extent: Extent) {
    let arrow = arrow_of(edge);
    let middle = y.saturating_sub(4);
    if arrow.goes_down {
        let margin = extent.right.saturating_add(ARROWS);
        let turn = extent.right.saturating_add(arrow.reach());
        let begin = margin.saturating_add(4);
        text.form(BEGINS, &[turn, arrow.middle(), margin, middle, begin, y]);
    } else {
        let turn = LEFT.saturating_sub(arrow.reach());
        text.form(ENDS, &[turn, arrow.middle(), LABELS, middle, LABELS - 4, y]);
    }
    text.form("$ - $: ", &[edge.from as u64, edge.to as u64]);
    put_label(text, edge);
    text.words("</text>\n");
}
