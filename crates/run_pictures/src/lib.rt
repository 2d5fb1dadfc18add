// The pictures of a run: the timeline as SVG, with a row for each thread that shows its runs and its waits by place
// (`Rows`, `put_timeline`), and the blocking graph as DOT (`put_graph`) and as SVG (`put_drawing`).
//
// In: the happenings of a log, the edges of a graph, and the names of places. Out: the text of a picture. A row keeps
// at most one mark for each place of the picture, over the columns of `report_figures`, so that the picture doesn't
// grow with the log; if several segments and waits fall in one place, its mark has their shares (`Mark`). SVG is that
// of the W3C's "Scalable Vector Graphics (SVG) 1.1", DOT that of Graphviz.
#![tactic(auto)]

mod colors;
mod drawing;
mod graph;
mod head;
mod lanes;
mod rows;
mod timeline;

pub use drawing::put_drawing;
pub use graph::{GraphEdge, put_graph};
pub use rows::{Doing, Mark, Rows};
pub use timeline::put_timeline;
