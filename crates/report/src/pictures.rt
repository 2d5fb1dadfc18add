// The pictures of a run, from its log and the places of its source; `run_pictures` draws them.

use crate::failures::Failure;
use crate::push::push;
use crate::report::Found;
use cap_text::Lines;
use cap_word::SiteKey;
use report_figures::Window;
use report_lines::told_by;
use report_text::Text;
use run_history::{Happening, History, Standing, Wait};
use run_pictures::{GraphEdge, Rows, put_drawing, put_graph, put_timeline};
use schedule_log::{Entry, read_entry};
use source_places::Places;
use std::alloc::{AllocError, Global};
use std::collections::BTreeMap;

/// The maximum number of rows with places one column wide; with more rows, places are wider, so that the picture stays
/// small.
const NARROW_ROWS: u64 = 100;

/// The number of columns of a place then.
const WIDE: u32 = 3;

/// Appends the timeline of the run with this log, as SVG, given what the report on it found, for the window of clocks,
/// or from 0 to the end of the last segment. It keeps none of the entries. The text records whether it is complete.
///
/// # Errors
///
/// `Log` if a line isn't that of an entry, or a clock or a count would be 2^64 or more; `Memory` if an allocation for
/// the rows fails.
pub fn put_times(
    alloc: Global,
    text: &mut Text,
    places: &Places,
    log: &[u8],
    found: Found,
    asked: (Option<u64>, Option<u64>),
) -> Result<(), Failure> {
    let window = Window {
        from: asked.0.unwrap_or(0),
        to: asked.1.unwrap_or(found.ended),
    };
    let wide = if found.started > NARROW_ROWS { WIDE } else { 1 };
    let mut rows = Rows::new(alloc, window, wide);
    mark_all(alloc, log, found, &mut rows)?;
    let mut sites = Vec::new(alloc);
    let mut names = Vec::new(alloc);
    add_sites(alloc, places, &rows, &mut sites, &mut names)?;
    put_timeline(text, &rows, sites.as_slice(), names.as_slice());
    Ok(())
}

/// Marks the happenings of all lines of a log, and then the waits that are in progress when the run ends, as if they
/// ended then.
fn mark_all(alloc: Global, log: &[u8], found: Found, rows: &mut Rows) -> Result<(), Failure> {
    let mut history = History::new(alloc);
    for line in Lines::new(log) {
        let told = told_by(&mut history, line, &[])?;
        rows.add(told)?;
    }
    for thread in 0..found.threads {
        if let Some(wait) = wait_left(&history, thread, found.ended) {
            rows.add(Happening::Waited(wait))?;
        }
    }
    Ok(())
}

/// Returns the wait of a thread that is in progress when the run ends, at that clock.
fn wait_left(history: &History, thread: u32, end: u64) -> Option<Wait> {
    match history.thread(thread) {
        Some(known) => match known.standing {
            Standing::Waits { site, since, .. } => Some(Wait {
                thread,
                site,
                since,
                until: end,
                request: None,
            }),
            _ => None,
        },
        None => None,
    }
}

/// Adds the sites at which threads wait, and their names.
fn add_sites(
    alloc: Global,
    places: &Places,
    rows: &Rows,
    sites: &mut Vec<u32>,
    names: &mut Vec<String>,
) -> Result<(), AllocError> {
    for site in &rows.sites {
        push(sites, *site)?;
        push(names, name_of(alloc, places, &[*site])?)?;
    }
    Ok(())
}

/// Appends the blocking graph of the run with this log, as SVG or as DOT. The text records whether it is complete.
///
/// # Errors
///
/// `Log` if a line isn't that of an entry; `Memory` if an allocation for the nodes and edges fails.
pub fn put_blocking(
    alloc: Global,
    text: &mut Text,
    places: &Places,
    log: &[u8],
    is_dot: bool,
) -> Result<(), Failure> {
    let mut edges = Vec::new(alloc);
    let mut nodes: BTreeMap<u32, SiteKey> = BTreeMap::new(alloc);
    note_all(&mut edges, &mut nodes, log)?;
    let mut names = Vec::new(alloc);
    add_nodes(alloc, places, &nodes, &mut names)?;
    if is_dot {
        put_graph(text, names.as_slice(), edges.as_slice());
    } else {
        put_drawing(alloc, text, names.as_slice(), edges.as_slice());
    }
    Ok(())
}

/// Collects the nodes and the edges of a log.
fn note_all(
    edges: &mut Vec<GraphEdge>,
    nodes: &mut BTreeMap<u32, SiteKey>,
    log: &[u8],
) -> Result<(), Failure> {
    for line in Lines::new(log) {
        let Ok(entry) = read_entry(line) else {
            return Err(Failure::Log);
        };
        note(edges, nodes, &entry)?;
    }
    Ok(())
}

/// Collects the node of a `block`, by its key, and an edge.
fn note(
    edges: &mut Vec<GraphEdge>,
    nodes: &mut BTreeMap<u32, SiteKey>,
    entry: &Entry,
) -> Result<(), AllocError> {
    match entry {
        Entry::Block { node, key, .. } => match nodes.insert(*node, *key) {
            Ok(_) => Ok(()),
            Err(_) => Err(AllocError),
        },
        Entry::Edge {
            from,
            to,
            count,
            cost,
            changes,
        } => push(
            edges,
            GraphEdge {
                from: *from,
                to: *to,
                count: *count,
                cost: *cost,
                changes: *changes,
            },
        ),
        _ => Ok(()),
    }
}

/// Adds the names of the nodes by number: 0 is the start of threads, 1 their end, and from 2 on come the places at
/// which they block, each with the line and column of the calls that led to it, the innermost first.
fn add_nodes(
    alloc: Global,
    places: &Places,
    nodes: &BTreeMap<u32, SiteKey>,
    names: &mut Vec<String>,
) -> Result<(), AllocError> {
    push(names, String::from_str(alloc, "start")?)?;
    push(names, String::from_str(alloc, "end")?)?;
    for (_, key) in nodes {
        push(names, name_of(alloc, places, key.sites())?)?;
    }
    Ok(())
}

/// Returns the place of the innermost site of a key, with the lines and columns of the others.
fn name_of(alloc: Global, places: &Places, sites: &[u32]) -> Result<String, AllocError> {
    let mut name = Text::new(alloc);
    let mut is_innermost = true;
    for site in sites {
        if is_innermost {
            places.put_site(&mut name, *site);
        } else {
            places.put_line_below(&mut name, *site);
        }
        is_innermost = false;
    }
    name.into_whole()
}
