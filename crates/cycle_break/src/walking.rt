ghost use Rattle.std.specs.Prelude.{◌≡◌, ◌<◌, false, [], length, reverse, OnOk};
ghost use Rattle.std.specs.List.{AllByRecursion};
ghost use Rattle.call_graph.specs.Graph.{IsSiteOf};
ghost use Rattle.call_graph.specs.Index.{IsIndex};
ghost use Rattle.cycle_break.specs.Trail.{come, is_marked, IsMarked, IsSeen};
ghost use Rattle.cycle_break.specs.Walk.{walk};

use crate::callees::first_unvisited;
use crate::path::{Frame, Path};
use call_graph::{Callees, CallerIndex};
use std::alloc::{AllocError, Global};

/// Walks from a function that hasn't been visited, with no function on the path.
pub(crate) fn walk_from(
    alloc: Global,
    index: &CallerIndex<'_>,
    tables: &[Callees],
    root: u32,
    visited: &mut [bool],
    seen: &mut [usize],
    left: &mut Vec<u32>,
) -> Result<(), AllocError>
    requires sites { AllByRecursion (IsSiteOf (length visited.old) tables.now) index.now.sites.now }
    requires index { IsIndex index.now.sites.now index.now.without.now (length visited.old) index.now.first.items index.now.next.items }
    requires root { root < length visited.old }
    requires unvisited { is_marked visited.old root ≡ false }
    requires marks { IsMarked (length visited.old) visited.old (reverse left.old.items) }
    requires seen { IsSeen tables.now visited.old seen.old }
    ensures order { OnOk result (reverse left.new.items ≡ (walk tables.now index.now.sites.now index.now.without.now (length visited.old) [] root (come (reverse left.old.items))).left) }
    ensures marks { OnOk result (IsMarked (length visited.old) visited.new (reverse left.new.items)) }
    ensures seen { OnOk result (IsSeen tables.now visited.new seen.new) }
{
    let mut path = Path::new(alloc);
    visited[root as usize] = true;
    path.enter(Frame {
        function: root,
        place: index.first[root as usize],
    })?;
    while let Some(frame) = path.leave() {
        if frame.place == index.sites.len() {
            left.push(frame.function)?;
        } else if let Some(callee) = first_unvisited(
            index.sites[frame.place].target,
            tables,
            visited,
            seen,
        ) {
            path.enter(frame)?;
            visited[callee as usize] = true;
            path.enter(Frame {
                function: callee,
                place: index.first[callee as usize],
            })?;
        } else {
            path.enter(Frame {
                function: frame.function,
                place: index.next[frame.place],
            })?;
        }
    }
    Ok(())
}
