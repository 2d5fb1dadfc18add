ghost use Rattle.std.specs.Prelude.{◌≡◌, ◌<◌, ℕ, true, [], ◌∷◌, length, reverse, IfOk, OnOk};
ghost use Rattle.std.specs.List.{AllByRecursion};
ghost use Rattle.std.specs.List.Sorted.{IsStrictlyIncreasing};
ghost use Rattle.call_graph.specs.Graph.{IsSiteOf, function_count};
ghost use Rattle.call_graph.specs.Index.{IsIndex};
ghost use Rattle.call_graph.specs.Lists.{has};
ghost use Rattle.call_graph.specs.Paths.{BreaksEveryCycle};
ghost use Rattle.cycle_break.specs.BottomUp.{IsBottomUp};
ghost use Rattle.cycle_break.specs.Trail.{come, IsMarked, IsSeen};
ghost use Rattle.cycle_break.specs.Walk.{into_each, walk, whole_walk};

use crate::walking::walk_from;
use call_graph::{CallGraph, Callees, CallerIndex};
use std::alloc::{AllocError, Global};

/// Walks from a function, unless it has been visited.
fn visit(
    alloc: Global,
    index: &CallerIndex<'_>,
    tables: &[Callees],
    function: u32,
    visited: &mut [bool],
    seen: &mut [usize],
    left: &mut Vec<u32>,
) -> Result<(), AllocError>
    requires sites { AllByRecursion (IsSiteOf (length visited.old) tables.now) index.now.sites.now }
    requires index { IsIndex index.now.sites.now index.now.without.now (length visited.old) index.now.first.items index.now.next.items }
    requires function { function < length visited.old }
    requires marks { IsMarked (length visited.old) visited.old (reverse left.old.items) }
    requires seen { IsSeen tables.now visited.old seen.old }
    ensures order { OnOk result (reverse left.new.items ≡ (into_each (walk tables.now index.now.sites.now index.now.without.now (length visited.old)) [] (function ∷ []) (come (reverse left.old.items))).left) }
    ensures marks { OnOk result (IsMarked (length visited.old) visited.new (reverse left.new.items)) }
    ensures seen { OnOk result (IsSeen tables.now visited.new seen.new) }
{
    if visited[function as usize] {
        return Ok(());
    }
    walk_from(alloc, index, tables, function, visited, seen, left)
}

/// Returns the functions in the order in which the walk leaves them, if it skips the sites with the numbers
/// in `without`, which increase. Every function is in the order. If those sites break every cycle, each
/// function comes after all functions that its other sites call.
pub fn leaving_order(
    alloc: Global,
    graph: &CallGraph,
    without: &[u32],
) -> Result<Vec<u32>, AllocError>
    requires { IsStrictlyIncreasing without.now }
    ensures order { IfOk result (λ left. reverse left.items ≡ (whole_walk graph.now without.now).left) }
    ensures all { IfOk result (λ left. (f : ℕ) → f < function_count graph.now → has f (reverse left.items) ≡ true) }
    ensures bottom_up { IfOk result (λ left. BreaksEveryCycle graph.now without.now → IsBottomUp graph.now without.now (reverse left.items)) }
    ensures functions { IfOk result (λ left. AllByRecursion (λ f. f < function_count graph.now) left.items) }
{
    let functions = graph.weights().len();
    let index = CallerIndex::new(alloc, functions, graph.sites(), without)?;
    let mut marks = vec![in alloc; false; functions]?;
    let visited = marks.as_mut_slice();
    let tables = graph.tables();
    let mut places = vec![in alloc; 0; tables.len()]?;
    let seen = places.as_mut_slice();
    let mut left = Vec::new(alloc);
    visit(
        alloc,
        &index,
        tables,
        graph.main(),
        visited,
        seen,
        &mut left,
    )?;
    for function in 0..functions {
        visit(
            alloc,
            &index,
            tables,
            function as u32,
            visited,
            seen,
            &mut left,
        )?;
    }
    Ok(left)
}
