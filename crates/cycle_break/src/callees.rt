ghost use Rattle.std.specs.Prelude.{◌≡◌, ◌<◌, length, not, find, slice_get};
ghost use Rattle.std.specs.List.{AllByRecursion};
ghost use Rattle.call_graph.specs.Callees.{callees};
ghost use Rattle.call_graph.specs.Graph.{IsTargetOf};
ghost use Rattle.cycle_break.specs.Trail.{AreMarkedBelow, IsSeen, is_marked};

use call_graph::{Callees, Target};

/// Returns the index of the first of these functions that hasn't been visited, or one after them. Those before
/// `from` have been visited and aren't tested.
fn first_unmarked(functions: &[u32], visited: &[bool], from: usize) -> usize
    requires below { AllByRecursion (λ f. f < length visited.now) functions.now }
    requires seen { AreMarkedBelow visited.now functions.now from }
    ensures seen { AreMarkedBelow visited.now functions.now result }
    ensures first { slice_get functions.now result ≡ find (λ f. not (is_marked visited.now f)) functions.now }
{
    let mut place = from;
    while place < functions.len() && visited[functions[place] as usize] {
        place += 1;
    }
    place
}

/// Returns the first of a call's callees that hasn't been visited. It tests no member of a table that it has
/// already found visited.
pub(crate) fn first_unvisited(
    target: Target,
    tables: &[Callees],
    visited: &[bool],
    seen: &mut [usize],
) -> Option<u32>
    requires target { IsTargetOf (length visited.now) tables.now target }
    requires seen { IsSeen tables.now visited.now seen.old }
    ensures first { result ≡ find (λ f. not (is_marked visited.now f)) (callees tables.now target) }
    ensures seen { IsSeen tables.now visited.now seen.new }
{
    match target {
        Target::Function(function) => {
            if visited[function as usize] {
                None
            } else {
                Some(function)
            }
        }
        Target::Table(table) => {
            let members = tables[table as usize].as_slice();
            let place = first_unmarked(members, visited, seen[table as usize]);
            seen[table as usize] = place;
            if place < members.len() {
                Some(members[place])
            } else {
                None
            }
        }
    }
}
