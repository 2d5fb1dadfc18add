ghost use Rattle.std.specs.Prelude.{◌≡◌, IfOk, filter, map, length, nat_le, slice_index};
ghost use Rattle.std.specs.List.{AllByRecursion};
ghost use Rattle.std.specs.List.Sorted.{IsStrictlyIncreasing};
ghost use Rattle.call_graph.specs.Callees.{callees, greatest};
ghost use Rattle.call_graph.specs.Graph.{IsSiteOf, IsTargetOf};
ghost use Rattle.call_graph.specs.Paths.{BreaksEveryCycle};
ghost use Rattle.cycle_break.specs.BackEdges.{back_edges};

use crate::order::leaving_order;
use crate::ranks::{greatest_of_tables, ranks_of};
use call_graph::{CallGraph, Callees, GraphSite, Target};
use std::alloc::{AllocError, Global};

/// Returns the greatest value of the functions that a call may enter, given each table's greatest value.
fn greatest_of_target(
    target: Target,
    tables: &[Callees],
    values: &[usize],
    of_tables: &[usize],
) -> usize
    requires target { IsTargetOf (length values.now) tables.now target }
    requires tables { of_tables.now ≡ map (greatest (slice_index values.now)) tables.now }
    ensures { result ≡ greatest (slice_index values.now) (callees tables.now target) }
{
    match target {
        Target::Function(function) => values[function as usize],
        Target::Table(table) => of_tables[table as usize],
    }
}

/// Returns the numbers of the sites one of whose callees has no lower rank than the caller. The rank of a function is
/// its place in the order in which the walk leaves functions. At a site, the walk has left each callee that isn't on
/// its path, or descends into it, and so leaves it before the caller. It leaves the caller before each other function on
/// the path. So a callee has no lower rank than the caller exactly if it is on the path.
fn later_sites(
    alloc: Global,
    sites: &[GraphSite],
    tables: &[Callees],
    ranks: &[usize],
    of_tables: &[usize],
) -> Result<Vec<u32>, AllocError>
    requires sites { AllByRecursion (IsSiteOf (length ranks.now) tables.now) sites.now }
    requires tables { of_tables.now ≡ map (greatest (slice_index ranks.now)) tables.now }
    ensures { IfOk result (λ back. back.items ≡ map (λ site. site.number) (filter (λ site. nat_le (slice_index ranks.now site.caller) (greatest (slice_index ranks.now) (callees tables.now site.target))) sites.now)) }
{
    let mut back = Vec::new(alloc);
    for site in sites {
        let latest = greatest_of_target(site.target, tables, ranks, of_tables);
        if ranks[site.caller as usize] <= latest {
            back.push(site.number)?;
        }
    }
    Ok(back)
}

/// Returns the numbers of the back-edge sites, increasing. A depth-first walk starts at the start function,
/// then at each function not yet visited, in order of numbers; within a function it takes the sites by
/// number and the members of a table in order, and descends into each callee not yet visited. A site is a
/// back edge if one of its callees is on the current path of the walk, which includes the caller. Without
/// these sites no path of calls leads back to its start.
pub fn back_edges(alloc: Global, graph: &CallGraph) -> Result<Vec<u32>, AllocError>
    ensures walk { IfOk result (λ back. back.items ≡ back_edges graph.now) }
    ensures rising { IfOk result (λ back. IsStrictlyIncreasing back.items) }
    ensures breaks { IfOk result (λ back. BreaksEveryCycle graph.now back.items) }
{
    let left = leaving_order(alloc, graph, &[])?;
    let ranks = ranks_of(alloc, graph.weights().len(), left.as_slice())?;
    let tables = graph.tables();
    let of_tables = greatest_of_tables(alloc, tables, ranks.as_slice())?;
    later_sites(
        alloc,
        graph.sites(),
        tables,
        ranks.as_slice(),
        of_tables.as_slice(),
    )
}
