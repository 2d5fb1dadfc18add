ghost use Rattle.std.specs.Prelude.{◌≡◌, ◌<◌, ◌≤◌, ◌+◌, ◌^◌, length, OnOk};
ghost use Rattle.std.specs.List.{AllByRecursion};
ghost use Rattle.call_graph.specs.Graph.{IsSiteOf, IsTargetOf};
ghost use Rattle.call_cycles.specs.Reversed.{AreNumbered};

use call_graph::{CallGraph, Callees, GraphSite, Target};
use cycle_break::leaving_order;
use std::alloc::{AllocError, Global};

// The node for the callee of a call: a function's number, or that of a table, which come after the functions.
fn node_of(target: Target, tables: &[Callees], functions: usize) -> usize
    requires target { IsTargetOf functions tables.now target }
    requires few { functions + length tables.now ≤ 2 ^ 32 }
    ensures { result < functions + length tables.now }
{
    match target {
        Target::Function(function) => function as usize,
        Target::Table(table) => functions + table as usize,
    }
}

// Adds a site at which one node calls another. More than 2^32 sites are reported as out of memory.
fn add_site(
    sites: &mut Vec<GraphSite>,
    nodes: usize,
    caller: usize,
    callee: usize,
) -> Result<(), AllocError>
    requires few { nodes ≤ 2 ^ 32 }
    requires caller { caller < nodes }
    requires callee { callee < nodes }
    requires sites { AreNumbered nodes sites.old.items }
    ensures { OnOk result (AreNumbered nodes sites.new.items) }
{
    let number = sites.len();
    if number > u32::MAX as usize {
        return Err(AllocError);
    }
    sites.push(GraphSite {
        number: number as u32,
        caller: caller as u32,
        target: Target::Function(callee as u32),
    })?;
    Ok(())
}

// Adds, for each site of a graph, that its callee calls its caller.
fn add_callers(
    sites: &mut Vec<GraphSite>,
    of_graph: &[GraphSite],
    tables: &[Callees],
    functions: usize,
) -> Result<(), AllocError>
    requires graph { AllByRecursion (IsSiteOf functions tables.now) of_graph.now }
    requires few { functions + length tables.now ≤ 2 ^ 32 }
    requires sites { AreNumbered (functions + length tables.now) sites.old.items }
    ensures { OnOk result (AreNumbered (functions + length tables.now) sites.new.items) }
{
    let nodes = functions + tables.len();
    for site in of_graph {
        let callee = node_of(site.target, tables, functions);
        add_site(sites, nodes, callee, site.caller as usize)?;
    }
    Ok(())
}

// Adds that each of some functions calls a node.
fn add_each(
    sites: &mut Vec<GraphSite>,
    nodes: usize,
    functions: &[u32],
    node: usize,
) -> Result<(), AllocError>
    requires few { nodes ≤ 2 ^ 32 }
    requires functions { AllByRecursion (λ f. f < nodes) functions.now }
    requires node { node < nodes }
    requires sites { AreNumbered nodes sites.old.items }
    ensures { OnOk result (AreNumbered nodes sites.new.items) }
{
    for function in functions {
        add_site(sites, nodes, *function as usize, node)?;
    }
    Ok(())
}

// Adds that each member of a table calls the table.
fn add_tables(
    sites: &mut Vec<GraphSite>,
    tables: &[Callees],
    functions: usize,
) -> Result<(), AllocError>
    requires tables { AllByRecursion (λ members. AllByRecursion (λ f. f < functions) members) tables.now }
    requires few { functions + length tables.now ≤ 2 ^ 32 }
    requires sites { AreNumbered (functions + length tables.now) sites.old.items }
    ensures { OnOk result (AreNumbered (functions + length tables.now) sites.new.items) }
{
    let nodes = functions + tables.len();
    for table in 0..tables.len() {
        add_each(sites, nodes, tables[table].as_slice(), functions + table)?;
    }
    Ok(())
}

// The graph in which each call is reversed. A table is a node after the functions: each of its members calls it, and it
// calls each function that calls the table. More than 2^32 nodes are reported as out of memory.
fn reversed_graph(alloc: Global, graph: &CallGraph) -> Result<CallGraph, AllocError> {
    let functions = graph.weights().len();
    let tables = graph.tables();
    let most: usize = 1 << 32;
    if tables.len() > most - functions {
        return Err(AllocError);
    }
    let mut sites = Vec::new(alloc);
    add_callers(&mut sites, graph.sites(), tables, functions)?;
    add_tables(&mut sites, tables, functions)?;
    let weights = vec![in alloc; 0; functions + tables.len()]?;
    Ok(CallGraph::new(weights, Vec::new(alloc), sites, graph.main()))
}

// The order in which the walk over the reversed calls leaves functions and tables. Only the number of walks that it
// takes to find the least function on a cycle depends on it: from the last on, calls lead from a function only to those
// before it in this order, and to those on a cycle with it.
pub(crate) fn reversed_order(alloc: Global, graph: &CallGraph) -> Result<Vec<u32>, AllocError> {
    let reversed = reversed_graph(alloc, graph)?;
    leaving_order(alloc, &reversed, &[])
}
