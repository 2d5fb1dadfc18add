ghost use Rattle.std.specs.Prelude.{◌≡◌, ◌<◌, ℕ, List, [], length, map, slice_index, IfOk};
ghost use Rattle.std.specs.List.{AllByRecursion, slice_index_or};
ghost use Rattle.call_graph.specs.Callees.{callees, greatest};
ghost use Rattle.call_graph.specs.Graph.{IsTargetOf};
ghost use Rattle.checkpoint_place.specs.KnownTables.{AreAmong, AreKnownAmong, IsKnown};

use call_graph::{Callees, Target};
use std::alloc::{AllocError, Global};

/// Returns the greatest bound of these functions, or 0 if there are none. It allocates nothing.
pub fn greatest_of(functions: &[u32], bounds: &[u32]) -> u32
    requires { AllByRecursion (λ f. f < length bounds.now) functions.now }
    ensures { result ≡ greatest (slice_index bounds.now) functions.now }
{
    let mut most = 0;
    for function in functions {
        most = most.max(bounds[*function as usize]);
    }
    most
}

/// Returns the greatest bound of a table's members, which are read only if it isn't known yet.
fn table_bound(table: usize, tables: &[Callees], bounds: &[u32], known: &mut [Option<u32>]) -> u32
    requires table { table < length tables.now }
    requires members { AllByRecursion (λ f. f < length bounds.now) (slice_index_or tables.now table []) }
    requires known { IsKnown tables.now (slice_index bounds.now) known.old }
    ensures greatest { result ≡ greatest (slice_index bounds.now) (slice_index_or tables.now table []) }
    ensures known { IsKnown tables.now (slice_index bounds.now) known.new }
    ensures among { (others : List ℕ) → AreKnownAmong tables.now others known.old → AreAmong others (slice_index_or tables.now table []) → AreKnownAmong tables.now others known.new }
{
    if let Some(most) = known[table] {
        return most;
    }
    let most = greatest_of(tables[table].as_slice(), bounds);
    known[table] = Some(most);
    most
}

/// Returns the greatest bound of the functions that a call may enter. That of a table is then
/// known.
pub(crate) fn callee_bound(
    target: Target,
    tables: &[Callees],
    bounds: &[u32],
    known: &mut [Option<u32>],
) -> u32
    requires target { IsTargetOf (length bounds.now) tables.now target }
    requires known { IsKnown tables.now (slice_index bounds.now) known.old }
    ensures greatest { result ≡ greatest (slice_index bounds.now) (callees tables.now target) }
    ensures known { IsKnown tables.now (slice_index bounds.now) known.new }
    ensures among { (others : List ℕ) → AreKnownAmong tables.now others known.old → AreAmong others (callees tables.now target) → AreKnownAmong tables.now others known.new }
{
    match target {
        Target::Function(function) => bounds[function as usize],
        Target::Table(table) => table_bound(table as usize, tables, bounds, known),
    }
}

/// Returns the greatest bound of each table's members.
pub(crate) fn greatest_of_tables(
    alloc: Global,
    tables: &[Callees],
    bounds: &[u32],
) -> Result<Vec<u32>, AllocError>
    requires { AllByRecursion (λ members. AllByRecursion (λ f. f < length bounds.now) members) tables.now }
    ensures { IfOk result (λ most. most.items ≡ map (greatest (slice_index bounds.now)) tables.now) }
{
    let mut most = Vec::with_capacity(alloc, tables.len())?;
    for members in tables {
        most.push(greatest_of(members.as_slice(), bounds))?;
    }
    Ok(most)
}

/// Returns the greatest bound of the functions that a call may enter, given that of each table.
pub(crate) fn known_callee_bound(
    target: Target,
    tables: &[Callees],
    bounds: &[u32],
    of_tables: &[u32],
) -> u32
    requires target { IsTargetOf (length bounds.now) tables.now target }
    requires tables { of_tables.now ≡ map (greatest (slice_index bounds.now)) tables.now }
    ensures { result ≡ greatest (slice_index bounds.now) (callees tables.now target) }
{
    match target {
        Target::Function(function) => bounds[function as usize],
        Target::Table(table) => of_tables[table as usize],
    }
}
