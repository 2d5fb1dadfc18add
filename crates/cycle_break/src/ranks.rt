ghost use Rattle.std.specs.Prelude.{◌≡◌, ◌<◌, ℕ, length, map, vec_len, slice_index, IfOk};
ghost use Rattle.std.specs.List.{AllByRecursion};
ghost use Rattle.call_graph.specs.Callees.{greatest};
ghost use Rattle.cycle_break.specs.Trail.{rank};

use call_graph::Callees;
use std::alloc::{AllocError, Global};

/// Returns the position, counted from 1, at which each function was left.
pub(crate) fn ranks_of(
    alloc: Global,
    functions: usize,
    left: &[u32],
) -> Result<Vec<usize>, AllocError>
    requires { AllByRecursion (λ f. f < functions) left.now }
    ensures each { IfOk result (λ ranks. vec_len ranks ≡ functions) }
    ensures ranks { IfOk result (λ ranks. (f : ℕ) → f < functions → slice_index ranks.items f ≡ rank left.now f) }
{
    let mut ranks = vec![in alloc; 0; functions]?;
    let mut place = left.len();
    while place > 0 {
        ranks[left[place - 1] as usize] = place;
        place -= 1;
    }
    Ok(ranks)
}

/// Returns the greatest value of these functions.
fn greatest_of(functions: &[u32], values: &[usize]) -> usize
    requires { AllByRecursion (λ f. f < length values.now) functions.now }
    ensures { result ≡ greatest (slice_index values.now) functions.now }
{
    let mut most = 0;
    for function in functions {
        most = most.max(values[*function as usize]);
    }
    most
}

/// Returns the greatest value of each table's members.
pub(crate) fn greatest_of_tables(
    alloc: Global,
    tables: &[Callees],
    values: &[usize],
) -> Result<Vec<usize>, AllocError>
    requires { AllByRecursion (λ members. AllByRecursion (λ f. f < length values.now) members) tables.now }
    ensures { IfOk result (λ most. most.items ≡ map (greatest (slice_index values.now)) tables.now) }
{
    let mut most = Vec::with_capacity(alloc, tables.len())?;
    for members in tables {
        most.push(greatest_of(members.as_slice(), values))?;
    }
    Ok(most)
}
