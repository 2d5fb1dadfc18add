ghost use Rattle.std.specs.Prelude.{◌≡◌, ◌<◌, ◌≤◌, ◌^◌, true, false, length, IfOk};
ghost use Rattle.flat_code.specs.ProgramView.{program_code};
ghost use Rattle.call_cycles.specs.Cycles.{IsOnCycle, IsLeastOf};
ghost use Rattle.call_cycles.specs.Marks.{AreOffCycles};
ghost use Rattle.call_cycles.specs.Orders.{IsGraph};

use crate::off_cycles::off_cycles;
use crate::reaching::mark_callees;
use crate::reversed::reversed_order;
use call_graph::CallGraph;
use cycle_break::back_edges;
use flat_code::FlatProgram;
use std::alloc::{AllocError, Global};

// Whether calls lead from a function back to itself: marks everything that it reaches by calls.
fn is_on_cycle(alloc: Global, flat: &FlatProgram, function: u32) -> Result<bool, AllocError>
    requires { function < length (program_code flat.now).functions }
    ensures found { IfOk result (λ found. found ≡ true → IsOnCycle (program_code flat.now) function) }
    ensures none { IfOk result (λ found. found ≡ false → IsOnCycle (program_code flat.now) function → ⊥) }
{
    let mut of_functions = vec![in alloc; false; flat.functions().len()]?;
    let marks = of_functions.as_mut_slice();
    let mut of_tables = vec![in alloc; false; flat.tables().len()]?;
    let seen = of_tables.as_mut_slice();
    let mut left = Vec::new(alloc);
    mark_callees(flat, function, marks, seen, &mut left)?;
    while let Some(next) = left.pop() {
        mark_callees(flat, next, marks, seen, &mut left)?;
    }
    Ok(marks[function as usize])
}

// The same, without a walk if the function is known to be on no cycle.
fn lies_on_cycle(
    alloc: Global,
    flat: &FlatProgram,
    off: &[bool],
    function: u32,
) -> Result<bool, AllocError>
    requires function { function < length (program_code flat.now).functions }
    requires each { length off.now ≡ length (program_code flat.now).functions }
    requires off { AreOffCycles (program_code flat.now) off.now }
    ensures found { IfOk result (λ found. found ≡ true → IsOnCycle (program_code flat.now) function) }
    ensures none { IfOk result (λ found. found ≡ false → IsOnCycle (program_code flat.now) function → ⊥) }
{
    if off[function as usize] {
        return Ok(false);
    }
    is_on_cycle(alloc, flat, function)
}

// The least function on a cycle, if some are known to be on none.
fn least_on_cycle(
    alloc: Global,
    flat: &FlatProgram,
    off: &[bool],
) -> Result<Option<u32>, AllocError>
    requires few { length (program_code flat.now).functions ≤ 2 ^ 32 }
    requires each { length off.now ≡ length (program_code flat.now).functions }
    requires off { AreOffCycles (program_code flat.now) off.now }
    ensures { IfOk result (IsLeastOf (IsOnCycle (program_code flat.now))) }
{
    for number in 0..flat.functions().len() {
        let function = number as u32;
        if lies_on_cycle(alloc, flat, off, function)? {
            return Ok(Some(function));
        }
    }
    Ok(None)
}

// The least function of a program on a cycle. A graph without back edges has none.
pub(crate) fn cycle_of(
    alloc: Global,
    flat: &FlatProgram,
    graph: &CallGraph,
) -> Result<Option<u32>, AllocError>
    requires graph { IsGraph (program_code flat.now) graph.now }
    requires few { length (program_code flat.now).functions ≤ 2 ^ 32 }
    ensures { IfOk result (IsLeastOf (IsOnCycle (program_code flat.now))) }
{
    let back = back_edges(alloc, graph)?;
    if back.is_empty() {
        return Ok(None);
    }
    let order = reversed_order(alloc, graph)?;
    let off = off_cycles(alloc, flat, order.as_slice())?;
    least_on_cycle(alloc, flat, off.as_slice())
}
