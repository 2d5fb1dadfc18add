ghost use Rattle.std.specs.Prelude.{◌≡◌, ◌<◌, true, length, vec_len, IfOk, OnOk};
ghost use Rattle.flat_code.specs.ProgramView.{program_code};
ghost use Rattle.call_cycles.specs.Cycles.{IsOnCycle};
ghost use Rattle.call_cycles.specs.Marks.{AreOffCycles, AreSeen, IsClosed};

use crate::reaching::mark_callees;
use flat_code::FlatProgram;
use std::alloc::{AllocError, Global};

// Marks a function and everything that it reaches by calls, and returns whether it is on no cycle. Marked functions
// call only marked functions, so they lead to the function only if it was already marked.
fn is_off_cycles(
    alloc: Global,
    flat: &FlatProgram,
    function: u32,
    marks: &mut [bool],
    seen: &mut [bool],
) -> Result<bool, AllocError>
    requires function { function < length (program_code flat.now).functions }
    requires each { length marks.old ≡ length (program_code flat.now).functions }
    requires seen { AreSeen (program_code flat.now) marks.old seen.old }
    requires closed { IsClosed (program_code flat.now) marks.old }
    ensures off { IfOk result (λ off. off ≡ true → IsOnCycle (program_code flat.now) function → ⊥) }
    ensures seen { OnOk result (AreSeen (program_code flat.now) marks.new seen.new) }
    ensures closed { OnOk result (IsClosed (program_code flat.now) marks.new) }
{
    let mut left = Vec::new(alloc);
    mark_callees(flat, function, marks, seen, &mut left)?;
    while let Some(next) = left.pop() {
        mark_callees(flat, next, marks, seen, &mut left)?;
    }
    let found = marks[function as usize];
    marks[function as usize] = true;
    Ok(!found)
}

// Marks a function and everything that it reaches by calls, unless it was already marked, and notes if it is on no
// cycle. A number that isn't a function's is skipped.
fn note_function(
    alloc: Global,
    flat: &FlatProgram,
    function: u32,
    off: &mut Vec<bool>,
    marks: &mut [bool],
    seen: &mut [bool],
) -> Result<(), AllocError>
    requires each { vec_len off.old ≡ length (program_code flat.now).functions }
    requires marks { length marks.old ≡ length (program_code flat.now).functions }
    requires seen { AreSeen (program_code flat.now) marks.old seen.old }
    requires closed { IsClosed (program_code flat.now) marks.old }
    requires off { AreOffCycles (program_code flat.now) off.old.items }
    ensures each { OnOk result (vec_len off.new ≡ vec_len off.old) }
    ensures seen { OnOk result (AreSeen (program_code flat.now) marks.new seen.new) }
    ensures closed { OnOk result (IsClosed (program_code flat.now) marks.new) }
    ensures off { OnOk result (AreOffCycles (program_code flat.now) off.new.items) }
{
    if function as usize >= flat.functions().len() {
        return Ok(());
    }
    if marks[function as usize] {
        return Ok(());
    }
    let found = is_off_cycles(alloc, flat, function, marks, seen)?;
    off[function as usize] = found;
    Ok(())
}

// Finds functions on no cycle in one pass: each that isn't reached from those before it, and doesn't lead to itself.
// They are taken in this order, from the last on. The result is right for any order; for the order in which the walk
// over the reversed calls leaves the functions, it is complete.
pub(crate) fn off_cycles(
    alloc: Global,
    flat: &FlatProgram,
    order: &[u32],
) -> Result<Vec<bool>, AllocError>
    ensures each { IfOk result (λ off. vec_len off ≡ length (program_code flat.now).functions) }
    ensures off { IfOk result (λ off. AreOffCycles (program_code flat.now) off.items) }
{
    let functions = flat.functions().len();
    let mut off = vec![in alloc; false; functions]?;
    let mut of_functions = vec![in alloc; false; functions]?;
    let marks = of_functions.as_mut_slice();
    let mut of_tables = vec![in alloc; false; flat.tables().len()]?;
    let seen = of_tables.as_mut_slice();
    let mut place = order.len();
    while place > 0 {
        place -= 1;
        note_function(alloc, flat, order[place], &mut off, marks, seen)?;
    }
    Ok(off)
}
