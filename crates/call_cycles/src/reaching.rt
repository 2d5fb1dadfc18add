ghost use Rattle.std.specs.Prelude.{◌≡◌, ◌<◌, true, length, OnOk};
ghost use Rattle.std.specs.List.{AllByRecursion};
ghost use Rattle.call_graph.specs.Lists.{has};
ghost use Rattle.flat_code.specs.Codes.{function_at, members_of};
ghost use Rattle.flat_code.specs.ProgramView.{program_code};
ghost use Rattle.flat_code.specs.WellFormed.{IsFunction, IsOperation, context_of};
ghost use Rattle.call_cycles.specs.Cycles.{Calls, functions_called};
ghost use Rattle.call_cycles.specs.Marks.{AreSeen, Marks};

use flat_code::{FlatFunction, FlatProgram, Op};
use std::alloc::AllocError;

// A function of a program.
fn function_of(flat: &FlatProgram, function: usize) -> &FlatFunction
    requires { function < length (program_code flat.now).functions }
    ensures value { result.now ≡ function_at (program_code flat.now) function }
    ensures formed { IsFunction (program_code flat.now) result.now }
{
    &flat.functions()[function]
}

// Marks a function, and adds it to the list of functions still to be visited, unless it was already marked.
fn mark(function: u32, marks: &mut [bool], left: &mut Vec<u32>) -> Result<(), AllocError>
    requires { function < length marks.old }
    ensures { OnOk result (Marks (λ g. g ≡ function) marks.old left.old.items marks.new left.new.items) }
{
    if marks[function as usize] {
        return Ok(());
    }
    marks[function as usize] = true;
    left.push(function)?;
    Ok(())
}

// The same for each of some functions.
fn mark_each(functions: &[u32], marks: &mut [bool], left: &mut Vec<u32>) -> Result<(), AllocError>
    requires { AllByRecursion (λ f. f < length marks.old) functions.now }
    ensures { OnOk result (Marks (λ g. has g functions.now ≡ true) marks.old left.old.items marks.new left.new.items) }
{
    for function in functions {
        mark(*function, marks, left)?;
    }
    Ok(())
}

// The same for each member of a table. Those of a table that has been seen are marked, and aren't tested
// again.
fn mark_members(
    flat: &FlatProgram,
    table: u32,
    marks: &mut [bool],
    seen: &mut [bool],
    left: &mut Vec<u32>,
) -> Result<(), AllocError>
    requires table { table < length (program_code flat.now).tables }
    requires marks { length marks.old ≡ length (program_code flat.now).functions }
    requires seen { AreSeen (program_code flat.now) marks.old seen.old }
    ensures marked { OnOk result (Marks (λ g. has g (members_of (program_code flat.now) table) ≡ true) marks.old left.old.items marks.new left.new.items) }
    ensures seen { OnOk result (AreSeen (program_code flat.now) marks.new seen.new) }
{
    if seen[table as usize] {
        return Ok(());
    }
    mark_each(flat.tables()[table as usize].as_slice(), marks, left)?;
    seen[table as usize] = true;
    Ok(())
}

// The same for each function that an operation calls.
fn mark_called(
    flat: &FlatProgram,
    function: u32,
    op: &Op,
    marks: &mut [bool],
    seen: &mut [bool],
    left: &mut Vec<u32>,
) -> Result<(), AllocError>
    requires marks { length marks.old ≡ length (program_code flat.now).functions }
    requires seen { AreSeen (program_code flat.now) marks.old seen.old }
    requires formed { IsOperation (context_of (program_code flat.now) (function_at (program_code flat.now) function)) op.now }
    ensures marked { OnOk result (Marks (λ g. has g (functions_called (program_code flat.now) op.now) ≡ true) marks.old left.old.items marks.new left.new.items) }
    ensures seen { OnOk result (AreSeen (program_code flat.now) marks.new seen.new) }
{
    match op {
        Op::Call { f, .. } => mark(*f, marks, left),
        Op::CallTable { t, .. } => mark_members(flat, *t, marks, seen, left),
        _ => Ok(()),
    }
}

// The same for each function that a function calls.
pub(crate) fn mark_callees(
    flat: &FlatProgram,
    function: u32,
    marks: &mut [bool],
    seen: &mut [bool],
    left: &mut Vec<u32>,
) -> Result<(), AllocError>
    requires marks { length marks.old ≡ length (program_code flat.now).functions }
    requires seen { AreSeen (program_code flat.now) marks.old seen.old }
    requires function { function < length (program_code flat.now).functions }
    ensures marked { OnOk result (Marks (Calls (program_code flat.now) function) marks.old left.old.items marks.new left.new.items) }
    ensures seen { OnOk result (AreSeen (program_code flat.now) marks.new seen.new) }
{
    let ops = function_of(flat, function as usize).ops.as_slice();
    for op in ops {
        mark_called(flat, function, op, marks, seen, left)?;
    }
    Ok(())
}
