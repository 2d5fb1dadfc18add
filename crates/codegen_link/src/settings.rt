// What the template of an operation needs from the rest of the program.

ghost use Rattle.std.specs.Prelude.{◌≡◌, ◌<◌, ◌^◌, length, map, IfOk};
ghost use Rattle.std.specs.List.{range_with_len};
ghost use Rattle.flat_code.specs.Codes.{function_at, operation_at};
ghost use Rattle.flat_code.specs.ProgramView.{program_code};
ghost use Rattle.stack_certificate.specs.Certificates.{fact_at, global_address as address_of_global, table_address as address_of_table};
ghost use Rattle.stack_certificate.specs.Templates.{begin, named_address, named_count, named_entry, setting_at};
ghost use Rattle.codegen_link.specs.Emission.{IsReady, JumpsInside, NamesThere, target_in};

use crate::layouts::Layout;
use crate::links::{link_of, shape};
use crate::lookups::operation_of;
use flat_code::{FlatProgram, Op};
use stack_certificate::{
    Setting, fact_of, function_of, members_of_table, operation_size, words_of_global,
};
use std::alloc::{AllocError, Global};

// The address of the first word of each operation of a function.
pub(crate) fn begins(
    alloc: Global,
    layout: &Layout<'_>,
    function: u32,
) -> Result<Vec<u64>, AllocError>
    requires ready { IsReady (program_code layout.now.flat.now) layout.now.plan.now layout.now.certificate.now layout.now.needs.items layout.now.globals.items layout.now.tables.items }
    requires function { function < length (program_code layout.now.flat.now).functions }
    ensures { IfOk result (λ begins. begins.items ≡ map (begin (program_code layout.now.flat.now) layout.now.certificate.now function) (range_with_len 0 (length (function_at (program_code layout.now.flat.now) function).ops))) }
{
    let flat = layout.flat;
    let body = function_of(flat, function);
    let entry = entry_of(layout, function);
    let mut begins = Vec::with_capacity(alloc, body.ops.len())?;
    let mut here = u64::from(entry) + 4 * (2 + u64::from(body.params));
    for op in 0..body.ops.len() {
        begins.push(here)?;
        let kind = shape(layout.plan, operation_of(flat, function, op as u32));
        here += 4 * u64::from(operation_size(flat, function, op as u32, kind));
    }
    Ok(begins)
}

// The entry of a function.
pub(crate) fn entry_of(layout: &Layout<'_>, function: u32) -> u32
    requires ready { IsReady (program_code layout.now.flat.now) layout.now.plan.now layout.now.certificate.now layout.now.needs.items layout.now.globals.items layout.now.tables.items }
    requires function { function < length (program_code layout.now.flat.now).functions }
    ensures { result ≡ (fact_at layout.now.certificate.now function).entry }
{
    fact_of(layout.certificate, function).entry
}

// The address of the operation to which another jumps.
fn target(begins: &[u64], op: &Op) -> u64
    requires { JumpsInside (length begins.now) op.now }
    ensures { result ≡ target_in begins.now op.now }
{
    match op {
        Op::Jump { to } => begins[*to as usize],
        Op::JumpZero { to, .. } => begins[*to as usize],
        _ => 0,
    }
}

// The entry of the function that an operation calls or starts.
fn entry(layout: &Layout<'_>, op: &Op) -> u32
    requires ready { IsReady (program_code layout.now.flat.now) layout.now.plan.now layout.now.certificate.now layout.now.needs.items layout.now.globals.items layout.now.tables.items }
    requires names { NamesThere (program_code layout.now.flat.now) op.now }
    ensures { result ≡ named_entry layout.now.certificate.now op.now }
{
    match op {
        Op::Call { f, .. } => entry_of(layout, *f),
        Op::Spawn { f, .. } => entry_of(layout, *f),
        _ => 0,
    }
}

// The address of a global.
fn global_address(layout: &Layout<'_>, g: u32) -> u32
    requires ready { IsReady (program_code layout.now.flat.now) layout.now.plan.now layout.now.certificate.now layout.now.needs.items layout.now.globals.items layout.now.tables.items }
    requires global { g < length (program_code layout.now.flat.now).globals }
    ensures { result ≡ address_of_global (program_code layout.now.flat.now) g }
{
    layout.globals.as_slice()[g as usize]
}

// The address of a table.
fn table_address(layout: &Layout<'_>, t: u32) -> u32
    requires ready { IsReady (program_code layout.now.flat.now) layout.now.plan.now layout.now.certificate.now layout.now.needs.items layout.now.globals.items layout.now.tables.items }
    requires table { t < length (program_code layout.now.flat.now).tables }
    ensures { result ≡ address_of_table (program_code layout.now.flat.now) t }
{
    layout.tables.as_slice()[t as usize]
}

// The address of the global or table that an operation names.
fn address(layout: &Layout<'_>, op: &Op) -> u32
    requires ready { IsReady (program_code layout.now.flat.now) layout.now.plan.now layout.now.certificate.now layout.now.needs.items layout.now.globals.items layout.now.tables.items }
    requires names { NamesThere (program_code layout.now.flat.now) op.now }
    ensures { result ≡ named_address (program_code layout.now.flat.now) op.now }
{
    match op {
        Op::LoadGlobal { g, .. } => global_address(layout, *g),
        Op::StoreGlobal { g, .. } => global_address(layout, *g),
        Op::LoadArray { a, .. } => global_address(layout, *a),
        Op::StoreArray { a, .. } => global_address(layout, *a),
        Op::CallTable { t, .. } => table_address(layout, *t),
        _ => 0,
    }
}

// The size in words of the array, or the number of members of the table, that an operation names.
fn count(flat: &FlatProgram, op: &Op) -> u32
    requires names { NamesThere (program_code flat.now) op.now }
    ensures { result ≡ named_count (program_code flat.now) op.now }
{
    match op {
        Op::LoadArray { a, .. } => words_of_global(flat, *a),
        Op::StoreArray { a, .. } => words_of_global(flat, *a),
        Op::CallTable { t, .. } => members_of_table(flat, *t),
        _ => 0,
    }
}

// The setting of an operation's template, given the address of each operation of its function.
pub(crate) fn setting(layout: &Layout<'_>, begins: &[u64], function: u32, op: u32) -> Setting
    requires ready { IsReady (program_code layout.now.flat.now) layout.now.plan.now layout.now.certificate.now layout.now.needs.items layout.now.globals.items layout.now.tables.items }
    requires function { function < length (program_code layout.now.flat.now).functions }
    requires op { op < length (function_at (program_code layout.now.flat.now) function).ops }
    requires begins { begins.now ≡ map (begin (program_code layout.now.flat.now) layout.now.certificate.now function) (range_with_len 0 (length (function_at (program_code layout.now.flat.now) function).ops)) }
    ensures { result ≡ setting_at (program_code layout.now.flat.now) layout.now.certificate.now function (begin (program_code layout.now.flat.now) layout.now.certificate.now function op) (operation_at (program_code layout.now.flat.now) function op) }
{
    let operation = operation_of(layout.flat, function, op);
    Setting {
        here: begins[op as usize],
        to: target(begins, operation),
        entry: entry(layout, operation),
        address: address(layout, operation),
        count: count(layout.flat, operation),
        kind: link_of(layout.flat, layout.plan, layout.needs.as_slice(), operation),
    }
}
