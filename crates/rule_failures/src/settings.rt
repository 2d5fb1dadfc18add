ghost use Rattle.std.specs.Prelude.{◌≡◌, ◌^◌, ◌<◌, length};
ghost use Rattle.flat_code.specs.Codes.{function_at, operation_at};
ghost use Rattle.flat_code.specs.ProgramView.{program_code};
ghost use Rattle.flat_code.specs.WellFormed.{IsOperation, context_of};
ghost use Rattle.stack_certificate.specs.Templates.{begin, setting_at, goes_to, named_entry, named_address, named_count};
ghost use Rattle.accepted_pairs.specs.Held.{IsReadable, AreWordsBefore};
ghost use Rattle.rule_failures.specs.TablesOf.{AreTablesOf};

use crate::tables::Tables;
use accepted_pairs::{kind_of_operation, operation_of};
use flat_code::{FlatProgram, Op};
use stack_certificate::{Certificate, Setting, fact_of, members_of_table, words_of_global};

// What the template of an operation needs from the rest of the program, given the number of words before each
// operation of the function.
pub(crate) fn setting_of(
    flat: &FlatProgram,
    certificate: &Certificate,
    tables: &Tables,
    before: &[u64],
    function: u32,
    op: u32,
) -> Setting
    requires readable { IsReadable (program_code flat.now) certificate.now }
    requires tables { AreTablesOf (program_code flat.now) certificate.now tables.now }
    requires function { function < length (program_code flat.now).functions }
    requires op { op < length (function_at (program_code flat.now) function).ops }
    requires before { AreWordsBefore (program_code flat.now) certificate.now function before.now }
    ensures setting { result ≡ setting_at (program_code flat.now) certificate.now function (begin (program_code flat.now) certificate.now function op) (operation_at (program_code flat.now) function op) }
    ensures here { result.here < 2 ^ 58 }
    ensures to { result.to < 2 ^ 60 }
{
    let operation = operation_of(flat, function, op);
    Setting {
        here: address_behind(flat, certificate, before, function, op),
        to: target(flat, certificate, before, function, operation),
        entry: entry(flat, certificate, function, operation),
        address: address(flat, certificate, tables, function, operation),
        count: count(flat, function, operation),
        kind: kind_of_operation(certificate, operation),
    }
}

// The address to which an operation jumps.
fn target(
    flat: &FlatProgram,
    certificate: &Certificate,
    before: &[u64],
    function: u32,
    op: &Op,
) -> u64
    requires readable { IsReadable (program_code flat.now) certificate.now }
    requires function { function < length (program_code flat.now).functions }
    requires before { AreWordsBefore (program_code flat.now) certificate.now function before.now }
    requires formed { IsOperation (context_of (program_code flat.now) (function_at (program_code flat.now) function)) op.now }
    ensures target { result ≡ goes_to (program_code flat.now) certificate.now function op.now }
    ensures range { result < 2 ^ 60 }
{
    match op {
        Op::Jump { to } => address_behind(flat, certificate, before, function, *to),
        Op::JumpZero { to, .. } => address_behind(flat, certificate, before, function, *to),
        _ => 0,
    }
}

// The address of the first word of an operation.
fn address_behind(
    flat: &FlatProgram,
    certificate: &Certificate,
    before: &[u64],
    function: u32,
    op: u32,
) -> u64
    requires readable { IsReadable (program_code flat.now) certificate.now }
    requires function { function < length (program_code flat.now).functions }
    requires op { op < length (function_at (program_code flat.now) function).ops }
    requires before { AreWordsBefore (program_code flat.now) certificate.now function before.now }
    ensures address { result ≡ begin (program_code flat.now) certificate.now function op }
    ensures range { result < 2 ^ 58 }
{
    u64::from(fact_of(certificate, function).entry) + 4 * before[op as usize]
}

// The entry of the function that an operation calls or starts.
fn entry(flat: &FlatProgram, certificate: &Certificate, function: u32, op: &Op) -> u32
    requires readable { IsReadable (program_code flat.now) certificate.now }
    requires formed { IsOperation (context_of (program_code flat.now) (function_at (program_code flat.now) function)) op.now }
    ensures { result ≡ named_entry certificate.now op.now }
{
    match op {
        Op::Call { f, .. } => fact_of(certificate, *f).entry,
        Op::Spawn { f, .. } => fact_of(certificate, *f).entry,
        _ => 0,
    }
}

// The address of the global or table that an operation names.
fn address(
    flat: &FlatProgram,
    certificate: &Certificate,
    tables: &Tables,
    function: u32,
    op: &Op,
) -> u32
    requires tables { AreTablesOf (program_code flat.now) certificate.now tables.now }
    requires formed { IsOperation (context_of (program_code flat.now) (function_at (program_code flat.now) function)) op.now }
    ensures { result ≡ named_address (program_code flat.now) op.now }
{
    match op {
        Op::LoadGlobal { g, .. } => tables.global_addresses[*g as usize],
        Op::StoreGlobal { g, .. } => tables.global_addresses[*g as usize],
        Op::LoadArray { a, .. } => tables.global_addresses[*a as usize],
        Op::StoreArray { a, .. } => tables.global_addresses[*a as usize],
        Op::CallTable { t, .. } => tables.table_addresses[*t as usize],
        _ => 0,
    }
}

// The size in words of the array, or the number of members of the table, that an operation names.
fn count(flat: &FlatProgram, function: u32, op: &Op) -> u32
    requires formed { IsOperation (context_of (program_code flat.now) (function_at (program_code flat.now) function)) op.now }
    ensures { result ≡ named_count (program_code flat.now) op.now }
{
    match op {
        Op::LoadArray { a, .. } => words_of_global(flat, *a),
        Op::StoreArray { a, .. } => words_of_global(flat, *a),
        Op::CallTable { t, .. } => members_of_table(flat, *t),
        _ => 0,
    }
}
