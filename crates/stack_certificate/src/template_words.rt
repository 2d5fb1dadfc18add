ghost use Rattle.std.specs.Prelude.{◌≡◌, ◌<◌, ◌^◌, length, slice_get, Some};
ghost use Rattle.flat_code.specs.Codes.{function_at, operation_at};
ghost use Rattle.flat_code.specs.ProgramView.{program_code};
ghost use Rattle.flat_code.specs.WellFormed.{IsOperation, context_of};
ghost use Rattle.stack_certificate.specs.InstructionWords.{IsWordOf};
ghost use Rattle.stack_certificate.specs.Templates.{begin, goes_to, named_address, named_count, named_entry, setting_at, template, IsFor};

use crate::addresses::{address_of_global, address_of_table};
use crate::begins::operation_begin;
use crate::certificates::Certificate;
use crate::lookups::{members_of_table, operation_of, placed_fact_of, words_of_global};
use crate::places_in_code::kind_of_operation;
use crate::settings::Setting;
use crate::words::operation_word;
use flat_code::{FlatProgram, Op};

/// Returns a word of the template of an operation; `None` if the template has no such word, or if a number
/// in the word doesn't fit its field. It doesn't allocate; its time is linear in the number of operations
/// before it and before the one to which it jumps. `operation_word` needs no such time.
pub fn template_word(
    flat: &FlatProgram,
    certificate: &Certificate,
    function: u32,
    op: u32,
    word: u32,
) -> Option<u32>
    requires certificate { IsFor (program_code flat.now) certificate.now }
    requires function { function < length (program_code flat.now).functions }
    requires op { op < length (function_at (program_code flat.now) function).ops }
    ensures { IsWordOf (slice_get (template (program_code flat.now) certificate.now function op) word) result }
{
    let setting = operation_setting(flat, certificate, function, op);
    operation_word(flat, certificate, function, op, &setting, word)
}

/// Returns what the template of an operation needs from the rest of the program. It doesn't allocate; its
/// time is linear in the number of operations before it and before the one to which it jumps.
pub fn operation_setting(
    flat: &FlatProgram,
    certificate: &Certificate,
    function: u32,
    op: u32,
) -> Setting
    requires certificate { IsFor (program_code flat.now) certificate.now }
    requires function { function < length (program_code flat.now).functions }
    requires op { op < length (function_at (program_code flat.now) function).ops }
    ensures setting { result ≡ setting_at (program_code flat.now) certificate.now function (begin (program_code flat.now) certificate.now function op) (operation_at (program_code flat.now) function op) }
    ensures here { result.here < 2 ^ 56 }
    ensures to { result.to < 2 ^ 56 }
{
    let operation = operation_of(flat, function, op);
    Setting {
        here: operation_begin(flat, certificate, function, op),
        to: target(flat, certificate, function, operation),
        entry: entry(flat, certificate, function, operation),
        address: address(flat, function, operation),
        count: count(flat, function, operation),
        kind: kind_of_operation(certificate, operation),
    }
}

// The address to which an operation jumps.
fn target(flat: &FlatProgram, certificate: &Certificate, function: u32, op: &Op) -> u64
    requires certificate { IsFor (program_code flat.now) certificate.now }
    requires function { function < length (program_code flat.now).functions }
    requires formed { IsOperation (context_of (program_code flat.now) (function_at (program_code flat.now) function)) op.now }
    ensures target { result ≡ goes_to (program_code flat.now) certificate.now function op.now }
    ensures range { result < 2 ^ 56 }
{
    match op {
        Op::Jump { to } => operation_begin(flat, certificate, function, *to),
        Op::JumpZero { to, .. } => operation_begin(flat, certificate, function, *to),
        _ => 0,
    }
}

// The entry of the function that an operation calls or starts.
fn entry(flat: &FlatProgram, certificate: &Certificate, function: u32, op: &Op) -> u32
    requires certificate { IsFor (program_code flat.now) certificate.now }
    requires formed { IsOperation (context_of (program_code flat.now) (function_at (program_code flat.now) function)) op.now }
    ensures { result ≡ named_entry certificate.now op.now }
{
    match op {
        Op::Call { f, .. } => placed_fact_of(flat, certificate, *f).entry,
        Op::Spawn { f, .. } => placed_fact_of(flat, certificate, *f).entry,
        _ => 0,
    }
}

// The address of the global or table that an operation names.
fn address(flat: &FlatProgram, function: u32, op: &Op) -> u32
    requires formed { IsOperation (context_of (program_code flat.now) (function_at (program_code flat.now) function)) op.now }
    ensures { result ≡ named_address (program_code flat.now) op.now }
{
    match op {
        Op::LoadGlobal { g, .. } => address_of_global(flat, *g),
        Op::StoreGlobal { g, .. } => address_of_global(flat, *g),
        Op::LoadArray { a, .. } => address_of_global(flat, *a),
        Op::StoreArray { a, .. } => address_of_global(flat, *a),
        Op::CallTable { t, .. } => address_of_table(flat, *t),
        _ => 0,
    }
}

// The size in words of the array, or the number of members of the table, that an operation names.
fn count(flat: &FlatProgram, function: u32, op: &Op) -> u32
    requires formed { IsOperation (context_of (program_code flat.now) (function_at (program_code flat.now) function)) op.now }
    ensures { result ≡ named_count (program_code flat.now) op.now }
{
    match op {
        Op::LoadArray { a, .. } => words_of_global(flat, *a),
        Op::StoreArray { a, .. } => words_of_global(flat, *a),
        Op::CallTable { t, .. } => members_of_table(flat, *t),
        _ => 0,
    }
}
