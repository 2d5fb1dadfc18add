ghost use Rattle.std.specs.Prelude.{◌≡◌, ℕ, ◌+◌, ◌*◌, ◌^◌, ◌<◌, ◌↔◌, IsTrue, IfOk, length, slice_get};
ghost use Rattle.rv_code.specs.declared.instructions.Instr.{Instr};
ghost use Rattle.flat_code.specs.Codes.{function_at, operation_at};
ghost use Rattle.flat_code.specs.ProgramView.{program_code};
ghost use Rattle.stack_certificate.specs.Templates.{begin, template, setting_at, IsFor};
ghost use Rattle.certificate_rules.specs.Ranges.{Stands};
ghost use Rattle.certificate_rules.specs.Rules.{V6};
ghost use Rattle.rule_failures.specs.First.{IsFirst};
ghost use Rattle.accepted_pairs.specs.Held.{IsReadable, AreWordsBefore};
ghost use Rattle.rule_failures.specs.TablesOf.{AreTablesOf};

use crate::settings::setting_of;
use crate::tables::Tables;
use crate::words::stands_at;
use accepted_pairs::{function_of, words_before_each};
use flat_code::FlatProgram;
use stack_certificate::{Certificate, Setting, fact_of, operation_size, operation_word};
use stack_image::Image;
use std::alloc::{AllocError, Global};

/// Returns the first index at which V6 fails in a function.
pub fn first_wrong_operation(
    alloc: Global,
    flat: &FlatProgram,
    image: &Image,
    certificate: &Certificate,
    tables: &Tables,
    function: u32,
) -> Result<Option<u64>, AllocError>
    requires readable { IsReadable (program_code flat.now) certificate.now }
    requires tables { AreTablesOf (program_code flat.now) certificate.now tables.now }
    requires function { function < length (program_code flat.now).functions }
    ensures { IfOk result (λ index. IsFirst (V6 (program_code flat.now) image.now certificate.now function) index) }
{
    let before = words_before_each(alloc, flat, certificate, function)?;
    Ok(first_astray(flat, image, certificate, tables, function, &before))
}

// The same, given the number of words before each operation.
fn first_astray(
    flat: &FlatProgram,
    image: &Image,
    certificate: &Certificate,
    tables: &Tables,
    function: u32,
    before: &[u64],
) -> Option<u64>
    requires readable { IsReadable (program_code flat.now) certificate.now }
    requires tables { AreTablesOf (program_code flat.now) certificate.now tables.now }
    requires function { function < length (program_code flat.now).functions }
    requires before { AreWordsBefore (program_code flat.now) certificate.now function before.now }
    ensures { IsFirst (V6 (program_code flat.now) image.now certificate.now function) result }
{
    let words = fact_of(certificate, function).words as u64;
    let count = function_of(flat, function).ops.len() as u64;
    for op in 0..count {
        if before[op as usize + 1] > words {
            return Some(op);
        }
        let setting = setting_of(flat, certificate, tables, before, function, op as u32);
        if !operation_stands(flat, image, certificate, function, op as u32, &setting) {
            return Some(op);
        }
    }
    if before[count as usize] != words {
        return Some(count);
    }
    None
}

// Whether the words of an operation are in the code.
fn operation_stands(
    flat: &FlatProgram,
    image: &Image,
    certificate: &Certificate,
    function: u32,
    op: u32,
    setting: &Setting,
) -> bool
    requires certificate { IsFor (program_code flat.now) certificate.now }
    requires function { function < length (program_code flat.now).functions }
    requires op { op < length (function_at (program_code flat.now) function).ops }
    requires setting { setting.now ≡ setting_at (program_code flat.now) certificate.now function (begin (program_code flat.now) certificate.now function op) (operation_at (program_code flat.now) function op) }
    requires here { setting.now.here < 2 ^ 58 }
    requires to { setting.now.to < 2 ^ 60 }
    ensures { IsTrue result ↔ ((w : ℕ) (instr : Instr) → slice_get (template (program_code flat.now) certificate.now function op) w ≡ Some instr →
        Stands image.now (begin (program_code flat.now) certificate.now function op + 4 * w) instr) }
{
    for word in 0..operation_size(flat, function, op, setting.kind) {
        let there = operation_word(flat, certificate, function, op, setting, word);
        if !stands_at(image, setting.here + 4 * word as u64, there) {
            return false;
        }
    }
    true
}
