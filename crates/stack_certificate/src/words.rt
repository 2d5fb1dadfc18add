ghost use Rattle.std.specs.Prelude.{◌≡◌, ◌+◌, ◌*◌, ◌<◌, ◌≤◌, ◌^◌, List, length, map, slice_get, Some};
ghost use Rattle.rv_code.specs.declared.instructions.Instr.{Instr};
ghost use Rattle.flat_code.specs.Codes.{function_at, operation_at};
ghost use Rattle.flat_code.specs.ProgramView.{program_code};
ghost use Rattle.stack_certificate.specs.Certificates.{fact_at};
ghost use Rattle.stack_certificate.specs.Fits.{checked};
ghost use Rattle.stack_certificate.specs.InstructionWords.{IsWordOf};
ghost use Rattle.stack_certificate.specs.Parts.{zeroes};
ghost use Rattle.stack_certificate.specs.Places.{HavePlaces};
ghost use Rattle.stack_certificate.specs.Templates.{end_stub, prologue, row, row_at, IsFor};

use crate::certificates::Certificate;
use crate::functions::FunctionFact;
use crate::instruction_lists::InstructionList;
use crate::lookups::{function_of, operation_of, placed_fact_of};
use crate::run_time_calls::END_NUMBER;
use crate::settings::Setting;
use crate::{parts, rows, slots};
use flat_code::{FlatProgram, Op};
use rv_code::{Register, encode};

/// Returns a word of the end stub, with which the code begins and to which the last frame of a thread
/// returns; `None` if it has no such word. It doesn't allocate.
pub fn stub_word(word: u32) -> Option<u32>
    ensures { IsWordOf (slice_get end_stub word) result }
{
    let mut list = InstructionList::new();
    parts::system_call(&mut list, END_NUMBER);
    slot_word(&list, word)
}

/// Returns a word of a function's prologue; `None` if it has no such word, or if a number in the word
/// doesn't fit its field. It doesn't allocate.
pub fn prologue_word(fact: &FunctionFact, params: u32, word: u32) -> Option<u32>
    requires few { params ≤ 6 }
    requires places { params ≤ length fact.now.places }
    ensures { IsWordOf (slice_get (prologue fact.now params) word) result }
{
    let mut list = InstructionList::new();
    list.push(slots::lower_stack(fact.frame));
    list.push(slots::store_word(Register::SP, Register::RA, fact.ra));
    parts::saves(&mut list, fact, params);
    slot_word(&list, word)
}

/// Returns a word of the template of an operation, from its setting; `None` if the template has no such
/// word, or if a number in the word doesn't fit its field. It doesn't allocate, and its time doesn't depend
/// on the program.
pub fn operation_word(
    flat: &FlatProgram,
    certificate: &Certificate,
    function: u32,
    op: u32,
    setting: &Setting,
    word: u32,
) -> Option<u32>
    requires certificate { IsFor (program_code flat.now) certificate.now }
    requires function { function < length (program_code flat.now).functions }
    requires op { op < length (function_at (program_code flat.now) function).ops }
    requires here { setting.now.here < 2 ^ 58 }
    requires to { setting.now.to < 2 ^ 60 }
    ensures { IsWordOf (slice_get (row_at (fact_at certificate.now function) (function_at (program_code flat.now) function).sizes setting.now (operation_at (program_code flat.now) function op)) word) result }
{
    let body = function_of(flat, function);
    let fact = placed_fact_of(flat, certificate, function);
    let operation = operation_of(flat, function, op);
    row_word(fact, body.sizes.as_slice(), setting, operation, word)
}

// A word of an operation's template.
fn row_word(
    fact: &FunctionFact,
    sizes: &[u32],
    setting: &Setting,
    op: &Op,
    word: u32,
) -> Option<u32>
    requires places { HavePlaces (length fact.now.places) op.now }
    requires sizes { length sizes.now ≡ length fact.now.places }
    requires here { setting.now.here < 2 ^ 58 }
    requires to { setting.now.to < 2 ^ 60 }
    ensures { IsWordOf (slice_get (row fact.now sizes.now setting.now op.now) word) result }
{
    match op {
        Op::Zero { a } => zero_word(parts::place(fact, *a), sizes[*a as usize], word),
        _ => slot_word(&rows::row(fact, sizes, setting, op), word),
    }
}

// The word of an instruction in a list.
fn slot_word(list: &InstructionList, word: u32) -> Option<u32>
    ensures { (rows : List Instr) → list.now ≡ map checked rows → IsWordOf (slice_get rows word) result }
{
    match list.get(word as usize) {
        Some(Some(instr)) => Some(encode(instr)),
        Some(None) => None,
        None => None,
    }
}

// The word of the instruction that sets the array's word at an index to 0.
fn zero_word(place: u32, size: u32, word: u32) -> Option<u32>
    ensures { IsWordOf (slice_get (zeroes place size) word) result }
{
    if word >= size {
        return None;
    }
    let offset = u64::from(place) + 4 * u64::from(word);
    if offset > 2047 {
        return None;
    }
    let offset = offset as u32;
    match slots::store_word(Register::SP, Register::ZERO, offset) {
        Some(instr) => Some(encode(instr)),
        None => None,
    }
}
