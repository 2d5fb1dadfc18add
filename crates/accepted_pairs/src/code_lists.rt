// Lists for look-ups in the code of an accepted pair, without a search.

ghost use Rattle.std.specs.Prelude.{◌≡◌, ℕ, ◌+◌, ◌^◌, ◌<◌, ◌≤◌, IfOk, length, slice_index};
ghost use Rattle.flat_code.specs.ProgramView.{program_code};
ghost use Rattle.certificate_rules.specs.Validity.{IsValid};
ghost use Rattle.accepted_pairs.specs.CodeLists.{AreBefore, AreCodeLists, NamesFunctions};
ghost use Rattle.accepted_pairs.specs.Held.{IsReadable};

use crate::words_before::words_before_each;
use decoded_code::{Ready, decode_all, ready_all};
use flat_code::FlatProgram;
use rv_code::Instr;
use stack_certificate::{Certificate, fact_of};
use stack_image::{CODE_START, Image};
use std::alloc::{AllocError, Global};

/// The instruction and the ready operation of each word of the code, the function of each word, and for each function
/// the number of words before each of its operations.
#[derive(Drop)]
pub struct CodeLists {
    pub instrs: Vec<Option<Instr>>,
    pub ready: Vec<Ready>,
    pub functions: Vec<u32>,
    pub before: Vec<Vec<u64>>,
}

/// Returns the lists of a valid pair. Their memory is linear in the size of the code and of the program.
pub fn code_lists_of(
    alloc: Global,
    flat: &FlatProgram,
    image: &Image,
    certificate: &Certificate,
) -> Result<CodeLists, AllocError>
    requires few { length (program_code flat.now).functions ≤ 2 ^ 32 }
    requires valid { IsValid (program_code flat.now) image.now certificate.now }
    ensures { IfOk result (λ lists. AreCodeLists (program_code flat.now) image.now certificate.now lists) }
{
    let instrs = decode_all(alloc, image.code.as_slice())?;
    let ready = ready_all(alloc, image.code.as_slice())?;
    let mut functions = vec![in alloc; 0; image.code.len()]?;
    name_functions(flat, image, certificate, &mut functions);
    let before = words_before_all(alloc, flat, certificate)?;
    Ok(CodeLists {
        instrs,
        ready,
        functions,
        before,
    })
}

// Writes the number of a function at each of its words of the code.
fn name_functions(
    flat: &FlatProgram,
    image: &Image,
    certificate: &Certificate,
    functions: &mut [u32],
)
    requires few { length (program_code flat.now).functions ≤ 2 ^ 32 }
    requires valid { IsValid (program_code flat.now) image.now certificate.now }
    requires count { length functions.old ≡ length image.now.code }
    ensures { NamesFunctions certificate.now (length certificate.now.functions) functions.new }
{
    for f in 0..flat.functions().len() as u64 {
        let function = f as u32;
        let fact = fact_of(certificate, function);
        let start = (fact.entry - CODE_START) / 4;
        name_run(functions, start as usize, fact.words as usize, function);
    }
}

// Writes a number at each word of a range.
fn name_run(functions: &mut [u32], start: usize, words: usize, function: u32)
    requires { start + words ≤ length functions.old }
    ensures run { (word : ℕ) → start ≤ word → word < start + words → slice_index functions.new word ≡ function }
    ensures before { (word : ℕ) → word < start → slice_index functions.new word ≡ slice_index functions.old word }
    ensures behind { (word : ℕ) → start + words ≤ word → slice_index functions.new word ≡ slice_index functions.old word }
{
    for word in start..start + words {
        functions[word] = function;
    }
}

// The number of words before each operation, for each function.
fn words_before_all(
    alloc: Global,
    flat: &FlatProgram,
    certificate: &Certificate,
) -> Result<Vec<Vec<u64>>, AllocError>
    requires { IsReadable (program_code flat.now) certificate.now }
    ensures { IfOk result (λ lists. AreBefore (program_code flat.now) certificate.now (length (program_code flat.now).functions) lists.items) }
{
    let mut lists = Vec::new(alloc);
    for f in 0..flat.functions().len() as u64 {
        let before = words_before_each(alloc, flat, certificate, f as u32)?;
        lists.push(before)?;
    }
    Ok(lists)
}
