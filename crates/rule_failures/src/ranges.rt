ghost use Rattle.std.specs.Prelude.{false, ℕ, ◌≡◌, ◌+◌, ◌*◌, ◌%◌, ◌<◌, ◌≤◌, ◌↔◌, IsTrue, IfOk, IfNone, length};
ghost use Rattle.flat_code.specs.Codes.{FlatCode};
ghost use Rattle.flat_code.specs.ProgramView.{program_code};
ghost use Rattle.stack_image.specs.Addresses.{code_start};
ghost use Rattle.stack_certificate.specs.Certificates.{fact_at};
ghost use Rattle.certificate_rules.specs.Rules.{V2};
ghost use Rattle.rule_failures.specs.First.{HoldBelow, IsFirst, IsFirstSpot};
ghost use Rattle.accepted_pairs.specs.Held.{IsReadable};
ghost use Rattle.rule_failures.specs.Marks.{AreMarked, is_marked};

use crate::marks::mark_run;
use crate::spots::Spot;
use flat_code::FlatProgram;
use stack_certificate::{Certificate, FunctionFact, fact_of};
use stack_image::{CODE_START, Image};
use std::alloc::{AllocError, Global};

/// Returns the first failure of V2. It marks the words of the code that are in use, instead of comparing each pair of
/// functions.
pub fn first_wrong_range(
    alloc: Global,
    flat: &FlatProgram,
    image: &Image,
    certificate: &Certificate,
) -> Result<Option<Spot>, AllocError>
    requires readable { IsReadable (program_code flat.now) certificate.now }
    requires below { HoldBelow (program_code flat.now) image.now certificate.now 2 }
    ensures { IfOk result (λ spot. IsFirstSpot (V2 (program_code flat.now) image.now certificate.now) spot) }
{
    let mut marks = vec![in alloc; false; image.code.len()]?;
    Ok(first_over_ranges(flat, image, certificate, &mut marks))
}

// The same. Initially no word of the code is marked.
fn first_over_ranges(
    flat: &FlatProgram,
    image: &Image,
    certificate: &Certificate,
    marks: &mut [bool],
) -> Option<Spot>
    requires readable { IsReadable (program_code flat.now) certificate.now }
    requires below { HoldBelow (program_code flat.now) image.now certificate.now 2 }
    requires count { length marks.old ≡ length image.now.code }
    requires fresh { (word : ℕ) → is_marked marks.old word ≡ false }
    ensures { IsFirstSpot (V2 (program_code flat.now) image.now certificate.now) result }
{
    for f in 0..flat.functions().len() as u64 {
        let function = f as u32;
        if let Some(index) = first_in_range(image, certificate, function, marks) {
            return Some(Spot { function, index });
        }
    }
    None
}

// The first index at which V2 fails in a function, when the words of the lower functions are marked.
fn first_in_range(
    image: &Image,
    certificate: &Certificate,
    function: u32,
    marks: &mut [bool],
) -> Option<u64>
    requires function { function < length certificate.now.functions }
    requires entries { length image.now.entries ≡ length certificate.now.functions }
    requires code { length image.now.code ≤ 200000 }
    requires count { length marks.old ≡ length image.now.code }
    requires marks { AreMarked code_start (λ g. (fact_at certificate.now g).entry) (λ g. (fact_at certificate.now g).words) function marks.old }
    ensures first { (code : FlatCode) → length code.functions ≡ length certificate.now.functions → IsFirst (V2 code image.now certificate.now function) result }
    ensures marked { IfNone result (AreMarked code_start (λ g. (fact_at certificate.now g).entry) (λ g. (fact_at certificate.now g).words) (function + 1) marks.new) }
{
    let fact = fact_of(certificate, function);
    if !lies_in_code(fact, image.code.len()) {
        return Some(1);
    }
    if image.entries.as_slice()[function as usize] != fact.entry {
        return Some(2);
    }
    let start = (fact.entry - CODE_START) / 4;
    if !mark_run(marks, start as usize, fact.words as usize) {
        return Some(3);
    }
    None
}

// Whether a function's words are in the code after its first two words.
fn lies_in_code(fact: &FunctionFact, code: usize) -> bool
    requires { code ≤ 200000 }
    ensures { IsTrue result ↔ ((fact.now.entry % 4 ≡ 0) × (code_start + 4 * 2 ≤ fact.now.entry) × (fact.now.entry + 4 * fact.now.words ≤ code_start + 4 * code)) }
{
    let end = u64::from(fact.entry) + 4 * u64::from(fact.words);
    fact.entry % 4 == 0
        && fact.entry >= CODE_START + 4 * 2
        && end <= u64::from(CODE_START) + 4 * code as u64
}
