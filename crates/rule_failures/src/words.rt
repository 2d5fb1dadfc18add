ghost use Rattle.std.specs.Prelude.{ℕ, ◌<◌, ◌↔◌, IsTrue, length};
ghost use Rattle.rv_code.specs.declared.instructions.Instr.{Instr};
ghost use Rattle.flat_code.specs.ProgramView.{program_code};
ghost use Rattle.stack_certificate.specs.InstructionWords.{IsWordOf};
ghost use Rattle.certificate_rules.specs.Ranges.{Stands};
ghost use Rattle.certificate_rules.specs.Rules.{V5, V7};
ghost use Rattle.rule_failures.specs.First.{IsFirst};
ghost use Rattle.accepted_pairs.specs.Held.{IsReadable};

use accepted_pairs::function_of;
use flat_code::FlatProgram;
use stack_certificate::{Certificate, placed_fact_of, prologue_word, stub_word};
use stack_image::{CODE_START, Image};

// Whether a word exists and is in the code at an address.
pub(crate) fn stands_at(image: &Image, address: u64, word: Option<u32>) -> bool
    ensures { (instr : Instr) → IsWordOf (Some instr) word → (IsTrue result ↔ Stands image.now address instr) }
{
    let place = address.saturating_sub(u64::from(CODE_START)) / 4;
    match (word, image.code.as_slice().get(place as usize)) {
        (Some(word), Some(there)) => word == *there,
        _ => false,
    }
}

/// Returns the first index at which V5 fails in a function.
pub fn first_wrong_prologue_word(
    flat: &FlatProgram,
    image: &Image,
    certificate: &Certificate,
    function: u32,
) -> Option<u64>
    requires readable { IsReadable (program_code flat.now) certificate.now }
    requires function { function < length (program_code flat.now).functions }
    ensures { IsFirst (V5 (program_code flat.now) image.now certificate.now function) result }
{
    let fact = placed_fact_of(flat, certificate, function);
    let params = function_of(flat, function).params;
    for word in 0..2 + params {
        let address = fact.entry as u64 + 4 * word as u64;
        if word >= fact.words {
            return Some(word as u64);
        }
        if !stands_at(image, address, prologue_word(fact, params, word)) {
            return Some(word as u64);
        }
    }
    None
}

/// Returns the first index at which V7 fails.
pub fn first_wrong_stub_word(image: &Image) -> Option<u64>
    ensures { (f : ℕ) → IsFirst (V7 image.now f) result }
{
    for word in 0..2 {
        let address = u64::from(CODE_START) + 4 * word as u64;
        if !stands_at(image, address, stub_word(word)) {
            return Some(word as u64);
        }
    }
    None
}
