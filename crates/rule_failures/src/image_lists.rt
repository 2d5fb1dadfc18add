ghost use Rattle.std.specs.Prelude.{◌≡◌, ℕ, ◌+◌, ◌<◌, ◌≤◌, ◌↔◌, IsTrue, All, length, map, slice_get, replicate, if◌then◌else◌, nat_lt};
ghost use Rattle.flat_code.specs.ProgramView.{program_code};
ghost use Rattle.stack_certificate.specs.Certificates.{fact_at};
ghost use Rattle.certificate_rules.specs.Rules.{V8, V12};
ghost use Rattle.rule_failures.specs.First.{IsFirst, IsFirstOther};

use flat_code::FlatProgram;
use stack_certificate::{Certificate, fact_of};
use stack_image::Image;

/// Returns the first index at which V8 fails.
pub fn first_wrong_member(
    flat: &FlatProgram,
    image: &Image,
    certificate: &Certificate,
) -> Option<u64>
    requires { length certificate.now.functions ≡ length (program_code flat.now).functions }
    ensures { (f : ℕ) → IsFirst (V8 (program_code flat.now) image.now certificate.now f) result }
{
    let words = image.tables.as_slice();
    let mut passed = 0;
    for table in flat.tables() {
        if let Some(index) = first_other_entry(certificate, table.as_slice(), words, passed) {
            return Some(index as u64);
        }
        passed += table.len();
    }
    first_too_many(words, passed)
}

// The first of a table's members, after the others, whose entry isn't the word at its place.
fn first_other_entry(
    certificate: &Certificate,
    members: &[u32],
    words: &[u32],
    passed: usize,
) -> Option<usize>
    requires members { All (λ f. f < length certificate.now.functions) members.now }
    requires room { passed + length members.now ≤ 65536 }
    ensures { IsFirstOther (map (λ g. (fact_at certificate.now g).entry) members.now) words.now passed result }
{
    for k in 0..members.len() {
        if !is_at(words, passed + k, fact_of(certificate, members[k]).entry) {
            return Some(passed + k);
        }
    }
    None
}

/// Returns the first index at which V12 fails.
pub fn first_wrong_global(flat: &FlatProgram, image: &Image) -> Option<u64>
    ensures { (f : ℕ) → IsFirst (V12 (program_code flat.now) image.now f) result }
{
    let words = image.globals.as_slice();
    let mut passed = 0;
    for global in flat.globals() {
        if let Some(index) = first_other_start(global.words, global.start, words, passed) {
            return Some(index as u64);
        }
        passed += global.words as usize;
    }
    first_too_many(words, passed)
}

// The first word of a global, after the others, that isn't its initial value.
fn first_other_start(count: u32, start: u32, words: &[u32], passed: usize) -> Option<usize>
    requires { passed + count ≤ 65536 }
    ensures { IsFirstOther (replicate count start) words.now passed result }
{
    for k in 0..count as usize {
        if !is_at(words, passed + k, start) {
            return Some(passed + k);
        }
    }
    None
}

// Whether a word is the one at an index.
fn is_at(words: &[u32], index: usize, word: u32) -> bool
    ensures { IsTrue result ↔ (slice_get words.now index ≡ Some word) }
{
    match words.get(index) {
        Some(there) => *there == word,
        None => false,
    }
}

// The first word after the expected number of words.
fn first_too_many(words: &[u32], count: usize) -> Option<u64>
    ensures { result ≡ (if nat_lt count (length words.now) then Some count else None) }
{
    if words.len() > count {
        Some(count as u64)
    } else {
        None
    }
}
