ghost use Rattle.std.specs.Prelude.{false, ◌≡◌, ℕ, ◌+◌, ◌*◌, ◌/◌, ◌%◌, ◌<◌, ◌≤◌, ◌↔◌, IsTrue, IfOk, length};
ghost use Rattle.flat_code.specs.ProgramView.{program_code};
ghost use Rattle.certificate_rules.specs.Ranges.{AreApart};
ghost use Rattle.certificate_rules.specs.Rules.{IsPlaced, V4};
ghost use Rattle.rule_failures.specs.First.{IsFirst};
ghost use Rattle.accepted_pairs.specs.Held.{IsReadable};
ghost use Rattle.rule_failures.specs.Marks.{AreMarked, is_marked};

use crate::marks::mark_run;
use accepted_pairs::function_of;
use flat_code::FlatProgram;
use stack_certificate::{Certificate, FunctionFact, placed_fact_of};
use std::alloc::{AllocError, Global};

/// Returns the first index at which V4 fails in a function. It marks the words of the frame that are in use, instead of
/// comparing each pair of variables.
pub fn first_wrong_place(
    alloc: Global,
    flat: &FlatProgram,
    certificate: &Certificate,
    function: u32,
) -> Result<Option<u64>, AllocError>
    requires readable { IsReadable (program_code flat.now) certificate.now }
    requires function { function < length (program_code flat.now).functions }
    ensures { IfOk result (λ index. IsFirst (V4 (program_code flat.now) certificate.now function) index) }
{
    let fact = placed_fact_of(flat, certificate, function);
    let sizes = function_of(flat, function).sizes.as_slice();
    let mut marks = vec![in alloc; false; fact.frame as usize / 4]?;
    Ok(first_untaken(fact, sizes, &mut marks))
}

// The first variable, or the number of variables for the return address, whose place breaks V4. Initially no word of
// the frame is marked.
fn first_untaken(fact: &FunctionFact, sizes: &[u32], marks: &mut [bool]) -> Option<u64>
    requires places { length fact.now.places ≡ length sizes.now }
    requires count { length marks.old ≡ fact.now.frame / 4 }
    requires fresh { (word : ℕ) → is_marked marks.old word ≡ false }
    ensures { IsFirst (λ x. x ≤ length sizes.now → IsPlaced fact.now sizes.now x) result }
{
    let places = fact.places.as_slice();
    for x in 0..sizes.len() {
        if !takes_place(fact.frame, places[x], sizes[x], marks) {
            return Some(x as u64);
        }
    }
    if !takes_place(fact.frame, fact.ra, 1, marks) {
        return Some(sizes.len() as u64);
    }
    None
}

// Whether a place is a multiple of 4 and its words are in the frame and unmarked; marks them.
fn takes_place(frame: u32, place: u32, words: u32, marks: &mut [bool]) -> bool
    requires { length marks.old ≡ frame / 4 }
    ensures placed { (n : ℕ) (starts runs : ℕ → ℕ) → AreMarked 0 starts runs n marks.old → starts n ≡ place → runs n ≡ words →
        (IsTrue result ↔ ((place % 4 ≡ 0) × (place + 4 * words ≤ frame) × ((y : ℕ) → y < n → AreApart (starts n) (runs n) (starts y) (runs y)))) }
    ensures marked { (n : ℕ) (starts runs : ℕ → ℕ) → AreMarked 0 starts runs n marks.old → starts n ≡ place → runs n ≡ words →
        IsTrue result → AreMarked 0 starts runs (n + 1) marks.new }
{
    let end = u64::from(place) + 4 * u64::from(words);
    if place % 4 != 0 || end > u64::from(frame) {
        return false;
    }
    mark_run(marks, place as usize / 4, words as usize)
}
