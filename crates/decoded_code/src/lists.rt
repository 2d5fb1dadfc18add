ghost use Rattle.std.specs.Prelude.{◌≡◌, ℕ, List, length, map, IfOk};
ghost use Rattle.decoded_code.specs.Ready.{AreEachReady, AreReady};
ghost use Rattle.rv_code.specs.Decoding.{decoding};

use crate::ready::Ready;
use crate::readying::ready_at;
use cap_word::add;
use rv_code::{Instr, decode};
use stack_image::CODE_START;
use std::alloc::{AllocError, Global};

/// The instruction of each word, in the order of the words, and None in the place of a word that is no instruction
/// (RISC-V unprivileged manual, chapters "RV32I" and "M"). It fails only where memory runs out.
pub fn decode_all(alloc: Global, words: &[u32]) -> Result<Vec<Option<Instr>>, AllocError>
    ensures { IfOk result (λ decoded. decoded.items ≡ map decoding words.now) }
{
    let mut decoded = Vec::with_capacity(alloc, words.len())?;
    for word in words {
        decoded.push(decode(*word))?;
    }
    Ok(decoded)
}

/// Returns the ready operation of each word, in the order of the words, which begin at 0x1000.
///
/// # Errors
///
/// `AllocError` if an allocation fails.
pub fn ready_all(alloc: Global, words: &[u32]) -> Result<Vec<Ready>, AllocError>
    ensures { IfOk result (λ ready. AreReady words.now (length words.now) ready.items) }
{
    let mut ready = Vec::with_capacity(alloc, words.len())?;
    let mut place = CODE_START;
    for word in words {
        ready.push(ready_at(place, decode(*word)))?;
        place = add(place, 4);
    }
    group_all(ready.as_mut_slice());
    Ok(ready)
}

// Gives the first operation of each group the kind of the group, from the last to the first, so that the kind after
// each is known.
fn group_all(ready: &mut [Ready])
    ensures { (words : List ℕ) (count : ℕ) → AreEachReady words count ready.old → AreReady words count ready.new }
{
    let mut at = ready.len();
    while at > 1 {
        at -= 1;
        let kind = ready[at - 1].kind.before(ready[at].kind);
        ready[at - 1].kind = kind;
    }
}
