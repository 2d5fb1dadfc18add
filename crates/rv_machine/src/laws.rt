ghost use Rattle.std.specs.Prelude.{◌≡◌, ◌≢◌, ℕ, ◌/◌, ◌%◌, ◌^◌, ◌<◌, List, length, slice_index, slice_set, Option, Some};
ghost use Rattle.rv_machine.specs.Access.{next_access, IsAccessed, AgreeIn, Fills};
ghost use Rattle.rv_machine.specs.Bytes.{word_at, with_word};
ghost use Rattle.rv_machine.specs.Rows.{Machine};
ghost use Rattle.rv_machine.specs.Step.{outcome, bytes_after, machine_after};
ghost use Rattle.rv_machine.specs.WordBytes.{byte_of, word_with, byte_in, words_with, HoldsWord};
ghost use Rattle.rv_machine.specs.Words.{IsWords, TellsWords};

/// Law: for any code and machine, a step changes no byte outside its access and depends on no other byte, and
/// what it stores is the whole access, all of it writable.
pub fn access_laws()
    ensures stays { (code : List ℕ) (m : Machine) (at : ℕ) → ¬ IsAccessed (next_access code m) at →
        bytes_after (outcome code m) m.bytes at ≡ m.bytes at }
    ensures depends { (code : List ℕ) (m other : Machine) → m.pc ≡ other.pc → m.x ≡ other.x → AgreeIn (next_access code m) m other →
        outcome code m ≡ outcome code other }
    ensures fills { (code : List ℕ) (m : Machine) → Fills (next_access code m) m.writable (outcome code m) }
{}

/// Law: for any code, a step of a machine of words leads to a machine of words, and it stores and asks only for
/// words.
pub fn word_laws()
    ensures stay { (code : List ℕ) (m : Machine) → IsWords m → IsWords (machine_after (outcome code m) m) }
    ensures told { (code : List ℕ) (m : Machine) → IsWords m → TellsWords (outcome code m) }
{}

/// Law: a byte that is written into a word is then in it, the other bytes stay the same, and the result is a
/// word; the four bytes of a word spell that word; the same holds for a row of words, of which one is written by
/// its index.
pub fn byte_laws()
    ensures same { (word k byte : ℕ) → k < 4 → byte < 2 ^ 8 → byte_of (word_with word k byte) k ≡ byte }
    ensures others { (word k j byte : ℕ) → k < 4 → j < 4 → j ≢ k → byte < 2 ^ 8 → byte_of (word_with word k byte) j ≡ byte_of word j }
    ensures below { (word k byte : ℕ) → k < 4 → byte < 2 ^ 8 → word < 2 ^ 32 → word_with word k byte < 2 ^ 32 }
    ensures held { (bytes : ℕ → Option ℕ) (address word : ℕ) → word < 2 ^ 32 → HoldsWord bytes address word → word_at bytes address ≡ Some word }
    ensures row_same { (words : List ℕ) (offset byte : ℕ) → offset / 4 < length words → byte < 2 ^ 8 →
        byte_in (words_with words offset byte) offset ≡ byte }
    ensures row_others { (words : List ℕ) (offset other byte : ℕ) → other ≢ offset → byte < 2 ^ 8 →
        byte_in (words_with words offset byte) other ≡ byte_in words other }
    ensures row_word { (words : List ℕ) (offset word : ℕ) → offset % 4 ≡ 0 → offset / 4 < length words →
        slice_index words (offset / 4) < 2 ^ 32 → word < 2 ^ 32 → with_word words_with words offset word ≡ slice_set words (offset / 4) word }
{}
