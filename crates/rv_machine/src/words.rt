ghost use Rattle.std.specs.Prelude.{◌≡◌, ◌-◌, ◌%◌, int_lt};
ghost use Rattle.cap_word.specs.Word.{word_of, signed};
ghost use Rattle.rv_machine.specs.Effect as table;

use cap_word::slt;
use rv_code::UpperImmediate;

// The word of a signed number, as an operand.
#[tactic(auto, unfolding(cap_word::specs::Word::word_of))]
pub(crate) fn word(value: i32) -> u32
    ensures { result ≡ word_of value }
{
    value.cast_unsigned()
}

// The value that LUI and AUIPC place.
#[tactic(auto, unfolding(cap_word::specs::Word::word_of))]
pub(crate) fn upper(imm: UpperImmediate) -> u32
    ensures { result ≡ table.upper imm }
{
    (imm.value() as u32) << 12
}

// The number with bit 0 cleared.
pub(crate) fn even(number: u32) -> u32
    ensures { result ≡ number - number % 2 }
{
    number - (number & 1)
}

// Returns whether `a` is below `b`, both signed.
#[tactic(auto, unfolding(cap_word::specs::Word::slt, cap_word::specs::Word::flag))]
pub(crate) fn is_below(a: u32, b: u32) -> bool
    ensures { result ≡ int_lt (signed a) (signed b) }
{
    slt(a, b) == 1
}
