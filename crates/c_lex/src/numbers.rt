// The value of a number as it is spelled.
ghost use Rattle.std.specs.Prelude.{ℕ, ◌≡◌, ◌+◌, ◌*◌, ◌≤◌, ◌<◌, ◌^◌, IfSome, IfNone};
ghost use Rattle.std.specs.Str.Parse.{AllDigits, digits_value};
ghost use Rattle.c_lex.specs.Numbers.{IsNumber};

// The number with one more digit, or `None` if it needs more than 32 bits.
fn with_digit(value: u32, radix: u32, digit: u32) -> Option<u32>
    ensures value { IfSome result (λ next. next ≡ value * radix + digit) }
    ensures none { IfNone result (2 ^ 32 ≤ value * radix + digit) }
{
    value.checked_mul(radix)?.checked_add(digit)
}

// The number that the digits spell in the radix, or `None` if one of them isn't a digit of it or the number needs
// more than 32 bits.
fn value_of(digits: &[u8], radix: u32) -> Option<u32>
    requires at_least { 2 ≤ radix }
    requires at_most { radix ≤ 36 }
    ensures digits { IfSome result (λ _. AllDigits radix digits.now) }
    ensures value { IfSome result (λ value. value ≡ digits_value radix digits.now) }
    ensures none { IfNone result (AllDigits radix digits.now → 2 ^ 32 ≤ digits_value radix digits.now) }
{
    let mut value = 0u32;
    for byte in digits {
        let digit = char::from(*byte).to_digit(radix)?;
        value = with_digit(value, radix, digit)?;
    }
    Some(value)
}

/// Returns the value of the number that a word is, or `None` if it isn't a number or needs more than 32 bits
/// (ISO/IEC 9899:2018, 6.4.4.1, without octal and suffixes).
pub(crate) fn number_of(word: &[u8]) -> Option<u32>
    ensures value { IfSome result (λ value. IsNumber word.now value) }
    ensures none { IfNone result ((value : ℕ) → value < 2 ^ 32 → ¬ IsNumber word.now value) }
{
    match word {
        [b'0'] => Some(0),
        [b'0', b'x' | b'X', _, ..] => value_of(&word[2..], 16),
        [b'1'..=b'9', ..] => value_of(word, 10),
        _ => None,
    }
}
