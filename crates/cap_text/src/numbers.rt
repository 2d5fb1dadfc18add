// Reading a number.
ghost use Rattle.std.specs.Prelude.{◌≡◌, ℕ, ℤ, pos, negsuc, ◌+◌, ◌^◌, FitsSigned, ◌<◌, ◌≤◌, ◌↔◌, MatchOption, Ok, Err, IfOk, IfSome, IsTrue, All};
ghost use Rattle.std.specs.Bool.{MatchBool};
ghost use Rattle.std.specs.Int.{w32, w128};
ghost use Rattle.cap_text.specs.Decimals.{canonical_decimal, canonical_integer, IsDecimal, IsInteger};

use thiserror::Error;

/// The maximum number of digits with which every number fits in 64 bits.
const MOST_SHORT_DIGITS: usize = 19;

/// Why bytes are refused as a number.
#[derive(Clone, Copy, Debug, PartialEq, Eq, Error)]
pub enum NumberError {
    /// The bytes are not a canonical decimal.
    #[error("expected a canonical decimal")]
    NotANumber,
    /// The bytes are the canonical decimal of a number outside the requested range.
    #[error("the number is outside the requested range")]
    TooLarge,
}

/// Returns the number, at most `max`, of which `bytes` is the canonical decimal: ASCII digits only, with no leading `0`
/// except in `0` itself. It doesn't allocate.
///
/// # Errors
///
/// `NotANumber` exactly if `bytes` isn't a canonical decimal; `TooLarge` exactly if it is one of a number above `max`,
/// which may exceed 64 bits.
pub fn read_dec(bytes: &[u8], max: u64) -> Result<u64, NumberError>
    ensures number { IfOk result (λ n. (bytes.now ≡ canonical_decimal n) × (n ≤ max)) }
    ensures reads { (n : ℕ) → n ≤ max → bytes.now ≡ canonical_decimal n → result ≡ Ok n }
    ensures not_a_number { (result ≡ Err NumberError.NotANumber) ↔ (¬ IsDecimal bytes.now) }
    ensures too_large { (result ≡ Err NumberError.TooLarge)
        ↔ ((n : ℕ) × (bytes.now ≡ canonical_decimal n) × (max < n)) }
{
    match short_number(bytes) {
        Some(number) => {
            if number <= max {
                Ok(number)
            } else {
                Err(NumberError::TooLarge)
            }
        }
        None => read_any_dec(bytes, max),
    }
}

// `read_dec` for any number of digits.
#[inline(never)]
fn read_any_dec(bytes: &[u8], max: u64) -> Result<u64, NumberError>
    ensures number { IfOk result (λ n. (bytes.now ≡ canonical_decimal n) × (n ≤ max)) }
    ensures reads { (n : ℕ) → n ≤ max → bytes.now ≡ canonical_decimal n → result ≡ Ok n }
    ensures not_a_number { (result ≡ Err NumberError.NotANumber) ↔ (¬ IsDecimal bytes.now) }
    ensures too_large { (result ≡ Err NumberError.TooLarge)
        ↔ ((n : ℕ) × (bytes.now ≡ canonical_decimal n) × (max < n)) }
{
    let number = read_up_to(bytes, u128::from(max))?;
    Ok(number as u64)
}

// The number of at most 19 digits of which the bytes are the canonical decimal: it fits in 64 bits, so no step tests
// for overflow.
fn short_number(bytes: &[u8]) -> Option<u64>
    ensures { IfSome result (λ n. (bytes.now ≡ canonical_decimal n) × (n < 2 ^ 64)) }
{
    let Some((first, rest)) = bytes.split_first() else {
        return None;
    };
    if *first == b'0' {
        if rest.is_empty() {
            return Some(0);
        }
        return None;
    }
    if rest.len() >= MOST_SHORT_DIGITS {
        return None;
    }
    let mut number: u64 = 0;
    for byte in bytes {
        if *byte < b'0' || b'9' < *byte {
            return None;
        }
        number = number * 10 + u64::from(*byte - b'0');
    }
    Some(number)
}

// `read_dec` in 128 bits.
fn read_up_to(bytes: &[u8], max: u128) -> Result<u128, NumberError>
    ensures number { IfOk result (λ n. (bytes.now ≡ canonical_decimal n) × (n ≤ max)) }
    ensures not_a_number { (result ≡ Err NumberError.NotANumber) ↔ (¬ IsDecimal bytes.now) }
    ensures too_large { (result ≡ Err NumberError.TooLarge)
        ↔ ((n : ℕ) × (bytes.now ≡ canonical_decimal n) × (max < n)) }
{
    if !is_decimal(bytes) {
        return Err(NumberError::NotANumber);
    }
    match number_of(bytes) {
        Some(number) if number <= max => Ok(number),
        _ => Err(NumberError::TooLarge),
    }
}

// Whether the bytes are a canonical decimal.
fn is_decimal(bytes: &[u8]) -> bool
    ensures { MatchBool result (IsDecimal bytes.now) (¬ IsDecimal bytes.now) }
{
    let Some((first, rest)) = bytes.split_first() else {
        return false;
    };
    if *first == b'0' {
        rest.is_empty()
    } else {
        all_digits(bytes)
    }
}

// Whether every byte is an ASCII digit.
fn all_digits(bytes: &[u8]) -> bool
    ensures { IsTrue result ↔ All (λ byte. (48 ≤ byte) × (byte ≤ 57)) bytes.now }
{
    bytes.iter().all(|byte| (b'0'..=b'9').contains(byte))
}

// The number of a canonical decimal, if it fits in 128 bits.
#[inline(never)]
fn number_of(digits: &[u8]) -> Option<u128>
    requires { IsDecimal digits.now }
    ensures { MatchOption result
        ((n : ℕ) × (digits.now ≡ canonical_decimal n) × (2 ^ 128 ≤ n))
        (λ n. digits.now ≡ canonical_decimal n) }
{
    let mut number: u128 = 0;
    for digit in digits {
        let tens = number.checked_mul(10)?;
        number = tens.checked_add(u128::from(*digit - b'0'))?;
    }
    Some(number)
}

/// Returns the signed number of 32 bits of which `bytes` is the canonical decimal: as for `read_dec`, after one `-` if
/// it is negative, so `0` has no sign. It doesn't allocate.
///
/// # Errors
///
/// `NotANumber` exactly if `bytes` isn't such a decimal; `TooLarge` exactly if it is one of a number outside 32 bits.
pub fn read_signed(bytes: &[u8]) -> Result<i32, NumberError>
    ensures number { IfOk result (λ z. bytes.now ≡ canonical_integer z) }
    ensures reads { (z : ℤ) → FitsSigned w32 z → bytes.now ≡ canonical_integer z → result ≡ Ok z }
    ensures not_a_number { (result ≡ Err NumberError.NotANumber) ↔ (¬ IsInteger bytes.now) }
    ensures too_large { (result ≡ Err NumberError.TooLarge)
        ↔ ((z : ℤ) × (bytes.now ≡ canonical_integer z) × (¬ FitsSigned w32 z)) }
{
    match read_wide(bytes) {
        Ok(number) if -0x8000_0000 <= number && number <= 0x7fff_ffff => Ok(number as i32),
        Ok(_) => Err(NumberError::TooLarge),
        Err(error) => Err(error),
    }
}

/// Returns the signed number of 128 bits of which `bytes` is the canonical decimal. It doesn't allocate.
///
/// # Errors
///
/// `NotANumber` exactly if `bytes` isn't such a decimal; `TooLarge` exactly if it is one of a number outside 128 bits.
pub fn read_wide(bytes: &[u8]) -> Result<i128, NumberError>
    ensures number { IfOk result (λ z. bytes.now ≡ canonical_integer z) }
    ensures reads { (z : ℤ) → FitsSigned w128 z → bytes.now ≡ canonical_integer z → result ≡ Ok z }
    ensures not_a_number { (result ≡ Err NumberError.NotANumber) ↔ (¬ IsInteger bytes.now) }
    ensures too_large { (result ≡ Err NumberError.TooLarge)
        ↔ ((z : ℤ) × (bytes.now ≡ canonical_integer z) × (¬ FitsSigned w128 z)) }
{
    let Some((first, size)) = bytes.split_first() else {
        return Err(NumberError::NotANumber);
    };
    if *first == b'-' {
        read_negative(size)
    } else {
        read_natural(bytes)
    }
}

// The number, at least 0 and of at most 127 bits.
fn read_natural(bytes: &[u8]) -> Result<i128, NumberError>
    ensures number { IfOk result (λ z. (n : ℕ) × (z ≡ pos n) × (bytes.now ≡ canonical_decimal n)) }
    ensures not_a_number { (result ≡ Err NumberError.NotANumber) ↔ (¬ IsDecimal bytes.now) }
    ensures too_large { (result ≡ Err NumberError.TooLarge)
        ↔ ((n : ℕ) × (bytes.now ≡ canonical_decimal n) × (2 ^ 127 ≤ n)) }
{
    match short_number(bytes) {
        Some(number) => Ok(i128::from(number)),
        None => read_any_natural(bytes),
    }
}

// `read_natural` for any number of digits.
#[inline(never)]
fn read_any_natural(bytes: &[u8]) -> Result<i128, NumberError>
    ensures number { IfOk result (λ z. (n : ℕ) × (z ≡ pos n) × (bytes.now ≡ canonical_decimal n)) }
    ensures not_a_number { (result ≡ Err NumberError.NotANumber) ↔ (¬ IsDecimal bytes.now) }
    ensures too_large { (result ≡ Err NumberError.TooLarge)
        ↔ ((n : ℕ) × (bytes.now ≡ canonical_decimal n) × (2 ^ 127 ≤ n)) }
{
    let number = read_up_to(bytes, (1 << 127) - 1)?;
    Ok(number as i128)
}

// The negative number with the magnitude that the bytes spell.
fn read_negative(size: &[u8]) -> Result<i128, NumberError>
    ensures number { IfOk result (λ z. (n : ℕ) × (z ≡ negsuc n) × (size.now ≡ canonical_decimal (n + 1))) }
    ensures not_a_number { (result ≡ Err NumberError.NotANumber)
        ↔ ((n : ℕ) → size.now ≡ canonical_decimal (n + 1) → ⊥) }
    ensures too_large { (result ≡ Err NumberError.TooLarge)
        ↔ ((n : ℕ) × (size.now ≡ canonical_decimal (n + 1)) × (2 ^ 127 ≤ n)) }
{
    match read_up_to(size, 1 << 127) {
        Ok(number) if number > 0 => Ok(-1 - (number - 1) as i128),
        Ok(_) => Err(NumberError::NotANumber),
        Err(error) => Err(error),
    }
}
