// The fields of a line, read one after another.
ghost use Rattle.std.specs.Prelude.{◌≡◌, ℕ, ℤ, List, [], ◌∷◌, ◌^◌, ◌<◌, ◌≤◌, ◌==◌, length, MatchOption, IfSome, IfNone, FitsSigned, position};
ghost use Rattle.std.specs.Int.{w32, w128};
ghost use Rattle.cap_text.specs.Decimals.{canonical_decimal, canonical_integer};
ghost use Rattle.cap_text.specs.Pieces.{pieces, pieces_left};

use crate::{read_dec, read_signed, read_wide};
use std::marker::Model;

/// An iterator over the pieces of a text between separators. Contracts see the list of the remaining pieces. An empty
/// text is one empty piece, and between two adjacent separators there is an empty piece.
///
/// No call allocates. The calls that read a number consume a piece, whether or not it is a number.
#[derive(Drop)]
pub struct Fields<'a> {
    rest: Option<&'a [u8]>,
    separator: u8,
}

impl<'a> Model for Fields<'a> {
    ghost Value = { List (List ℕ) };

    ghost view = { λ fields. pieces_left fields.separator fields.rest };
}

impl<'a> Fields<'a> {
    /// Returns the pieces of `text` between the bytes `separator`.
    pub fn new(text: &'a [u8], separator: u8) -> Self
        ensures { result ≡ pieces separator text.now }
    {
        Fields {
            rest: Some(text),
            separator,
        }
    }

    /// Returns whether no piece remains.
    pub fn is_over(&self) -> bool
        ensures { result ≡ (length self.now == 0) }
    {
        self.rest.is_none()
    }

    /// Returns the next piece, or `None` exactly if no piece remains.
    pub fn next(&mut self) -> Option<&'a [u8]>
        ensures { MatchOption result ((self.old ≡ []) × (self.new ≡ [])) (λ field. self.old ≡ field.now ∷ self.new) }
    {
        let rest = self.rest?;
        match place_of(rest, self.separator) {
            Some(place) => {
                self.rest = Some(&rest[place + 1..]);
                Some(&rest[..place])
            }
            None => {
                self.rest = None;
                Some(rest)
            }
        }
    }

    /// Returns the number from 0 to `max` of which the next piece is the canonical decimal; `None` exactly if there
    /// is none.
    pub fn number(&mut self, max: u64) -> Option<u64>
        ensures found { IfSome result (λ n. (self.old ≡ canonical_decimal n ∷ self.new) × (n ≤ max)) }
        ensures none { IfNone result
            ((n : ℕ) (rest : List (List ℕ)) → n ≤ max → self.old ≡ canonical_decimal n ∷ rest → ⊥) }
    {
        let field = self.next()?;
        read_dec(field, max).ok()
    }

    /// Returns the next piece as a number of 32 bits, like `number`.
    pub fn word(&mut self) -> Option<u32>
        ensures found { IfSome result (λ n. (self.old ≡ canonical_decimal n ∷ self.new) × (n < 2 ^ 32)) }
        ensures none { IfNone result
            ((n : ℕ) (rest : List (List ℕ)) → n < 2 ^ 32 → self.old ≡ canonical_decimal n ∷ rest → ⊥) }
    {
        let number = self.number(0xffff_ffff)?;
        Some(number as u32)
    }

    /// Returns the next piece as a number of 64 bits, like `number`.
    pub fn count(&mut self) -> Option<u64>
        ensures found { IfSome result (λ n. (self.old ≡ canonical_decimal n ∷ self.new) × (n < 2 ^ 64)) }
        ensures none { IfNone result
            ((n : ℕ) (rest : List (List ℕ)) → n < 2 ^ 64 → self.old ≡ canonical_decimal n ∷ rest → ⊥) }
    {
        self.number(0xffff_ffff_ffff_ffff)
    }

    /// Returns the next piece as a signed number of 32 bits, like `number`.
    pub fn signed(&mut self) -> Option<i32>
        ensures found { IfSome result (λ z. (self.old ≡ canonical_integer z ∷ self.new) × FitsSigned w32 z) }
        ensures none { IfNone result
            ((z : ℤ) (rest : List (List ℕ)) → FitsSigned w32 z → self.old ≡ canonical_integer z ∷ rest → ⊥) }
    {
        let field = self.next()?;
        read_signed(field).ok()
    }

    /// Returns the next piece as a signed number of 128 bits, like `number`.
    pub fn wide(&mut self) -> Option<i128>
        ensures found { IfSome result (λ z. (self.old ≡ canonical_integer z ∷ self.new) × FitsSigned w128 z) }
        ensures none { IfNone result
            ((z : ℤ) (rest : List (List ℕ)) → FitsSigned w128 z → self.old ≡ canonical_integer z ∷ rest → ⊥) }
    {
        let field = self.next()?;
        read_wide(field).ok()
    }

    /// Returns `None` exactly if a piece remains.
    pub fn end(&self) -> Option<()>
        ensures found { IfSome result (λ _. self.now ≡ []) }
        ensures none { IfNone result (self.now ≡ [] → ⊥) }
    {
        self.is_over().then_some(())
    }
}

// The first index of a byte.
fn place_of(text: &[u8], sought: u8) -> Option<usize>
    ensures { result ≡ position (λ byte. byte == sought) text.now }
{
    text.iter().position(|byte| *byte == sought)
}
