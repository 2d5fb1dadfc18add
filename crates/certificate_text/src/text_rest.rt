// An iterator over the lines of a text that end with LF.
ghost use Rattle.std.specs.Prelude.{◌≡◌, ℕ, List, [], ◌∷◌, ◌++◌, ◌==◌, ◌<◌, ◌≤◌, length, position, MatchOption, IfSome, IfNone, IsTrue, ◌↔◌};
ghost use Rattle.cap_text.specs.Decimals.{canonical_decimal};
ghost use Rattle.cap_text.specs.Pieces.{Lacks};

use cap_text::read_dec;
use std::marker::Model;

/// The rest of a text. Contracts see its bytes.
#[derive(Drop)]
pub(crate) struct TextRest<'a> {
    bytes: &'a [u8],
}

impl<'a> Model for TextRest<'a> {
    ghost use Rattle.std.specs.Prelude.{ℕ, List};

    ghost Value = { List ℕ };

    ghost view = { λ rest. rest.bytes.now };
}

impl<'a> TextRest<'a> {
    /// Returns the whole of a text as its rest.
    pub fn new(bytes: &'a [u8]) -> Self
        ensures { result ≡ bytes.now }
    {
        TextRest { bytes }
    }

    /// Returns whether the rest is empty.
    pub fn is_over(&self) -> bool
        ensures { result ≡ (length self.now == 0) }
    {
        self.bytes.is_empty()
    }

    /// Returns the next line that ends with LF, without the LF; `None` if no LF is left.
    pub fn next_line(&mut self) -> Option<&'a [u8]>
        ensures line { IfSome result (λ line. (self.old ≡ line.now ++ 10 ∷ self.new) × Lacks 10 line.now) }
        ensures none { IfNone result ((line more : List ℕ) → self.old ≡ line ++ 10 ∷ more → ⊥) }
    {
        let end = line_end(self.bytes)?;
        let line = &self.bytes[..end];
        self.bytes = &self.bytes[end + 1..];
        Some(line)
    }

    /// Returns the number from 0 to `most` on a line that is `start` followed by its canonical
    /// decimal.
    pub fn number_line(&mut self, start: &[u8], most: u32) -> Option<u32>
        requires { Lacks 10 start.now }
        ensures found { IfSome result (λ n. (n ≤ most) × (self.old ≡ (start.now ++ canonical_decimal n) ++ 10 ∷ self.new)) }
        ensures none { IfNone result ((n : ℕ) (more : List ℕ) → n ≤ most → self.old ≡ (start.now ++ canonical_decimal n) ++ 10 ∷ more → ⊥) }
    {
        let line = self.next_line()?;
        number_behind(line, start, most)
    }
}

// The number from 0 to `most` whose canonical decimal follows `start`.
fn number_behind(line: &[u8], start: &[u8], most: u32) -> Option<u32>
    ensures found { IfSome result (λ n. (n ≤ most) × (line.now ≡ start.now ++ canonical_decimal n)) }
    ensures none { IfNone result ((n : ℕ) → n ≤ most → line.now ≡ start.now ++ canonical_decimal n → ⊥) }
{
    let field = bytes_behind(line, start)?;
    let number = read_dec(field, u64::from(most)).ok()?;
    Some(number as u32)
}

// The bytes after `start` in a line that begins with it.
fn bytes_behind<'a>(line: &'a [u8], start: &[u8]) -> Option<&'a [u8]>
    ensures { MatchOption result ((rest : List ℕ) → line.now ≡ start.now ++ rest → ⊥) (λ rest. line.now ≡ start.now ++ rest.now) }
{
    line.strip_prefix(start)
}

// The index of the first line feed.
fn line_end(bytes: &[u8]) -> Option<usize>
    ensures { result ≡ position (λ byte. byte == 10) bytes.now }
{
    bytes.iter().position(|byte| *byte == b'\n')
}
