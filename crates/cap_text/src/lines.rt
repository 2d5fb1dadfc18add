// The lines of a text.
ghost use Rattle.std.specs.Prelude.{◌≡◌, ℕ, List, ◌==◌, position};
ghost use Rattle.std.specs.Iterator.{YieldsFirstRef, item_count};
ghost use Rattle.cap_text.specs.TextLines.{lines_of};

use std::marker::Model;

/// An iterator over the lines of a text: the pieces between its line feeds (LF, byte 10). An empty last piece isn't a
/// line, so a text that ends with LF has as many lines as line feeds.
///
/// `next` returns the first remaining line, and `None` exactly at the end and from then on. It doesn't allocate.
#[derive(Drop)]
pub struct Lines<'a> {
    rest: &'a [u8],
}

impl<'a> Model for Lines<'a> {
    // The remaining lines.
    ghost Value = { List (List ℕ) };

    ghost view = { λ lines. lines_of lines.rest.now };
}

impl<'a> Lines<'a> {
    /// Returns the lines of `bytes`.
    pub fn new(bytes: &'a [u8]) -> Self
        ensures { result ≡ lines_of bytes.now }
    {
        Lines { rest: bytes }
    }
}

impl<'a> Iterator for Lines<'a> {
    type Item = &'a [u8];

    ghost next_gives = { YieldsFirstRef (λ lines. lines) };

    ghost remaining = { item_count (λ lines. lines) };

    fn next(&mut self) -> Option<&'a [u8]> {
        if self.rest.is_empty() {
            return None;
        }
        match line_end(self.rest) {
            Some(end) => {
                let line = &self.rest[..end];
                self.rest = &self.rest[end + 1..];
                Some(line)
            }
            None => {
                let line = self.rest;
                self.rest = &[];
                Some(line)
            }
        }
    }
}

// The index of the first line feed.
fn line_end(bytes: &[u8]) -> Option<usize>
    ensures { result ≡ position (λ byte. byte == 10) bytes.now }
{
    bytes.iter().position(|byte| *byte == b'\n')
}
