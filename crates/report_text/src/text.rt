use std::alloc::{AllocError, Global};
use std::fmt;
use std::marker::Model;

/// A text that is written piece by piece. If memory runs out for a piece, it takes no further piece and isn't complete.
/// So functions that write to it return no errors, and its reader checks whether it is complete.
#[derive(Drop)]
pub struct Text {
    written: String,
    is_whole: bool,
}

impl Model for Text {
    ghost use Rattle.std.specs.String.{string_bytes};
    ghost use Rattle.report_text.specs.Written.{Written};

    // The bytes that were written, in UTF-8, and whether there was memory for all of them.
    ghost Value = { Written };

    ghost view = { λ text. record { bytes = string_bytes text.written; is_whole = text.is_whole } };
}

impl Text {
    ghost use Rattle.std.specs.Prelude.{◌≡◌, [], true, false, flat_map, IfOk, IfSome, OnErr};
    ghost use Rattle.std.specs.Char.{encode_utf8};
    ghost use Rattle.std.specs.String.{string_bytes};
    ghost use Rattle.report_text.specs.Written.{Adds, Extends, Fills, counted, filled};

    /// Returns an empty text. It doesn't allocate.
    pub fn new(alloc: Global) -> Text
        ensures bytes { result.bytes ≡ [] }
        ensures whole { result.is_whole ≡ true }
    {
        Text {
            written: String::new(alloc),
            is_whole: true,
        }
    }

    /// Returns what was written, if it is complete.
    pub fn whole(&self) -> Result<&str, AllocError>
        ensures ok { IfOk result (λ text. (text.now ≡ self.now.bytes) × (self.now.is_whole ≡ true)) }
        ensures err { OnErr result (self.now.is_whole ≡ false) }
    {
        if self.is_whole {
            Ok(self.written.as_str())
        } else {
            Err(AllocError)
        }
    }

    /// Consumes the text and returns what was written, if it is complete.
    pub fn into_whole(self) -> Result<String, AllocError>
        ensures ok { IfOk result (λ text. (string_bytes text ≡ self.bytes) × (self.is_whole ≡ true)) }
        ensures err { OnErr result (self.is_whole ≡ false) }
    {
        let Text { written, is_whole } = self;
        if is_whole {
            Ok(written)
        } else {
            drop(written);
            Err(AllocError)
        }
    }

    /// Marks the text as incomplete: memory ran out for the next piece.
    pub fn lack(&mut self)
        ensures { self.new.is_whole ≡ false }
    {
        self.is_whole = false;
    }

    /// Appends words as they are.
    pub fn words(&mut self, words: &str)
        ensures { Adds words.now self.old self.new }
    {
        if self.is_whole {
            self.is_whole = self.written.push_str(words).is_ok();
        }
    }

    /// Appends a character.
    fn character(&mut self, character: char)
        ensures { Adds (encode_utf8 character) self.old self.new }
    {
        if self.is_whole {
            self.is_whole = self.written.push(character).is_ok();
        }
    }

    /// Appends the `Display` output of a value: a line of a report, a part of one, or a number in decimal digits.
    pub fn line<L: fmt::Display>(&mut self, line: &L)
        ensures { IfSome (L.output line.now) (λ bytes. Adds bytes self.old self.new) }
    {
        if self.is_whole {
            self.is_whole = write!(self.written, "{line}").is_ok();
        }
    }

    /// Appends a form, in which each `$` is replaced by the next of the numbers, in decimal digits.
    pub fn form(&mut self, form: &str, numbers: &[u64])
        ensures { Adds (filled form.now numbers.now) self.old self.new }
    {
        let mut rest = form;
        for number in numbers {
            rest = self.fill(rest, *number);
        }
        self.words(rest)
    }

    /// Appends a form up to its first `$`, with the number in place of it, and returns the rest of the form. Appends
    /// nothing if there is no `$`.
    fn fill<'a>(&mut self, form: &'a str, number: u64) -> &'a str
        ensures { Fills number form.now result.now self.old self.new }
    {
        match form.split_once('$') {
            Some((before, after)) => {
                self.words(before);
                self.line(&number);
                after
            }
            None => form,
        }
    }

    /// Appends a number and its noun: `one` for 1, and `more` for every other number.
    pub fn counted(&mut self, number: u64, one: &str, more: &str)
        ensures { Adds (counted number one.now more.now) self.old self.new }
    {
        self.line(&number);
        self.words(" ");
        self.words(if number == 1 { one } else { more })
    }

    /// Appends bytes as characters.
    pub fn bytes(&mut self, bytes: &[u8])
        ensures { Adds (flat_map encode_utf8 bytes.now) self.old self.new }
    {
        for byte in bytes {
            self.character(char::from(*byte));
        }
    }

    /// Appends a name as the text of an SVG element, with `&`, `<` and `>` as entities.
    pub fn escaped(&mut self, name: &str)
        ensures { Extends self.old self.new }
    {
        for character in name.chars() {
            match character {
                '&' => self.words("&amp;"),
                '<' => self.words("&lt;"),
                '>' => self.words("&gt;"),
                other => self.character(other),
            }
        }
    }

    /// Appends a name as a quoted string of DOT, without its quotes.
    pub fn quoted(&mut self, name: &str)
        ensures { Extends self.old self.new }
    {
        for character in name.chars() {
            match character {
                '"' => self.words("\\\""),
                '\\' => self.words("\\\\"),
                other => self.character(other),
            }
        }
    }
}
