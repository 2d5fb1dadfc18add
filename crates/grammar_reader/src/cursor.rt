// The tokens still to be read, and functions that take one token.
ghost use Rattle.std.specs.Prelude.{◌≡◌, ◌≢◌, ◌≤◌, ◌<◌, ◌+◌, ◌⊎◌, IfOk, IfErr, length};
ghost use Rattle.c_lex.specs.Places.{lexeme_of};
ghost use Rattle.c_tree.specs.RawViews.{name_tree};
ghost use Rattle.c_grammar.specs.declared.errors.ParseError.TheVariants.{Unexpected, TooDeep, Memory};
ghost use Rattle.c_grammar.specs.declared.signs.Sign.{Sign};
ghost use Rattle.c_grammar.specs.Tokens.{next_sign, next_kind, next_place, rest_of, Passes, PassesName, PassesNumber, IsNotOpened};

use c_grammar::{ParseError, Sign, sign_of};
use c_lex::{Token, TokenKind};
use c_tree::Name;
use std::alloc::Global;

/// The maximum number of constructs that may be open at a token.
pub(crate) const MOST_OPEN: u32 = 64;

/// The source of the tokens.
#[derive(Clone, Copy)]
pub struct Text<'a> {
    /// The allocator of names.
    pub alloc: Global,
    /// The bytes.
    pub bytes: &'a [u8],
    /// The number of bytes.
    pub end: u32,
}

/// The remaining tokens.
#[derive(Drop)]
pub struct Cursor<'a> {
    /// The next token first.
    pub tokens: &'a [Token],
}

impl<'a> Cursor<'a> {
    /// Returns the kind of the next token, if there is one.
    pub(crate) fn kind(&self) -> Option<TokenKind>
        ensures { result ≡ next_kind self.now.tokens.now }
    {
        match self.tokens.split_first() {
            Some((token, _)) => Some(token.kind),
            None => None,
        }
    }

    /// Returns the class of the next token in the grammar, or `Finish` at the end.
    pub(crate) fn sign(&self) -> Sign
        ensures { result ≡ next_sign self.now.tokens.now }
    {
        match self.tokens.split_first() {
            Some((token, _)) => sign_of(token.kind),
            None => Sign::Finish,
        }
    }

    /// Returns the place of the next token, or of the end of the source.
    pub(crate) fn place(&self, text: Text) -> u32
        ensures { result ≡ next_place text.entry.end self.now.tokens.now }
    {
        match self.tokens.split_first() {
            Some((token, _)) => token.at,
            None => text.end,
        }
    }

    /// Skips the next token.
    pub(crate) fn pass(&mut self)
        ensures { self.new.tokens.now ≡ rest_of self.old.tokens.now }
    {
        if let Some((_, rest)) = self.tokens.split_first() {
            self.tokens = rest;
        }
    }

    /// Returns the refusal of the next token, or of the end of the source.
    pub(crate) fn unexpected(&self, text: Text) -> ParseError
        ensures { result ≡ Unexpected (next_place text.entry.end self.now.tokens.now) }
    {
        ParseError::Unexpected {
            at: self.place(text),
        }
    }

    /// Takes a token of this class.
    pub(crate) fn take(&mut self, text: Text, sign: Sign) -> Result<(), ParseError>
        ensures taken { IfOk result (λ _. Passes sign self.old.tokens.now self.new.tokens.now) }
        ensures place { IfErr result (λ error. error ≡ Unexpected (next_place text.entry.end self.old.tokens.now)) }
        ensures other { IfErr result (λ error. next_sign self.old.tokens.now ≢ sign) }
    {
        if self.sign() == sign {
            self.pass();
            Ok(())
        } else {
            Err(self.unexpected(text))
        }
    }

    /// Skips the next token, at which one more construct than `depth` is open, and returns the
    /// number of open constructs there.
    pub(crate) fn open(&mut self, text: Text, depth: u32) -> Result<u32, ParseError>
        ensures taken { IfOk result (λ inside. (inside ≡ 1 + depth) × (self.new.tokens.now ≡ rest_of self.old.tokens.now)) }
        ensures fits { IfOk result (λ inside. inside ≤ 64) }
        ensures deep { IfErr result (λ error. (error ≡ TooDeep (next_place text.entry.end self.old.tokens.now)) × (64 ≤ depth)) }
    {
        if depth < MOST_OPEN {
            self.pass();
            Ok(1 + depth)
        } else {
            Err(ParseError::TooDeep {
                at: self.place(text),
            })
        }
    }

    /// Takes a token of this class, at which one more construct than `depth` is open, and returns
    /// the number of open constructs there.
    pub(crate) fn open_with(
        &mut self,
        text: Text,
        sign: Sign,
        depth: u32,
    ) -> Result<u32, ParseError>
        ensures opened { IfOk result (λ inside. (inside ≡ 1 + depth) × Passes sign self.old.tokens.now self.new.tokens.now) }
        ensures fits { IfOk result (λ inside. inside ≤ 64) }
        ensures refused { IfErr result (λ error. IsNotOpened text.entry.end depth sign self.old.tokens.now error) }
    {
        if self.sign() == sign {
            self.open(text, depth)
        } else {
            Err(self.unexpected(text))
        }
    }

    /// Takes a number, and returns its value.
    pub(crate) fn take_number(&mut self, text: Text) -> Result<u32, ParseError>
        ensures taken { IfOk result (λ value. PassesNumber self.old.tokens.now value self.new.tokens.now) }
        ensures place { IfErr result (λ error. error ≡ Unexpected (next_place text.entry.end self.old.tokens.now)) }
        ensures other { IfErr result (λ error. next_sign self.old.tokens.now ≢ Sign.Number) }
    {
        if let Some(TokenKind::Number { value }) = self.kind() {
            self.pass();
            Ok(value)
        } else {
            Err(self.unexpected(text))
        }
    }

    /// Takes a name, and returns it.
    pub(crate) fn take_name(&mut self, text: Text) -> Result<Name, ParseError>
        ensures taken { IfOk result (λ name. PassesName text.entry.bytes.now self.old.tokens.now (name_tree name) self.new.tokens.now) }
        ensures refused { IfErr result (λ error. (error ≡ Memory) ⊎ ((error ≡ Unexpected (next_place text.entry.end self.old.tokens.now)) × (next_sign self.old.tokens.now ≢ Sign.Name))) }
    {
        match self.tokens.split_first() {
            Some((token, rest)) => {
                if sign_of(token.kind) != Sign::Name {
                    return Err(self.unexpected(text));
                }
                let name = name_at(text, *token)?;
                self.tokens = rest;
                Ok(name)
            }
            None => Err(self.unexpected(text)),
        }
    }
}

// The name at a token: its place, and the bytes of the source there.
fn name_at(text: Text, token: Token) -> Result<Name, ParseError>
    ensures named { IfOk result (λ name. name_tree name ≡ record { at = token.at; text = lexeme_of text.entry.bytes.now token }) }
    ensures memory { IfErr result (λ error. error ≡ Memory) }
{
    let length = text.bytes.len();
    let from = length.min(token.at as usize);
    let to = length.min(token.at as usize + token.length as usize);
    Ok(Name {
        at: token.at,
        text: Vec::from_slice(text.alloc, &text.bytes[from..to])?,
    })
}
