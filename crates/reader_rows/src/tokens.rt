// Sources and their tokens, or their refusal.

use crate::lines::{first_line, number, wanted};
use c_lex::{
    Keyword, LexError, Mark, Token, TokenKind, lex, reading_is_unique, tokens_stand_in_source,
};
use std::alloc::Global;

// Each token with its place and its length, and `end`; or the refusal with its place.
const ROWS: &str = "end: 
name 1 1, end:  x // y
30 0 4, + 4 1, 2 5 1, end: 0x1e+2
name 0 1, ++ 1 2, + 3 1, name 4 1, end: a+++b
name 0 1, name 2 1, name 4 1, name 6 1, end: a\rb\x0cc\x0bd
4294967295 0 10, 4294967295 11 10, end: 0xffffffff 4294967295
name 0 1, -> 1 2, name 3 1, end: p->q
name 0 1, <<= 1 3, 0 4 1, end: x<<=0
int 0 3, name 4 7, end: int integer
_Bool 0 5, name 6 5, end: _Bool _bool
175 0 4, end: 0XAf
OpenComment 0: /* x
BadByte 17: int main() { put(\"x\"); }
BadNumber 17: int main() { put(08); return 0; }
OpenComment 0: /*/
BadNumber 0: 4294967296
BadNumber 0: 0X
BadNumber 2: x 12u
BadNumber 0: 0x100000000";

// Returns the name of a token's kind, unless it is a number.
fn word(kind: TokenKind) -> &'static str {
    match kind {
        TokenKind::Name => "name",
        TokenKind::Number { .. } => "",
        TokenKind::Keyword(keyword) => keyword.text(),
        TokenKind::Mark(mark) => mark.text(),
    }
}

// Checks whether the token has this word or number, place and length.
fn is_token(token: Token, told: &str) -> bool {
    let Some((what, numbers)) = told.split_once(' ') else {
        return false;
    };
    let Some((at, length)) = numbers.split_once(' ') else {
        return false;
    };
    let is_kind = match token.kind {
        TokenKind::Number { value } => number(what) == value as usize,
        kind => what == word(kind),
    };
    is_kind && number(at) == token.at as usize && number(length) == token.length as usize
}

// Checks whether these are the tokens.
fn are_tokens(tokens: &[Token], told: &str) -> bool {
    let mut told = told;
    for token in tokens {
        let Some((one, after)) = told.split_once(", ") else {
            return false;
        };
        if !is_token(*token, one) {
            return false;
        }
        told = after;
    }
    told == "end"
}

// Checks whether a refusal is this one.
fn is_refusal(error: LexError, told: &str) -> bool {
    let (name, place) = match error {
        LexError::BadByte { at } => ("BadByte", at),
        LexError::OpenComment { at } => ("OpenComment", at),
        LexError::BadNumber { at } => ("BadNumber", at),
        LexError::Memory => ("Memory", 0),
    };
    match told.split_once(' ') {
        Some((wanted, at)) => wanted == name && number(at) == place as usize,
        None => false,
    }
}

// Checks whether the source has these tokens, or this refusal.
fn gives(alloc: Global, source: &[u8], want: &str) -> bool {
    if source.len() > 1048576 {
        return false;
    }
    match lex(alloc, source) {
        Ok(tokens) => {
            let same = are_tokens(&tokens, want);
            drop(tokens);
            same
        }
        Err(error) => is_refusal(error, want),
    }
}

#[test]
fn splits_and_refuses(rt: HostRuntime) {
    let mut rows = ROWS;
    for _ in 0..19 {
        let (row, after) = first_line(rows);
        let (want, source) = wanted(row);
        assert!(rt; gives(rt.alloc(), source.as_bytes(), want), "{row}");
        rows = after;
    }
    assert!(rt; rows.is_empty());
    let lines = b"a/**/b/*x*/ //y\n/";
    assert!(rt; gives(rt.alloc(), lines, "name 0 1, name 5 1, / 16 1, end"));
    assert!(rt; gives(rt.alloc(), b"\x80", "BadByte 0"));
}

// Returns the number of tokens of a source of `lines` such lines, or 0.
fn count(alloc: Global, line: &[u8], lines: usize) -> usize {
    let mut source = Vec::new(alloc);
    for _ in 0..lines {
        if source.extend_from_slice(line).is_err() {
            return 0;
        }
    }
    if source.len() != 1048575 {
        return 0;
    }
    match lex(alloc, &source) {
        Ok(tokens) => tokens.len(),
        Err(_) => 0,
    }
}

// Nearly the longest source: 31,775 lines with nine tokens and a comment each.
#[test]
fn reads_a_megabyte(rt: HostRuntime) {
    let line = b"int x1 = 0x10 + y << 2;  // note\n";
    assert!(rt; count(rt.alloc(), line, 31775) == 9 * 31775);
}

// Calls the laws, which have no effect at run time.
#[test]
fn laws(rt: HostRuntime) {
    reading_is_unique();
    tokens_stand_in_source();
    assert!(rt;
        Keyword::ThreadLocal.text() == "_Thread_local" && Mark::ShiftRightAssign.text() == ">>="
    );
}
