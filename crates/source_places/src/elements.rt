use c_lex::{Keyword, Mark, Token, TokenKind};
use std::alloc::{AllocError, Global};

/// A name followed by an index, or the declaration of an array.
#[derive(Clone, Copy)]
pub(crate) struct Element {
    /// The place of the name.
    pub(crate) at: u32,
    /// The declared number of words, if this is the declaration.
    pub(crate) declared: Option<u32>,
    /// Whether a value is assigned to it.
    pub(crate) is_assigned: bool,
}

/// What the tokens so far say of the next one.
#[derive(Clone, Copy)]
struct Before {
    /// A declaration is in progress.
    declares: bool,
    /// The number of open parentheses and brackets in it.
    depth: u32,
    /// The next name is declared.
    is_next: bool,
}

impl Before {
    /// Returns the state after this token.
    fn with(self, kind: TokenKind) -> Before {
        match kind {
            TokenKind::Keyword(Keyword::Int) => Before {
                declares: true,
                depth: 0,
                is_next: true,
            },
            TokenKind::Mark(Mark::Comma) => Before {
                is_next: self.declares && self.depth == 0,
                ..self
            },
            TokenKind::Mark(Mark::LeftParenthesis) | TokenKind::Mark(Mark::LeftBracket) => Before {
                depth: self.depth.saturating_add(1),
                is_next: false,
                ..self
            },
            TokenKind::Mark(Mark::RightParenthesis) | TokenKind::Mark(Mark::RightBracket) =>
                Before {
                    depth: self.depth.saturating_sub(1),
                    is_next: false,
                    ..self
                },
            TokenKind::Mark(Mark::Semicolon) | TokenKind::Mark(Mark::LeftBrace) => Before {
                declares: false,
                depth: 0,
                is_next: false,
            },
            _ => Before {
                is_next: false,
                ..self
            },
        }
    }
}

/// Returns the elements and declarations of arrays between two places of a source with these tokens.
pub(crate) fn elements_of(
    alloc: Global,
    tokens: &[Token],
    from: u32,
    to: u32,
) -> Result<Vec<Element>, AllocError> {
    let mut elements = Vec::new(alloc);
    let mut before = Before {
        declares: false,
        depth: 0,
        is_next: false,
    };
    let mut place: usize = 0;
    for token in tokens {
        place = place.saturating_add(1);
        if from <= token.at && token.at < to {
            if token.kind == TokenKind::Name && is_bracket(tokens, place) {
                let declared = if before.is_next {
                    number_at(tokens, place.saturating_add(1))
                } else {
                    None
                };
                elements.push(Element {
                    at: token.at,
                    declared,
                    is_assigned: is_assigned(tokens, token.at),
                })?;
            }
            before = before.with(token.kind);
        }
    }
    Ok(elements)
}

/// Checks whether the token of that number is `[`.
fn is_bracket(tokens: &[Token], number: usize) -> bool {
    match tokens.get(number) {
        Some(token) => token.kind == TokenKind::Mark(Mark::LeftBracket),
        None => false,
    }
}

/// Checks whether `=` follows the index of the element whose name is at that place.
fn is_assigned(tokens: &[Token], at: u32) -> bool {
    let mut depth: u32 = 0;
    let mut is_behind = false;
    for token in tokens {
        if token.at > at {
            if is_behind {
                return token.kind == TokenKind::Mark(Mark::Assign);
            }
            match token.kind {
                TokenKind::Mark(Mark::LeftBracket) => depth = depth.saturating_add(1),
                TokenKind::Mark(Mark::RightBracket) => {
                    depth = depth.saturating_sub(1);
                    is_behind = depth == 0;
                }
                _ => (),
            }
        }
    }
    false
}

/// Returns the value of the token of that number, if it is a number.
fn number_at(tokens: &[Token], number: usize) -> Option<u32> {
    match tokens.get(number)?.kind {
        TokenKind::Number { value } => Some(value),
        _ => None,
    }
}
