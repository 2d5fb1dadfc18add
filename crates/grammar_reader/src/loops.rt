// The parts of a `for` (ISO/IEC 9899:2018, 6.8.5.3).
ghost use Rattle.std.specs.Prelude.{◌≢◌, ◌≤◌, [], ◌∷◌, IfOk, IfErr, map, option_map};
ghost use Rattle.c_tree.specs.RawViews.{raw_expr_tree, raw_simple_tree};
ghost use Rattle.c_grammar.specs.declared.signs.Sign.{Sign};
ghost use Rattle.c_grammar.specs.Machine.{ForParts, ForInit, ForStep};
ghost use Rattle.c_grammar.specs.Tokens.{next_sign};
ghost use Rattle.grammar_reader.specs.Steps.{Refused};
ghost use Rattle.grammar_reader.specs.BodySteps.{RefusedInside, ReadsForParts, ReadsForInit, ReadsForStep};

use crate::cursor::{Cursor, Text};
use crate::held::{alone, before_sign};
use crate::plain_statements::up_to_semicolon;
use crate::simples::{locals, simple};
use c_grammar::{ParseError, Sign};
use c_tree::{RawForParts, RawSimple};

/// Reads the parts of a `for`, with their parentheses.
pub(crate) fn for_parts(
    text: Text,
    cursor: &mut Cursor,
    depth: u32,
) -> Result<RawForParts, ParseError>
    requires { depth ≤ 64 }
    ensures read { IfOk result (λ parts. ReadsForParts text.entry.bytes.now text.entry.end depth cursor.old.tokens.now (map raw_simple_tree parts.init.items) (option_map raw_expr_tree parts.condition) (option_map raw_simple_tree parts.step) cursor.new.tokens.now) }
    ensures refused { IfErr result (λ error. Refused text.entry.end depth (ForParts ∷ []) cursor.old.tokens.now error) }
{
    let inside = cursor.open_with(text, Sign::LeftParenthesis, depth)?;
    let init = for_init(text, cursor, inside)?;
    let condition = up_to_semicolon(text, cursor, inside)?;
    let step = for_step(text, cursor, inside)?;
    Ok(RawForParts {
        init,
        condition,
        step,
    })
}

// The first part, with its `;`.
fn for_init(text: Text, cursor: &mut Cursor, depth: u32) -> Result<Vec<RawSimple>, ParseError>
    requires { depth ≤ 64 }
    ensures read { IfOk result (λ init. ReadsForInit text.entry.bytes.now text.entry.end depth cursor.old.tokens.now (map raw_simple_tree init.items) cursor.new.tokens.now) }
    ensures refused { IfErr result (λ error. RefusedInside text.entry.end depth ForInit cursor.old.tokens.now error) }
{
    match cursor.sign() {
        Sign::Semicolon => {
            cursor.pass();
            Ok(Vec::new(text.alloc))
        }
        Sign::Int => locals(text, cursor, depth),
        _ => simple_init(text, cursor, depth),
    }
}

// An assignment or a call as the first part, with its `;`, if neither a `;` nor a declaration is
// next.
fn simple_init(text: Text, cursor: &mut Cursor, depth: u32) -> Result<Vec<RawSimple>, ParseError>
    requires fits { depth ≤ 64 }
    requires some { next_sign cursor.old.tokens.now ≢ Sign.Semicolon }
    requires no_locals { next_sign cursor.old.tokens.now ≢ Sign.Int }
    ensures read { IfOk result (λ init. ReadsForInit text.entry.bytes.now text.entry.end depth cursor.old.tokens.now (map raw_simple_tree init.items) cursor.new.tokens.now) }
    ensures refused { IfErr result (λ error. RefusedInside text.entry.end depth ForInit cursor.old.tokens.now error) }
{
    let first = simple(text, cursor, depth)?;
    let first = before_sign(first, text, cursor, Sign::Semicolon)?;
    alone(text, first)
}

// The last part, with the `)` after it.
fn for_step(text: Text, cursor: &mut Cursor, depth: u32) -> Result<Option<RawSimple>, ParseError>
    requires { depth ≤ 64 }
    ensures read { IfOk result (λ last. ReadsForStep text.entry.bytes.now text.entry.end depth cursor.old.tokens.now (option_map raw_simple_tree last) cursor.new.tokens.now) }
    ensures refused { IfErr result (λ error. RefusedInside text.entry.end depth ForStep cursor.old.tokens.now error) }
{
    if cursor.sign() == Sign::RightParenthesis {
        cursor.pass();
        return Ok(None);
    }
    let step = simple(text, cursor, depth)?;
    let step = before_sign(step, text, cursor, Sign::RightParenthesis)?;
    Ok(Some(step))
}
