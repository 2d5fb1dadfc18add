// Declarations of variables, assignments and calls (ISO/IEC 9899:2018, 6.5.2.2, 6.5.16 and 6.7).
ghost use Rattle.std.specs.Prelude.{◌≡◌, ◌≤◌, [], ◌∷◌, IfOk, IfErr, map};
ghost use Rattle.c_tree.specs.RawViews.{name_tree, raw_expr_tree, raw_simple_tree};
ghost use Rattle.c_grammar.specs.declared.signs.Sign.{Sign};
ghost use Rattle.c_grammar.specs.Machine.{LocalName, AfterSimpleIndex};
ghost use Rattle.c_grammar.specs.Tokens.{next_sign, rest_of};
ghost use Rattle.grammar_reader.specs.Steps.{Refused};
ghost use Rattle.grammar_reader.specs.StmtSteps.{ReadsSimple, RefusedSimple, ReadsIndexed, ReadsLocals, ReadsLocal, ReadsSize, RefusedSize};

use crate::cursor::{Cursor, Text};
use crate::expressions::{arguments, bracketed, expression, parenthesized};
use crate::held::{before_sign, both};
use c_grammar::{ParseError, Sign};
use c_tree::{Name, RawExpr, RawSimple};

/// Reads an assignment or a call.
pub(crate) fn simple(text: Text, cursor: &mut Cursor, depth: u32) -> Result<RawSimple, ParseError>
    requires { depth ≤ 64 }
    ensures read { IfOk result (λ s. ReadsSimple text.entry.bytes.now text.entry.end depth cursor.old.tokens.now (raw_simple_tree s) cursor.new.tokens.now) }
    ensures refused { IfErr result (λ error. RefusedSimple text.entry.end depth cursor.old.tokens.now error) }
{
    let name = cursor.take_name(text)?;
    match cursor.sign() {
        Sign::LeftParenthesis => {
            let arguments = arguments(text, cursor, depth)?;
            Ok(RawSimple::Call { name, arguments })
        }
        Sign::LeftBracket => {
            let index = bracketed(text, cursor, depth)?;
            indexed(text, cursor, depth, name, index)
        }
        _ => {
            cursor.take(text, Sign::Assign)?;
            let value = expression(text, cursor, depth)?;
            Ok(RawSimple::Set { name, value })
        }
    }
}

// An assignment of an element, or a call through a table.
fn indexed(
    text: Text,
    cursor: &mut Cursor,
    depth: u32,
    name: Name,
    index: RawExpr,
) -> Result<RawSimple, ParseError>
    requires { depth ≤ 64 }
    ensures read { IfOk result (λ s. ReadsIndexed text.entry.bytes.now text.entry.end depth (name_tree name) (raw_expr_tree index) cursor.old.tokens.now (raw_simple_tree s) cursor.new.tokens.now) }
    ensures refused { IfErr result (λ error. Refused text.entry.end depth (AfterSimpleIndex ∷ []) cursor.old.tokens.now error) }
{
    let index = Box::new(text.alloc, index)?;
    if cursor.sign() == Sign::LeftParenthesis {
        let (called, argument) = both((name, index), parenthesized(text, cursor, depth))?;
        let argument = Box::new(text.alloc, argument)?;
        let (name, index) = called;
        return Ok(RawSimple::TableCall {
            name,
            index,
            argument,
        });
    }
    let target = before_sign((name, index), text, cursor, Sign::Assign)?;
    let (target, value) = both(target, expression(text, cursor, depth))?;
    let (name, index) = target;
    Ok(RawSimple::SetElement { name, index, value })
}

/// Reads the declarations after `int`, which is next, up to their `;`.
pub(crate) fn locals(
    text: Text,
    cursor: &mut Cursor,
    depth: u32,
) -> Result<Vec<RawSimple>, ParseError>
    requires fits { depth ≤ 64 }
    requires int { next_sign cursor.old.tokens.now ≡ Sign.Int }
    ensures read { IfOk result (λ ss. ReadsLocals text.entry.bytes.now text.entry.end depth cursor.old.tokens.now (map raw_simple_tree ss.items) cursor.new.tokens.now) }
    ensures refused { IfErr result (λ error. Refused text.entry.end depth (LocalName ∷ []) (rest_of cursor.old.tokens.now) error) }
{
    cursor.pass();
    let mut simples = Vec::new(text.alloc);
    simples.push(local(text, cursor, depth)?)?;
    while cursor.sign() == Sign::Comma {
        cursor.pass();
        simples.push(local(text, cursor, depth)?)?;
    }
    cursor.take(text, Sign::Semicolon)?;
    Ok(simples)
}

// The declaration of one name.
fn local(text: Text, cursor: &mut Cursor, depth: u32) -> Result<RawSimple, ParseError>
    requires { depth ≤ 64 }
    ensures read { IfOk result (λ s. ReadsLocal text.entry.bytes.now text.entry.end depth cursor.old.tokens.now (raw_simple_tree s) cursor.new.tokens.now) }
    ensures refused { IfErr result (λ error. Refused text.entry.end depth (LocalName ∷ []) cursor.old.tokens.now error) }
{
    let name = cursor.take_name(text)?;
    match cursor.sign() {
        Sign::LeftBracket => {
            let words = size(text, cursor, depth)?;
            Ok(RawSimple::DeclareArray { name, words })
        }
        Sign::Assign => {
            cursor.pass();
            let value = expression(text, cursor, depth)?;
            Ok(RawSimple::DeclareWith { name, value })
        }
        _ => Ok(RawSimple::DeclareScalar { name }),
    }
}

/// Reads a number in brackets.
pub(crate) fn size(text: Text, cursor: &mut Cursor, depth: u32) -> Result<u32, ParseError>
    requires { depth ≤ 64 }
    ensures read { IfOk result (λ words. ReadsSize text.entry.end depth cursor.old.tokens.now words cursor.new.tokens.now) }
    ensures refused { IfErr result (λ error. RefusedSize text.entry.end depth cursor.old.tokens.now error) }
{
    let _inside = cursor.open_with(text, Sign::LeftBracket, depth)?;
    let words = cursor.take_number(text)?;
    cursor.take(text, Sign::RightBracket)?;
    Ok(words)
}
