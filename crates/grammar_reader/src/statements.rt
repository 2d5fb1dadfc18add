// Statements (ISO/IEC 9899:2018, 6.8).
ghost use Rattle.std.specs.Prelude.{◌≡◌, ◌≢◌, ◌≤◌, [], ◌∷◌, IfOk, IfErr, map};
ghost use Rattle.c_tree.specs.RawViews.{raw_stmt_tree, raw_stmt_trees};
ghost use Rattle.c_grammar.specs.declared.signs.Sign.{Sign};
ghost use Rattle.c_grammar.specs.Machine.{Body, BlockItems};
ghost use Rattle.c_grammar.specs.Tokens.{next_sign};
ghost use Rattle.grammar_reader.specs.Steps.{Refused};
ghost use Rattle.grammar_reader.specs.BodySteps.{RefusedInside, ReadsBody, ReadsBlock, RefusedBlock, ReadsBlockItem};

use crate::cursor::{Cursor, Text};
use crate::expressions::parenthesized;
use crate::held::{boxed, push_next};
use crate::loops::for_parts;
use crate::plain_statements::{
    break_statement, continue_statement, declarations, return_statement, simple_statement,
};
use c_grammar::{ParseError, Sign};
use c_tree::RawStmt;

/// Reads a block: statements in braces, the first of which is next. A declaration of several names is several
/// statements.
#[cycle(statement)]
pub(crate) fn block(text: Text, cursor: &mut Cursor, depth: u32) -> Result<Vec<RawStmt>, ParseError>
    requires fits { depth ≤ 64 }
    requires brace { next_sign cursor.old.tokens.now ≡ Sign.LeftBrace }
    ensures read { IfOk result (λ ss. ReadsBlock text.entry.bytes.now text.entry.end depth cursor.old.tokens.now (raw_stmt_trees ss.items) cursor.new.tokens.now) }
    ensures refused { IfErr result (λ error. RefusedBlock text.entry.end depth cursor.old.tokens.now error) }
{
    let inside = cursor.open(text, depth)?;
    let mut stmts = Vec::new(text.alloc);
    while cursor.sign() != Sign::RightBrace {
        match block_item(text, cursor, inside, &mut stmts) {
            Ok(()) => {}
            Err(error) => {
                drop(stmts);
                return Err(error);
            }
        }
    }
    cursor.pass();
    Ok(stmts)
}

// A statement of a block, or the declarations of one list.
#[cycle(statement)]
fn block_item(
    text: Text,
    cursor: &mut Cursor,
    depth: u32,
    stmts: &mut Vec<RawStmt>,
) -> Result<(), ParseError>
    requires fits { depth ≤ 64 }
    requires some { next_sign cursor.old.tokens.now ≢ Sign.RightBrace }
    ensures read { IfOk result (λ _. ReadsBlockItem text.entry.bytes.now text.entry.end depth cursor.old.tokens.now (map raw_stmt_tree stmts.old.items) (map raw_stmt_tree stmts.new.items) cursor.new.tokens.now) }
    ensures refused { IfErr result (λ error. RefusedInside text.entry.end depth BlockItems cursor.old.tokens.now error) }
{
    if cursor.sign() == Sign::Int {
        return declarations(text, cursor, depth, stmts);
    }
    push_next(stmts, statement(text, cursor, depth))
}

// A statement that isn't a declaration.
#[cycle(statement)]
fn statement(text: Text, cursor: &mut Cursor, depth: u32) -> Result<RawStmt, ParseError>
    requires { depth ≤ 64 }
    ensures read { IfOk result (λ s. ReadsBody text.entry.bytes.now text.entry.end depth cursor.old.tokens.now (raw_stmt_tree s) cursor.new.tokens.now) }
    ensures refused { IfErr result (λ error. Refused text.entry.end depth (Body ∷ []) cursor.old.tokens.now error) }
{
    match cursor.sign() {
        Sign::Semicolon => {
            cursor.pass();
            Ok(RawStmt::Empty)
        }
        Sign::LeftBrace => {
            let stmts = block(text, cursor, depth)?;
            Ok(RawStmt::Block(stmts))
        }
        Sign::If => if_statement(text, cursor, depth),
        Sign::While => while_statement(text, cursor, depth),
        Sign::For => for_statement(text, cursor, depth),
        Sign::Break => break_statement(text, cursor, depth),
        Sign::Continue => continue_statement(text, cursor, depth),
        Sign::Return => return_statement(text, cursor, depth),
        _ => simple_statement(text, cursor, depth),
    }
}

// A statement that isn't a declaration, in a box.
#[cycle(statement)]
fn boxed_statement(text: Text, cursor: &mut Cursor, depth: u32) -> Result<Box<RawStmt>, ParseError>
    requires { depth ≤ 64 }
    ensures read { IfOk result (λ made. ReadsBody text.entry.bytes.now text.entry.end depth cursor.old.tokens.now (raw_stmt_tree made.value) cursor.new.tokens.now) }
    ensures refused { IfErr result (λ error. Refused text.entry.end depth (Body ∷ []) cursor.old.tokens.now error) }
{
    boxed(text, statement(text, cursor, depth))
}

// An `if`, which is next, with its optional `else`, which belongs to the nearest `if`.
#[cycle(statement)]
fn if_statement(text: Text, cursor: &mut Cursor, depth: u32) -> Result<RawStmt, ParseError>
    requires fits { depth ≤ 64 }
    requires keyword { next_sign cursor.old.tokens.now ≡ Sign.If }
    ensures read { IfOk result (λ s. ReadsBody text.entry.bytes.now text.entry.end depth cursor.old.tokens.now (raw_stmt_tree s) cursor.new.tokens.now) }
    ensures refused { IfErr result (λ error. Refused text.entry.end depth (Body ∷ []) cursor.old.tokens.now error) }
{
    let inside = cursor.open(text, depth)?;
    let condition = parenthesized(text, cursor, inside)?;
    let then = match boxed_statement(text, cursor, inside) {
        Ok(then) => then,
        Err(error) => {
            drop(condition);
            return Err(error);
        }
    };
    if cursor.sign() != Sign::Else {
        return Ok(RawStmt::If { condition, then });
    }
    cursor.pass();
    match boxed_statement(text, cursor, inside) {
        Ok(otherwise) => Ok(RawStmt::IfElse {
            condition,
            then,
            otherwise,
        }),
        Err(error) => {
            drop(condition);
            drop(then);
            Err(error)
        }
    }
}

// A `while`, which is next.
#[cycle(statement)]
fn while_statement(text: Text, cursor: &mut Cursor, depth: u32) -> Result<RawStmt, ParseError>
    requires fits { depth ≤ 64 }
    requires keyword { next_sign cursor.old.tokens.now ≡ Sign.While }
    ensures read { IfOk result (λ s. ReadsBody text.entry.bytes.now text.entry.end depth cursor.old.tokens.now (raw_stmt_tree s) cursor.new.tokens.now) }
    ensures refused { IfErr result (λ error. Refused text.entry.end depth (Body ∷ []) cursor.old.tokens.now error) }
{
    let inside = cursor.open(text, depth)?;
    let condition = parenthesized(text, cursor, inside)?;
    match boxed_statement(text, cursor, inside) {
        Ok(body) => Ok(RawStmt::While { condition, body }),
        Err(error) => {
            drop(condition);
            Err(error)
        }
    }
}

// A `for`, which is next.
#[cycle(statement)]
fn for_statement(text: Text, cursor: &mut Cursor, depth: u32) -> Result<RawStmt, ParseError>
    requires fits { depth ≤ 64 }
    requires keyword { next_sign cursor.old.tokens.now ≡ Sign.For }
    ensures read { IfOk result (λ s. ReadsBody text.entry.bytes.now text.entry.end depth cursor.old.tokens.now (raw_stmt_tree s) cursor.new.tokens.now) }
    ensures refused { IfErr result (λ error. Refused text.entry.end depth (Body ∷ []) cursor.old.tokens.now error) }
{
    let inside = cursor.open(text, depth)?;
    let parts = for_parts(text, cursor, inside)?;
    let parts = Box::new(text.alloc, parts)?;
    match boxed_statement(text, cursor, inside) {
        Ok(body) => Ok(RawStmt::For { parts, body }),
        Err(error) => {
            drop(parts);
            Err(error)
        }
    }
}
