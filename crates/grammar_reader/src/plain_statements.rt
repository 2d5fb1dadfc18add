// Statements that contain no other statement, and the declarations of a block (ISO/IEC 9899:2018, 6.7, 6.8.3 and
// 6.8.6).
ghost use Rattle.std.specs.Prelude.{◌≡◌, ◌≤◌, [], ◌∷◌, ◌++◌, IfOk, IfErr, map, option_map};
ghost use Rattle.c_tree.specs.RawTrees.{RawDo};
ghost use Rattle.c_tree.specs.RawViews.{raw_expr_tree, raw_simple_tree, raw_stmt_tree};
ghost use Rattle.c_grammar.specs.declared.errors.ParseError.TheVariants.{Memory};
ghost use Rattle.c_grammar.specs.declared.signs.Sign.{Sign};
ghost use Rattle.c_grammar.specs.Machine.{Body, BlockItems, UpToSemicolon};
ghost use Rattle.c_grammar.specs.Tokens.{next_sign};
ghost use Rattle.grammar_reader.specs.Steps.{Refused};
ghost use Rattle.grammar_reader.specs.BodySteps.{RefusedInside, NoStatement, ReadsBody, ReadsBlockItem, ReadsUpToSemicolon};

use crate::cursor::{Cursor, Text};
use crate::expressions::expression;
use crate::held::before_sign;
use crate::simples::{locals, simple};
use c_grammar::{ParseError, Sign};
use c_tree::{RawExpr, RawSimple, RawStmt};

/// Reads the declarations of one list, whose `int` is next, each as one statement.
pub(crate) fn declarations(
    text: Text,
    cursor: &mut Cursor,
    depth: u32,
    stmts: &mut Vec<RawStmt>,
) -> Result<(), ParseError>
    requires fits { depth ≤ 64 }
    requires int { next_sign cursor.old.tokens.now ≡ Sign.Int }
    ensures read { IfOk result (λ _. ReadsBlockItem text.entry.bytes.now text.entry.end depth cursor.old.tokens.now (map raw_stmt_tree stmts.old.items) (map raw_stmt_tree stmts.new.items) cursor.new.tokens.now) }
    ensures refused { IfErr result (λ error. RefusedInside text.entry.end depth BlockItems cursor.old.tokens.now error) }
{
    let declared = locals(text, cursor, depth)?;
    push_declared(stmts, declared)
}

// Appends each declaration as a statement.
fn push_declared(stmts: &mut Vec<RawStmt>, declared: Vec<RawSimple>) -> Result<(), ParseError>
    ensures pushed { IfOk result (λ _. map raw_stmt_tree stmts.new.items ≡ map raw_stmt_tree stmts.old.items ++ map RawDo (map raw_simple_tree declared.items)) }
    ensures memory { IfErr result (λ error. error ≡ Memory) }
{
    for simple in declared {
        stmts.push(RawStmt::Simple(simple))?;
    }
    Ok(())
}

/// Reads a `break`, which is next.
pub(crate) fn break_statement(
    text: Text,
    cursor: &mut Cursor,
    depth: u32,
) -> Result<RawStmt, ParseError>
    requires fits { depth ≤ 64 }
    requires keyword { next_sign cursor.old.tokens.now ≡ Sign.Break }
    ensures read { IfOk result (λ s. ReadsBody text.entry.bytes.now text.entry.end depth cursor.old.tokens.now (raw_stmt_tree s) cursor.new.tokens.now) }
    ensures refused { IfErr result (λ error. Refused text.entry.end depth (Body ∷ []) cursor.old.tokens.now error) }
{
    let at = cursor.place(text);
    cursor.pass();
    cursor.take(text, Sign::Semicolon)?;
    Ok(RawStmt::Break { at })
}

/// Reads a `continue`, which is next.
pub(crate) fn continue_statement(
    text: Text,
    cursor: &mut Cursor,
    depth: u32,
) -> Result<RawStmt, ParseError>
    requires fits { depth ≤ 64 }
    requires keyword { next_sign cursor.old.tokens.now ≡ Sign.Continue }
    ensures read { IfOk result (λ s. ReadsBody text.entry.bytes.now text.entry.end depth cursor.old.tokens.now (raw_stmt_tree s) cursor.new.tokens.now) }
    ensures refused { IfErr result (λ error. Refused text.entry.end depth (Body ∷ []) cursor.old.tokens.now error) }
{
    let at = cursor.place(text);
    cursor.pass();
    cursor.take(text, Sign::Semicolon)?;
    Ok(RawStmt::Continue { at })
}

/// Reads a `return`, which is next, with its optional value.
pub(crate) fn return_statement(
    text: Text,
    cursor: &mut Cursor,
    depth: u32,
) -> Result<RawStmt, ParseError>
    requires fits { depth ≤ 64 }
    requires keyword { next_sign cursor.old.tokens.now ≡ Sign.Return }
    ensures read { IfOk result (λ s. ReadsBody text.entry.bytes.now text.entry.end depth cursor.old.tokens.now (raw_stmt_tree s) cursor.new.tokens.now) }
    ensures refused { IfErr result (λ error. Refused text.entry.end depth (Body ∷ []) cursor.old.tokens.now error) }
{
    let at = cursor.place(text);
    cursor.pass();
    let value = up_to_semicolon(text, cursor, depth)?;
    Ok(RawStmt::Return { at, value })
}

/// Reads an assignment or a call, with its `;`, if no other statement begins here.
pub(crate) fn simple_statement(
    text: Text,
    cursor: &mut Cursor,
    depth: u32,
) -> Result<RawStmt, ParseError>
    requires fits { depth ≤ 64 }
    requires other { NoStatement cursor.old.tokens.now }
    ensures read { IfOk result (λ s. ReadsBody text.entry.bytes.now text.entry.end depth cursor.old.tokens.now (raw_stmt_tree s) cursor.new.tokens.now) }
    ensures refused { IfErr result (λ error. Refused text.entry.end depth (Body ∷ []) cursor.old.tokens.now error) }
{
    let simple = simple(text, cursor, depth)?;
    let simple = before_sign(simple, text, cursor, Sign::Semicolon)?;
    Ok(RawStmt::Simple(simple))
}

/// Reads an optional expression and the `;` after it.
pub(crate) fn up_to_semicolon(
    text: Text,
    cursor: &mut Cursor,
    depth: u32,
) -> Result<Option<RawExpr>, ParseError>
    requires { depth ≤ 64 }
    ensures read { IfOk result (λ v. ReadsUpToSemicolon text.entry.bytes.now text.entry.end depth cursor.old.tokens.now (option_map raw_expr_tree v) cursor.new.tokens.now) }
    ensures refused { IfErr result (λ error. Refused text.entry.end depth (UpToSemicolon ∷ []) cursor.old.tokens.now error) }
{
    if cursor.sign() == Sign::Semicolon {
        cursor.pass();
        return Ok(None);
    }
    let value = expression(text, cursor, depth)?;
    let value = before_sign(value, text, cursor, Sign::Semicolon)?;
    Ok(Some(value))
}
