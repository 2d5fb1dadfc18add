// Declarations of tables of functions (ISO/IEC 9899:2018, 6.7.6).
ghost use Rattle.std.specs.Prelude.{◌≡◌, [], ◌∷◌, IfOk, IfErr, map};
ghost use Rattle.c_tree.specs.RawViews.{name_tree, raw_item_tree};
ghost use Rattle.c_grammar.specs.declared.signs.Sign.{Sign};
ghost use Rattle.c_grammar.specs.Machine.{AfterInt, TableParameter, TableMembers};
ghost use Rattle.c_grammar.specs.Tokens.{next_sign};
ghost use Rattle.grammar_reader.specs.Steps.{Refused};
ghost use Rattle.grammar_reader.specs.ItemSteps.{ReadsTable, ReadsDeclared, ReadsTableParameter, ReadsMembers};

use crate::cursor::{Cursor, Text};
use crate::simples::size;
use c_grammar::{ParseError, Sign};
use c_tree::{Name, RawItem, RawTable};

/// Reads what follows the `int` of a table, whose parenthesis is next, up to its `;`.
pub(crate) fn table(text: Text, cursor: &mut Cursor) -> Result<RawItem, ParseError>
    requires { next_sign cursor.old.tokens.now ≡ Sign.LeftParenthesis }
    ensures read { IfOk result (λ item. ReadsTable text.entry.bytes.now text.entry.end cursor.old.tokens.now (raw_item_tree item) cursor.new.tokens.now) }
    ensures refused { IfErr result (λ error. Refused text.entry.end 0 (AfterInt ∷ []) cursor.old.tokens.now error) }
{
    let (name, size) = declared(text, cursor)?;
    table_parameter(text, cursor)?;
    cursor.take(text, Sign::Assign)?;
    let members = members(text, cursor)?;
    cursor.take(text, Sign::Semicolon)?;
    Ok(RawItem::Table(RawTable {
        name,
        size,
        members,
    }))
}

// The name and the size, with the `*` before them and the parentheses, the first of which is next.
fn declared(text: Text, cursor: &mut Cursor) -> Result<(Name, u32), ParseError>
    requires { next_sign cursor.old.tokens.now ≡ Sign.LeftParenthesis }
    ensures read { IfOk result (λ t. ReadsDeclared text.entry.bytes.now text.entry.end cursor.old.tokens.now (name_tree t.0) t.1 cursor.new.tokens.now) }
    ensures refused { IfErr result (λ error. Refused text.entry.end 0 (AfterInt ∷ []) cursor.old.tokens.now error) }
{
    cursor.pass();
    cursor.take(text, Sign::Star)?;
    let name = cursor.take_name(text)?;
    let size = size(text, cursor, 1)?;
    cursor.take(text, Sign::RightParenthesis)?;
    Ok((name, size))
}

// The `(int)` that declares the parameter of the table's functions.
fn table_parameter(text: Text, cursor: &mut Cursor) -> Result<(), ParseError>
    ensures read { IfOk result (λ _. ReadsTableParameter text.entry.end cursor.old.tokens.now cursor.new.tokens.now) }
    ensures refused { IfErr result (λ error. Refused text.entry.end 0 (TableParameter ∷ []) cursor.old.tokens.now error) }
{
    cursor.take(text, Sign::LeftParenthesis)?;
    cursor.take(text, Sign::Int)?;
    cursor.take(text, Sign::RightParenthesis)?;
    Ok(())
}

// The names in braces.
fn members(text: Text, cursor: &mut Cursor) -> Result<Vec<Name>, ParseError>
    ensures read { IfOk result (λ ns. ReadsMembers text.entry.bytes.now text.entry.end cursor.old.tokens.now (map name_tree ns.items) cursor.new.tokens.now) }
    ensures refused { IfErr result (λ error. Refused text.entry.end 0 (TableMembers ∷ []) cursor.old.tokens.now error) }
{
    cursor.take(text, Sign::LeftBrace)?;
    let mut members = Vec::new(text.alloc);
    members.push(cursor.take_name(text)?)?;
    while cursor.sign() == Sign::Comma {
        cursor.pass();
        members.push(cursor.take_name(text)?)?;
    }
    cursor.take(text, Sign::RightBrace)?;
    Ok(members)
}
