// Declarations of globals (ISO/IEC 9899:2018, 6.7 and 6.9.2).
ghost use Rattle.std.specs.Prelude.{◌≡◌, ◌≢◌, ◌-◌, ◌%◌, ◌^◌, [], ◌∷◌, IfOk, IfErr, map};
ghost use Rattle.c_tree.specs.RawViews.{name_tree, raw_item_tree};
ghost use Rattle.c_grammar.specs.declared.signs.Sign.{Sign};
ghost use Rattle.c_grammar.specs.Machine.{AfterIntName, AfterGlobalName, StartValue};
ghost use Rattle.c_grammar.specs.Tokens.{next_sign};
ghost use Rattle.grammar_reader.specs.Steps.{Refused};
ghost use Rattle.grammar_reader.specs.ItemSteps.{ReadsGlobals, ReadsGlobal, ReadsStart};

use crate::cursor::{Cursor, Text};
use crate::simples::size;
use c_grammar::{ParseError, Sign};
use c_tree::{Name, RawItem};

/// Reads what follows the `int` and the name of a declaration of globals, which isn't a `(`, up to its `;`, and pushes
/// each global on `items`.
pub(crate) fn globals(
    text: Text,
    cursor: &mut Cursor,
    first: Name,
    items: &mut Vec<RawItem>,
) -> Result<(), ParseError>
    requires { next_sign cursor.old.tokens.now ≢ Sign.LeftParenthesis }
    ensures read { IfOk result (λ _. ReadsGlobals text.entry.bytes.now text.entry.end (name_tree first) cursor.old.tokens.now (map raw_item_tree items.old.items) (map raw_item_tree items.new.items) cursor.new.tokens.now) }
    ensures refused { IfErr result (λ error. Refused text.entry.end 0 (AfterIntName ∷ []) cursor.old.tokens.now error) }
{
    items.push(global(text, cursor, first)?)?;
    while cursor.sign() == Sign::Comma {
        cursor.pass();
        let name = cursor.take_name(text)?;
        items.push(global(text, cursor, name)?)?;
    }
    cursor.take(text, Sign::Semicolon)?;
    Ok(())
}

// The global of this name, with its size or its initial value.
fn global(text: Text, cursor: &mut Cursor, name: Name) -> Result<RawItem, ParseError>
    ensures read { IfOk result (λ item. ReadsGlobal text.entry.bytes.now text.entry.end (name_tree name) cursor.old.tokens.now (raw_item_tree item) cursor.new.tokens.now) }
    ensures refused { IfErr result (λ error. Refused text.entry.end 0 (AfterGlobalName ∷ []) cursor.old.tokens.now error) }
{
    match cursor.sign() {
        Sign::LeftBracket => {
            let words = size(text, cursor, 0)?;
            Ok(RawItem::GlobalArray { name, words })
        }
        Sign::Assign => {
            cursor.pass();
            let start = start(text, cursor)?;
            Ok(RawItem::Global { name, start })
        }
        _ => Ok(RawItem::Global { name, start: 0 }),
    }
}

// A number with an optional `-`, as a word.
fn start(text: Text, cursor: &mut Cursor) -> Result<u32, ParseError>
    ensures read { IfOk result (λ value. ReadsStart text.entry.bytes.now text.entry.end cursor.old.tokens.now value cursor.new.tokens.now) }
    ensures refused { IfErr result (λ error. Refused text.entry.end 0 (StartValue ∷ []) cursor.old.tokens.now error) }
{
    if cursor.sign() == Sign::Minus {
        cursor.pass();
        let value = cursor.take_number(text)?;
        return Ok(negative(value));
    }
    let value = cursor.take_number(text)?;
    Ok(value)
}

// The word of the negated value.
fn negative(value: u32) -> u32
    ensures { result ≡ (2 ^ 32 - value) % 2 ^ 32 }
{
    value.wrapping_neg()
}
