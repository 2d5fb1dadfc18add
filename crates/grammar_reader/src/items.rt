// Declarations and definitions outside functions (ISO/IEC 9899:2018, 6.9).
ghost use Rattle.std.specs.Prelude.{◌≡◌, ◌≢◌, [], ◌∷◌, IfOk, IfErr, map};
ghost use Rattle.c_tree.specs.RawViews.{raw_item_tree};
ghost use Rattle.c_grammar.specs.declared.signs.Sign.{Sign};
ghost use Rattle.c_grammar.specs.Machine.{AfterInt, AfterVoid};
ghost use Rattle.c_grammar.specs.Tokens.{next_sign};
ghost use Rattle.grammar_reader.specs.Steps.{Refused};
ghost use Rattle.grammar_reader.specs.ItemSteps.{RefusedItems, ReadsItems, ReadsItem, ReadsAfterInt, ReadsAfterVoid};

use crate::cursor::{Cursor, Text};
use crate::functions::function;
use crate::globals::globals;
use crate::held::push_next;
use crate::tables::table;
use c_grammar::{ParseError, Sign};
use c_tree::RawItem;

/// Reads all items up to the end of the source.
///
/// # Errors
///
/// `Unexpected` at the first token with which the tokens so far aren't the beginning of a program, or at the end of the
/// source; `TooDeep` at the first token at which more than 64 constructs are open; whichever comes first. `Memory` if
/// an allocation fails.
pub fn all_items(text: Text, cursor: &mut Cursor) -> Result<Vec<RawItem>, ParseError>
    ensures read { IfOk result (λ is. ReadsItems text.entry.bytes.now text.entry.end cursor.old.tokens.now (map raw_item_tree is.items)) }
    ensures refused { IfErr result (λ error. RefusedItems text.entry.end cursor.old.tokens.now error) }
{
    let mut items = Vec::new(text.alloc);
    while cursor.sign() != Sign::Finish {
        item(text, cursor, &mut items)?;
    }
    Ok(items)
}

// One item, or the globals of one list, pushed on `items`.
fn item(text: Text, cursor: &mut Cursor, items: &mut Vec<RawItem>) -> Result<(), ParseError>
    requires { next_sign cursor.old.tokens.now ≢ Sign.Finish }
    ensures read { IfOk result (λ _. ReadsItem text.entry.bytes.now text.entry.end cursor.old.tokens.now (map raw_item_tree items.old.items) (map raw_item_tree items.new.items) cursor.new.tokens.now) }
    ensures refused { IfErr result (λ error. RefusedItems text.entry.end cursor.old.tokens.now error) }
{
    match cursor.sign() {
        Sign::Int => {
            cursor.pass();
            after_int(text, cursor, items)
        }
        Sign::Void => {
            cursor.pass();
            push_next(items, after_void(text, cursor))
        }
        _ => Err(cursor.unexpected(text)),
    }
}

// What follows `int` at the start of an item.
fn after_int(text: Text, cursor: &mut Cursor, items: &mut Vec<RawItem>) -> Result<(), ParseError>
    ensures read { IfOk result (λ _. ReadsAfterInt text.entry.bytes.now text.entry.end cursor.old.tokens.now (map raw_item_tree items.old.items) (map raw_item_tree items.new.items) cursor.new.tokens.now) }
    ensures refused { IfErr result (λ error. Refused text.entry.end 0 (AfterInt ∷ []) cursor.old.tokens.now error) }
{
    if cursor.sign() == Sign::LeftParenthesis {
        return push_next(items, table(text, cursor));
    }
    let name = cursor.take_name(text)?;
    if cursor.sign() == Sign::LeftParenthesis {
        return push_next(items, function(text, cursor, true, name));
    }
    globals(text, cursor, name, items)
}

// What follows `void` at the start of an item.
fn after_void(text: Text, cursor: &mut Cursor) -> Result<RawItem, ParseError>
    ensures read { IfOk result (λ item. ReadsAfterVoid text.entry.bytes.now text.entry.end cursor.old.tokens.now (raw_item_tree item) cursor.new.tokens.now) }
    ensures refused { IfErr result (λ error. Refused text.entry.end 0 (AfterVoid ∷ []) cursor.old.tokens.now error) }
{
    let name = cursor.take_name(text)?;
    if cursor.sign() != Sign::LeftParenthesis {
        return Err(cursor.unexpected(text));
    }
    function(text, cursor, false, name)
}
