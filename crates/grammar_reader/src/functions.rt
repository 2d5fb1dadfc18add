// Prototypes and functions (ISO/IEC 9899:2018, 6.9.1).
ghost use Rattle.std.specs.Prelude.{◌≡◌, ◌≢◌, true, false, IfOk, IfErr, map, option_map};
ghost use Rattle.c_tree.specs.RawViews.{name_tree, raw_item_tree};
ghost use Rattle.c_grammar.specs.declared.signs.Sign.{Sign};
ghost use Rattle.c_grammar.specs.Tokens.{next_sign};
ghost use Rattle.grammar_reader.specs.ItemSteps.{RefusedListed, ReadsFunction, all_have_names};

use crate::cursor::{Cursor, Text};
use crate::parameters::{all_named, names_of, parameters};
use crate::statements::block;
use c_grammar::{ParseError, Sign};
use c_tree::{Name, RawFunction, RawItem, RawPrototype};

/// Reads what follows the name of a function: its parameters, whose parenthesis is next, and a `;` or its body.
pub(crate) fn function(
    text: Text,
    cursor: &mut Cursor,
    gives: bool,
    name: Name,
) -> Result<RawItem, ParseError>
    requires { next_sign cursor.old.tokens.now ≡ Sign.LeftParenthesis }
    ensures read { IfOk result (λ item. ReadsFunction text.entry.bytes.now text.entry.end gives (name_tree name) cursor.old.tokens.now (raw_item_tree item) cursor.new.tokens.now) }
    ensures refused { IfErr result (λ error. RefusedListed text.entry.end cursor.old.tokens.now error) }
{
    let params = parameters(text, cursor)?;
    if has_body(cursor, &params) {
        let params = names_of(text, params)?;
        let body = block(text, cursor, 0)?;
        return Ok(RawItem::Function(RawFunction {
            gives,
            name,
            params,
            body,
        }));
    }
    cursor.take(text, Sign::Semicolon)?;
    Ok(RawItem::Prototype(RawPrototype {
        gives,
        name,
        params,
    }))
}

// Whether a body may follow the parameters, and follows.
fn has_body(cursor: &Cursor, params: &[Option<Name>]) -> bool
    ensures named { result ≡ true → all_have_names (map (option_map name_tree) params.now) ≡ true }
    ensures brace { result ≡ true → next_sign cursor.now.tokens.now ≡ Sign.LeftBrace }
    ensures none { result ≡ false → all_have_names (map (option_map name_tree) params.now) ≡ true → next_sign cursor.now.tokens.now ≢ Sign.LeftBrace }
{
    all_named(params) && cursor.sign() == Sign::LeftBrace
}
