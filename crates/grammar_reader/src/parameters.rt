// Lists of parameters (ISO/IEC 9899:2018, 6.7.6.3).
ghost use Rattle.std.specs.Prelude.{◌≡◌, [], ◌∷◌, ◌≢◌, IfOk, IfErr, map, option_map};
ghost use Rattle.c_tree.specs.RawViews.{name_tree};
ghost use Rattle.c_grammar.specs.declared.errors.ParseError.TheVariants.{Memory};
ghost use Rattle.c_grammar.specs.declared.signs.Sign.{Sign};
ghost use Rattle.c_grammar.specs.Machine.{ParameterList};
ghost use Rattle.c_grammar.specs.Tokens.{next_sign};
ghost use Rattle.grammar_reader.specs.Steps.{Refused};
ghost use Rattle.grammar_reader.specs.ItemSteps.{RefusedListed, ReadsParameters, ReadsParameterList, ReadsParameter, RefusedParameter, all_have_names, names_in};

use crate::cursor::{Cursor, Text};
use c_grammar::{ParseError, Sign};
use c_tree::Name;

/// Reads the parameters in parentheses, the first of which is next. A parameter may be unnamed.
pub(crate) fn parameters(text: Text, cursor: &mut Cursor) -> Result<Vec<Option<Name>>, ParseError>
    requires { next_sign cursor.old.tokens.now ≡ Sign.LeftParenthesis }
    ensures read { IfOk result (λ ps. ReadsParameters text.entry.bytes.now text.entry.end cursor.old.tokens.now (map (option_map name_tree) ps.items) cursor.new.tokens.now) }
    ensures refused { IfErr result (λ error. RefusedListed text.entry.end cursor.old.tokens.now error) }
{
    cursor.pass();
    match cursor.sign() {
        Sign::RightParenthesis => {
            cursor.pass();
            Ok(Vec::new(text.alloc))
        }
        Sign::Void => {
            cursor.pass();
            cursor.take(text, Sign::RightParenthesis)?;
            Ok(Vec::new(text.alloc))
        }
        _ => parameter_list(text, cursor),
    }
}

// A list of parameters, if neither a `)` nor `void` is next, with the `)` after them.
fn parameter_list(text: Text, cursor: &mut Cursor) -> Result<Vec<Option<Name>>, ParseError>
    requires some { next_sign cursor.old.tokens.now ≢ Sign.RightParenthesis }
    requires no_void { next_sign cursor.old.tokens.now ≢ Sign.Void }
    ensures read { IfOk result (λ ps. ReadsParameterList text.entry.bytes.now text.entry.end cursor.old.tokens.now (map (option_map name_tree) ps.items) cursor.new.tokens.now) }
    ensures refused { IfErr result (λ error. Refused text.entry.end 0 (ParameterList ∷ []) cursor.old.tokens.now error) }
{
    let mut params = Vec::new(text.alloc);
    params.push(parameter(text, cursor)?)?;
    while cursor.sign() == Sign::Comma {
        cursor.pass();
        params.push(parameter(text, cursor)?)?;
    }
    cursor.take(text, Sign::RightParenthesis)?;
    Ok(params)
}

// `int`, with an optional name.
fn parameter(text: Text, cursor: &mut Cursor) -> Result<Option<Name>, ParseError>
    ensures read { IfOk result (λ p. ReadsParameter text.entry.bytes.now text.entry.end cursor.old.tokens.now (option_map name_tree p) cursor.new.tokens.now) }
    ensures refused { IfErr result (λ error. RefusedParameter text.entry.end cursor.old.tokens.now error) }
{
    cursor.take(text, Sign::Int)?;
    if cursor.sign() != Sign::Name {
        return Ok(None);
    }
    let name = cursor.take_name(text)?;
    Ok(Some(name))
}

/// Returns whether each parameter has a name.
pub(crate) fn all_named(params: &[Option<Name>]) -> bool
    ensures { result ≡ all_have_names (map (option_map name_tree) params.now) }
{
    for param in params {
        if param.is_none() {
            return false;
        }
    }
    true
}

/// Returns the names of the parameters that have one.
pub(crate) fn names_of(text: Text, params: Vec<Option<Name>>) -> Result<Vec<Name>, ParseError>
    ensures names { IfOk result (λ ns. map name_tree ns.items ≡ names_in (map (option_map name_tree) params.items)) }
    ensures memory { IfErr result (λ error. error ≡ Memory) }
{
    let mut names = Vec::new(text.alloc);
    for param in params {
        if let Some(name) = param {
            names.push(name)?;
        }
    }
    Ok(names)
}
