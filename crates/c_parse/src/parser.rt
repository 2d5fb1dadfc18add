// From the tokens of a source to its tree.
ghost use Rattle.std.specs.Prelude.{List, map, ◌≡◌, ◌≢◌, ◌≤◌, ◌⊎◌, length, IfOk, IfErr, IsErrOf, MatchResult};
ghost use Rattle.c_tree.specs.RawTrees.{RawItemTree};
ghost use Rattle.c_tree.specs.RawProgramView.{raw_program_tree};
ghost use Rattle.grammar_reader.specs.ItemSteps.{ReadsItems, RefusedItems};
ghost use Rattle.c_tree.specs.RawViews.{raw_item_tree};
ghost use Rattle.c_parse.specs.Parsed.{IsParsed, IsParseErrorOf, IsParsedNested, IsNestedErrorOf};

use crate::for_parts::nested_in_fors;
use crate::nested_calls::nested_in_items;
use c_grammar::ParseError;
use c_lex::Token;
use c_tree::{RawItem, RawProgram};
use grammar_reader::{Cursor, Text, all_items};
use std::alloc::Global;

/// Returns the tree of a source with these tokens, which `c_lex` returned (ISO/IEC 9899:2018, 6.5 to 6.9, the subset).
///
/// # Errors
///
/// `Unexpected` at the first token with which the tokens so far aren't the beginning of a program, or at the end of the
/// source; `TooDeep` at the first token at which more than 64 constructs are open; of the two the one at the earlier
/// token, and `Unexpected` if both are at the same. Otherwise `NestedCall` at the first call that isn't whole, that is,
/// which is inside an expression. `Memory` if an allocation fails.
pub fn parse(alloc: Global, source: &[u8], tokens: &[Token]) -> Result<RawProgram, ParseError>
    requires { length source.now ≤ 1048576 }
    ensures tree { IfOk result (λ program. IsParsed source.now tokens.now (raw_program_tree program)) }
    ensures refusal { IfErr result (λ error. error ≢ ParseError.Memory → IsParseErrorOf source.now tokens.now error) }

    // The tokens have no other tree, and no other refusal.
    ensures only_tree { (items : List RawItemTree) → IsParsed source.now tokens.now items →
        MatchResult result (λ program. raw_program_tree program ≡ items) (λ error. error ≡ ParseError.Memory) }
    ensures only_refusal { (error : ParseError) → IsParseErrorOf source.now tokens.now error →
        IsErrOf result error ⊎ IsErrOf result ParseError.Memory }
{
    tree_of(alloc, source, tokens)
}

/// Returns the tree of a source, like `parse`, but calls may be nested in expressions everywhere except in the
/// parentheses of a `for`.
///
/// # Errors
///
/// Those of `parse`, but `NestedCall` at the first call in the three parts in the parentheses of a `for` that isn't
/// whole.
pub fn parse_nested(
    alloc: Global,
    source: &[u8],
    tokens: &[Token],
) -> Result<RawProgram, ParseError>
    requires { length source.now ≤ 1048576 }
    ensures tree { IfOk result (λ program. IsParsedNested source.now tokens.now (raw_program_tree program)) }
    ensures refusal { IfErr result (λ error. error ≢ ParseError.Memory → IsNestedErrorOf source.now tokens.now error) }

    // The tokens have no other tree, and no other refusal.
    ensures only_tree { (items : List RawItemTree) → IsParsedNested source.now tokens.now items →
        MatchResult result (λ program. raw_program_tree program ≡ items) (λ error. error ≡ ParseError.Memory) }
    ensures only_refusal { (error : ParseError) → IsNestedErrorOf source.now tokens.now error →
        IsErrOf result error ⊎ IsErrOf result ParseError.Memory }
{
    nested_tree_of(alloc, source, tokens)
}

// The items of the tokens, or a refusal.
fn items_of(alloc: Global, source: &[u8], tokens: &[Token]) -> Result<Vec<RawItem>, ParseError>
    requires { length source.now ≤ 1048576 }
    ensures read { IfOk result (λ items. ReadsItems source.now (length source.now) tokens.now (map raw_item_tree items.items)) }
    ensures refused { IfErr result (λ error. RefusedItems (length source.now) tokens.now error) }
{
    let text = Text {
        alloc,
        bytes: source,
        end: source.len() as u32,
    };
    let mut cursor = Cursor { tokens };
    all_items(text, &mut cursor)
}

// The tree of the tokens, in which every call is whole, or a refusal.
fn tree_of(alloc: Global, source: &[u8], tokens: &[Token]) -> Result<RawProgram, ParseError>
    requires { length source.now ≤ 1048576 }
    ensures tree { IfOk result (λ program. IsParsed source.now tokens.now (raw_program_tree program)) }
    ensures refusal { IfErr result (λ error. error ≢ ParseError.Memory → IsParseErrorOf source.now tokens.now error) }
{
    let items = items_of(alloc, source, tokens)?;
    match nested_in_items(&items) {
        Some(at) => Err(ParseError::NestedCall { at }),
        None => Ok(RawProgram::new(items)),
    }
}

// The tree of the tokens, in which every call in the parentheses of a `for` is whole, or a refusal.
fn nested_tree_of(alloc: Global, source: &[u8], tokens: &[Token]) -> Result<RawProgram, ParseError>
    requires { length source.now ≤ 1048576 }
    ensures tree { IfOk result (λ program. IsParsedNested source.now tokens.now (raw_program_tree program)) }
    ensures refusal { IfErr result (λ error. error ≢ ParseError.Memory → IsNestedErrorOf source.now tokens.now error) }
{
    let items = items_of(alloc, source, tokens)?;
    match nested_in_fors(&items) {
        Some(at) => Err(ParseError::NestedCall { at }),
        None => Ok(RawProgram::new(items)),
    }
}
