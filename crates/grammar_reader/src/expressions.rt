// Expressions (ISO/IEC 9899:2018, 6.5).
ghost use Rattle.std.specs.Prelude.{◌≡◌, ◌≤◌, ◌<◌, ◌+◌, ◌*◌, [], ◌∷◌, IfOk, IfErr, IfSome, IfNone, map, length};
ghost use Rattle.c_tree.specs.RawTrees.{RawExprTree, RawConditional};
ghost use Rattle.c_tree.specs.RawViews.{name_tree, raw_expr_tree, raw_expr_trees};
ghost use Rattle.c_tree.specs.RawTemporaries.{raw_temporaries};
ghost use Rattle.c_tree.proofs.RawExprEquations.{raw_operand_tree};
ghost use Rattle.c_grammar.specs.declared.signs.Sign.{Sign};
ghost use Rattle.c_grammar.specs.Machine.{Expr, Operand, Tail, AfterName, AfterSimpleName, AfterIndex, Parenthesized};
ghost use Rattle.c_grammar.specs.Tokens.{next_sign};
ghost use Rattle.grammar_reader.specs.Steps.{Leads, Refused, NoneFrom, IsNextOperator, IsNoNextOperator, NoPrefix, ReadsExpr, ReadsConditional, ReadsBinary, ReadsRepeated, ReadsUnary, ReadsPrimary, ReadsNamed, ReadsElement, ReadsParenthesized, ReadsIndex, ReadsArguments};

use crate::cursor::{Cursor, Text};
use crate::held::{before_sign, both, boxed_pair, fitted};
use crate::operators::{LEVELS, infix_of, level_of, unary_of};
use c_grammar::{ParseError, Sign};
use c_tree::{Infix, Name, RawExpr};

/// Reads an expression; `depth` constructs are open.
#[cycle(expression)]
pub(crate) fn expression(text: Text, cursor: &mut Cursor, depth: u32) -> Result<RawExpr, ParseError>
    requires { depth ≤ 64 }
    ensures read { IfOk result (λ e. ReadsExpr text.entry.bytes.now text.entry.end depth cursor.old.tokens.now (raw_expr_tree e) cursor.new.tokens.now) }
    ensures refused { IfErr result (λ error. Refused text.entry.end depth (Expr ∷ []) cursor.old.tokens.now error) }
{
    let first = binary(text, cursor, depth, 0)?;
    if cursor.sign() != Sign::Question {
        return Ok(first);
    }
    conditional(text, cursor, depth, first)
}

// The rest of a conditional expression, from its `?` on.
#[cycle(expression)]
fn conditional(
    text: Text,
    cursor: &mut Cursor,
    depth: u32,
    first: RawExpr,
) -> Result<RawExpr, ParseError>
    requires fits { depth ≤ 64 }
    requires question { next_sign cursor.old.tokens.now ≡ Sign.Question }
    ensures read { IfOk result (λ e. ReadsConditional text.entry.bytes.now text.entry.end depth (raw_expr_tree first) cursor.old.tokens.now (raw_expr_tree e) cursor.new.tokens.now) }
    ensures refused { IfErr result (λ error. Refused text.entry.end depth (Tail ∷ []) cursor.old.tokens.now error) }
{
    let condition = Box::new(text.alloc, first)?;
    let (condition, branches) = both(condition, branches(text, cursor, depth))?;
    let (then, otherwise) = branches;
    Ok(RawExpr::Conditional {
        condition,
        then,
        otherwise,
    })
}

// The two branches of a conditional expression, from its `?` on, whatever the condition before it.
#[cycle(expression)]
fn branches(
    text: Text,
    cursor: &mut Cursor,
    depth: u32,
) -> Result<(Box<RawExpr>, Box<RawExpr>), ParseError>
    requires fits { depth ≤ 64 }
    requires question { next_sign cursor.old.tokens.now ≡ Sign.Question }
    ensures read { IfOk result (λ made. (first : RawExprTree) → ReadsConditional text.entry.bytes.now text.entry.end depth first cursor.old.tokens.now (RawConditional first (raw_expr_tree made.0.value) (raw_expr_tree made.1.value)) cursor.new.tokens.now) }
    ensures refused { IfErr result (λ error. Refused text.entry.end depth (Tail ∷ []) cursor.old.tokens.now error) }
{
    let inside = cursor.open(text, depth)?;
    let then = expression(text, cursor, inside)?;
    let then = before_sign(then, text, cursor, Sign::Colon)?;
    let pair = both(then, expression(text, cursor, inside))?;
    boxed_pair(text, pair)
}

// Operands joined by operators of this level and tighter ones.
#[cycle(expression)]
fn binary(text: Text, cursor: &mut Cursor, depth: u32, level: u32) -> Result<RawExpr, ParseError>
    requires fits { depth ≤ 64 }
    requires of_level { level ≤ 10 }
    ensures read { IfOk result (λ e. ReadsBinary text.entry.bytes.now text.entry.end depth level cursor.old.tokens.now (raw_expr_tree e) cursor.new.tokens.now) }
    ensures refused { IfErr result (λ error. Refused text.entry.end depth (Operand ∷ Tail ∷ []) cursor.old.tokens.now error) }
{
    if level >= LEVELS {
        return unary(text, cursor, depth);
    }
    let first = binary(text, cursor, depth, level + 1)?;
    let rest = repeated(text, cursor, depth, level)?;
    if rest.is_empty() {
        return Ok(first);
    }
    let first = Box::new(text.alloc, first)?;
    Ok(RawExpr::Chain { first, rest })
}

// Operators of this level, each with its right operand.
#[cycle(expression)]
fn repeated(
    text: Text,
    cursor: &mut Cursor,
    depth: u32,
    level: u32,
) -> Result<Vec<(Infix, RawExpr)>, ParseError>
    requires fits { depth ≤ 64 }
    requires of_level { level < 10 }
    requires none_tighter { NoneFrom (level + 1) cursor.old.tokens.now }
    ensures read { IfOk result (λ rest. ReadsRepeated text.entry.bytes.now text.entry.end depth level cursor.old.tokens.now (map raw_operand_tree rest.items) cursor.new.tokens.now) }
    ensures refused { IfErr result (λ error. Refused text.entry.end depth (Tail ∷ []) cursor.old.tokens.now error) }
{
    let mut rest = Vec::new(text.alloc);
    while let Some(operator) = operator_of_level(cursor, level) {
        cursor.pass();
        let operand = binary(text, cursor, depth, level + 1)?;
        rest.push((operator, operand))?;
    }
    Ok(fitted(rest))
}

// The operator that the next token is, if it is of this level.
fn operator_of_level(cursor: &Cursor, level: u32) -> Option<Infix>
    ensures found { IfSome result (λ operator. IsNextOperator level cursor.now.tokens.now operator) }
    ensures none { IfNone result (IsNoNextOperator level cursor.now.tokens.now) }
{
    match cursor.kind() {
        Some(kind) => match infix_of(kind) {
            Some(operator) => {
                if level_of(operator) == level {
                    Some(operator)
                } else {
                    None
                }
            }
            None => None,
        },
        None => None,
    }
}

// An operand, with the operators before it.
#[cycle(expression)]
fn unary(text: Text, cursor: &mut Cursor, depth: u32) -> Result<RawExpr, ParseError>
    requires { depth ≤ 64 }
    ensures read { IfOk result (λ e. ReadsUnary text.entry.bytes.now text.entry.end depth cursor.old.tokens.now (raw_expr_tree e) cursor.new.tokens.now) }
    ensures refused { IfErr result (λ error. Refused text.entry.end depth (Operand ∷ []) cursor.old.tokens.now error) }
{
    let Some(kind) = cursor.kind() else {
        return Err(cursor.unexpected(text));
    };
    let Some(operator) = unary_of(kind) else {
        return primary(text, cursor, depth);
    };
    let inside = cursor.open(text, depth)?;
    let operand = unary(text, cursor, inside)?;
    let operand = Box::new(text.alloc, operand)?;
    Ok(RawExpr::Unary { operator, operand })
}

// A number, a name with what follows it, or an expression in parentheses.
#[cycle(expression)]
fn primary(text: Text, cursor: &mut Cursor, depth: u32) -> Result<RawExpr, ParseError>
    requires { depth ≤ 64 }
    ensures read { IfOk result (λ e. ReadsPrimary text.entry.bytes.now text.entry.end depth cursor.old.tokens.now (raw_expr_tree e) cursor.new.tokens.now) }
    ensures refused { IfErr result (λ error. NoPrefix cursor.old.tokens.now → Refused text.entry.end depth (Operand ∷ []) cursor.old.tokens.now error) }
{
    match cursor.sign() {
        Sign::Number => Ok(RawExpr::Number(cursor.take_number(text)?)),
        Sign::Name => {
            let name = cursor.take_name(text)?;
            named(text, cursor, depth, name)
        }
        Sign::LeftParenthesis => {
            let inner = parenthesized(text, cursor, depth)?;
            let inner = Box::new(text.alloc, inner)?;
            Ok(RawExpr::Parenthesized(inner))
        }
        _ => Err(cursor.unexpected(text)),
    }
}

// An operand that begins with the name: an element, a call, a call through a table, or the name
// alone.
#[cycle(expression)]
fn named(text: Text, cursor: &mut Cursor, depth: u32, name: Name) -> Result<RawExpr, ParseError>
    requires { depth ≤ 64 }
    ensures read { IfOk result (λ e. ReadsNamed text.entry.bytes.now text.entry.end depth (name_tree name) cursor.old.tokens.now (raw_expr_tree e) cursor.new.tokens.now) }
    ensures refused { IfErr result (λ error. Refused text.entry.end depth (AfterName ∷ []) cursor.old.tokens.now error) }
{
    match cursor.sign() {
        Sign::LeftParenthesis => {
            let arguments = arguments(text, cursor, depth)?;
            Ok(RawExpr::Call { name, arguments })
        }
        Sign::LeftBracket => {
            let index = bracketed(text, cursor, depth)?;
            element(text, cursor, depth, name, index)
        }
        _ => Ok(RawExpr::Name(name)),
    }
}

// An element or, if an argument follows, a call through a table.
#[cycle(expression)]
fn element(
    text: Text,
    cursor: &mut Cursor,
    depth: u32,
    name: Name,
    index: RawExpr,
) -> Result<RawExpr, ParseError>
    requires { depth ≤ 64 }
    ensures read { IfOk result (λ e. ReadsElement text.entry.bytes.now text.entry.end depth (name_tree name) (raw_expr_tree index) cursor.old.tokens.now (raw_expr_tree e) cursor.new.tokens.now) }
    ensures refused { IfErr result (λ error. Refused text.entry.end depth (AfterIndex ∷ []) cursor.old.tokens.now error) }
{
    let index = Box::new(text.alloc, index)?;
    if cursor.sign() != Sign::LeftParenthesis {
        return Ok(RawExpr::Element { name, index });
    }
    let argument = parenthesized(text, cursor, depth)?;
    let argument = Box::new(text.alloc, argument)?;
    Ok(RawExpr::TableCall {
        name,
        index,
        argument,
    })
}

/// Reads an expression in parentheses.
#[cycle(expression)]
pub(crate) fn parenthesized(
    text: Text,
    cursor: &mut Cursor,
    depth: u32,
) -> Result<RawExpr, ParseError>
    requires { depth ≤ 64 }
    ensures read { IfOk result (λ e. ReadsParenthesized text.entry.bytes.now text.entry.end depth cursor.old.tokens.now (raw_expr_tree e) cursor.new.tokens.now) }
    ensures refused { IfErr result (λ error. Refused text.entry.end depth (Parenthesized ∷ []) cursor.old.tokens.now error) }
{
    if cursor.sign() != Sign::LeftParenthesis {
        return Err(cursor.unexpected(text));
    }
    let inside = cursor.open(text, depth)?;
    let inner = expression(text, cursor, inside)?;
    cursor.take(text, Sign::RightParenthesis)?;
    Ok(inner)
}

/// Reads an expression in brackets, the first of which is next.
#[cycle(expression)]
pub(crate) fn bracketed(text: Text, cursor: &mut Cursor, depth: u32) -> Result<RawExpr, ParseError>
    requires fits { depth ≤ 64 }
    requires bracket { next_sign cursor.old.tokens.now ≡ Sign.LeftBracket }
    ensures read { IfOk result (λ e. ReadsIndex text.entry.bytes.now text.entry.end depth cursor.old.tokens.now (raw_expr_tree e) cursor.new.tokens.now) }
    ensures refused { IfErr result (λ error. Refused text.entry.end depth (AfterName ∷ []) cursor.old.tokens.now error) }
    ensures refused_simple { IfErr result (λ error. Refused text.entry.end depth (AfterSimpleName ∷ []) cursor.old.tokens.now error) }
{
    let inside = cursor.open(text, depth)?;
    let inner = expression(text, cursor, inside)?;
    cursor.take(text, Sign::RightBracket)?;
    Ok(inner)
}

/// Reads the arguments of a call in parentheses, the first of which is next.
#[cycle(expression)]
pub(crate) fn arguments(
    text: Text,
    cursor: &mut Cursor,
    depth: u32,
) -> Result<Vec<RawExpr>, ParseError>
    requires fits { depth ≤ 64 }
    requires parenthesis { next_sign cursor.old.tokens.now ≡ Sign.LeftParenthesis }
    ensures read { IfOk result (λ es. ReadsArguments text.entry.bytes.now text.entry.end depth cursor.old.tokens.now (raw_expr_trees es.items) cursor.new.tokens.now) }
    ensures refused { IfErr result (λ error. Refused text.entry.end depth (AfterName ∷ []) cursor.old.tokens.now error) }
    ensures refused_simple { IfErr result (λ error. Refused text.entry.end depth (AfterSimpleName ∷ []) cursor.old.tokens.now error) }
{
    let inside = cursor.open(text, depth)?;
    let mut arguments = Vec::new(text.alloc);
    if cursor.sign() == Sign::RightParenthesis {
        cursor.pass();
        return Ok(arguments);
    }
    arguments.push(expression(text, cursor, inside)?)?;
    while cursor.sign() == Sign::Comma {
        cursor.pass();
        arguments.push(expression(text, cursor, inside)?)?;
    }
    cursor.take(text, Sign::RightParenthesis)?;
    Ok(fitted(arguments))
}
