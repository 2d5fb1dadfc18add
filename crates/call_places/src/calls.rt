// The places of the calls' names of a tree, in the order of the tree.
ghost use Rattle.std.specs.Prelude.{◌≡◌, ◌++◌, ◌∷◌, [], map, option_map, IfOk, OnOk};
ghost use Rattle.c_tree.specs.RawViews.{raw_expr_tree, raw_expr_trees, raw_simple_tree, raw_stmt_tree, raw_stmt_trees, raw_item_tree, raw_item_trees};
ghost use Rattle.c_tree.specs.RawProgramView.{raw_program_tree};
ghost use Rattle.grammar_laws.specs.Nested.{is_call};
ghost use Rattle.grammar_laws.specs.Places.{expr_places, exprs_places, optional_places, simple_places, simples_places, step_places, stmt_places, stmts_places, item_places, items_places};

use c_tree::{RawExpr, RawForParts, RawItem, RawProgram, RawSimple, RawStmt};
use std::alloc::{AllocError, Global};

/// The place of the first byte of the name of each call of a source, in the order of the tree. Of a tree that was read
/// from a text that is the order of the text.
///
/// # Errors
///
/// Memory ran out.
pub fn places_of_calls(alloc: Global, raw: &RawProgram) -> Result<Vec<u32>, AllocError>
    ensures { IfOk result (λ ps. ps.items ≡ items_places is_call (raw_program_tree raw.now)) }
{
    let mut places = Vec::new(alloc);
    add_items(&mut places, raw.items())?;
    Ok(places)
}

fn add_items(places: &mut Vec<u32>, items: &[RawItem]) -> Result<(), AllocError>
    ensures { OnOk result (places.new.items ≡ places.old.items ++ items_places is_call (raw_item_trees items.now)) }
{
    for item in items {
        add_places_of_calls(places, item)?;
    }
    Ok(())
}

/// Adds the places of the calls of one item, in the order of the tree.
///
/// # Errors
///
/// Memory ran out.
pub fn add_places_of_calls(places: &mut Vec<u32>, item: &RawItem) -> Result<(), AllocError>
    ensures { OnOk result (places.new.items ≡ places.old.items ++ item_places is_call (raw_item_tree item.now)) }
{
    match item {
        RawItem::Function(function) => add_stmts(places, &function.body),
        RawItem::Global { .. } | RawItem::GlobalArray { .. } => Ok(()),
        RawItem::Table(_) => Ok(()),
        RawItem::Prototype(_) => Ok(()),
    }
}

fn add(places: &mut Vec<u32>, at: u32) -> Result<(), AllocError>
    ensures { OnOk result (places.new.items ≡ places.old.items ++ at ∷ []) }
{
    places.push(at)?;
    Ok(())
}

#[cycle(exprs)]
fn add_expr(places: &mut Vec<u32>, expr: &RawExpr) -> Result<(), AllocError>
    ensures { OnOk result (places.new.items ≡ places.old.items ++ expr_places is_call (raw_expr_tree expr.now)) }
{
    match expr {
        RawExpr::Number(_) | RawExpr::Name(_) => Ok(()),
        RawExpr::Element { index, .. } => add_expr(places, index),
        RawExpr::Unary { operand, .. } => add_expr(places, operand),
        RawExpr::Parenthesized(inner) => add_expr(places, inner),
        RawExpr::Chain { first, rest } => {
            add_expr(places, first)?;
            for (_, operand) in rest {
                add_expr(places, operand)?;
            }
            Ok(())
        }
        RawExpr::Conditional {
            condition,
            then,
            otherwise,
        } => {
            add_expr(places, condition)?;
            add_expr(places, then)?;
            add_expr(places, otherwise)
        }
        RawExpr::Call { name, arguments } => {
            add(places, name.at)?;
            add_exprs(places, arguments)
        }
        RawExpr::TableCall {
            name,
            index,
            argument,
        } => {
            add(places, name.at)?;
            add_expr(places, index)?;
            add_expr(places, argument)
        }
    }
}

#[cycle(exprs)]
fn add_exprs(places: &mut Vec<u32>, exprs: &[RawExpr]) -> Result<(), AllocError>
    ensures { OnOk result (places.new.items ≡ places.old.items ++ exprs_places is_call (raw_expr_trees exprs.now)) }
{
    for expr in exprs {
        add_expr(places, expr)?;
    }
    Ok(())
}

fn add_optional(places: &mut Vec<u32>, expr: &Option<RawExpr>) -> Result<(), AllocError>
    ensures { OnOk result (places.new.items ≡ places.old.items ++ optional_places is_call (option_map raw_expr_tree expr.now)) }
{
    match expr {
        Some(expr) => add_expr(places, expr),
        None => Ok(()),
    }
}

fn add_simple(places: &mut Vec<u32>, simple: &RawSimple) -> Result<(), AllocError>
    ensures { OnOk result (places.new.items ≡ places.old.items ++ simple_places is_call (raw_simple_tree simple.now)) }
{
    match simple {
        RawSimple::DeclareScalar { .. } | RawSimple::DeclareArray { .. } => Ok(()),
        RawSimple::DeclareWith { value, .. } => add_expr(places, value),
        RawSimple::Set { value, .. } => add_expr(places, value),
        RawSimple::SetElement { index, value, .. } => {
            add_expr(places, index)?;
            add_expr(places, value)
        }
        RawSimple::Call { name, arguments } => {
            add(places, name.at)?;
            add_exprs(places, arguments)
        }
        RawSimple::TableCall {
            name,
            index,
            argument,
        } => {
            add(places, name.at)?;
            add_expr(places, index)?;
            add_expr(places, argument)
        }
    }
}

fn add_simples(places: &mut Vec<u32>, simples: &[RawSimple]) -> Result<(), AllocError>
    ensures { OnOk result (places.new.items ≡ places.old.items ++ simples_places is_call (map raw_simple_tree simples.now)) }
{
    for simple in simples {
        add_simple(places, simple)?;
    }
    Ok(())
}

fn add_step(places: &mut Vec<u32>, step: &Option<RawSimple>) -> Result<(), AllocError>
    ensures { OnOk result (places.new.items ≡ places.old.items ++ step_places is_call (option_map raw_simple_tree step.now)) }
{
    match step {
        Some(step) => add_simple(places, step),
        None => Ok(()),
    }
}

/// Adds the places of the calls of one statement, in the order of the tree.
///
/// # Errors
///
/// Memory ran out.
pub fn add_places_of_calls_in(places: &mut Vec<u32>, stmt: &RawStmt) -> Result<(), AllocError>
    ensures { OnOk result (places.new.items ≡ places.old.items ++ stmt_places is_call (raw_stmt_tree stmt.now)) }
{
    add_stmt(places, stmt)
}

/// Adds the places of the calls of an expression, in the order of the tree.
///
/// # Errors
///
/// Memory ran out.
pub fn add_places_of_calls_in_expr(places: &mut Vec<u32>, expr: &RawExpr) -> Result<(), AllocError>
    ensures { OnOk result (places.new.items ≡ places.old.items ++ expr_places is_call (raw_expr_tree expr.now)) }
{
    add_expr(places, expr)
}

/// Adds the places of the calls in the parentheses of a `for`, in the order of the tree.
///
/// # Errors
///
/// Memory ran out.
pub fn add_places_of_calls_in_parts(
    places: &mut Vec<u32>,
    parts: &RawForParts,
) -> Result<(), AllocError>
    ensures { OnOk result (places.new.items ≡ places.old.items ++ (simples_places is_call (map raw_simple_tree parts.now.init.items) ++ (optional_places is_call (option_map raw_expr_tree parts.now.condition) ++ step_places is_call (option_map raw_simple_tree parts.now.step)))) }
{
    add_simples(places, &parts.init)?;
    add_optional(places, &parts.condition)?;
    add_step(places, &parts.step)
}

#[cycle(stmts)]
fn add_stmt(places: &mut Vec<u32>, stmt: &RawStmt) -> Result<(), AllocError>
    ensures { OnOk result (places.new.items ≡ places.old.items ++ stmt_places is_call (raw_stmt_tree stmt.now)) }
{
    match stmt {
        RawStmt::Simple(simple) => add_simple(places, simple),
        RawStmt::Empty | RawStmt::Break { .. } | RawStmt::Continue { .. } => Ok(()),
        RawStmt::Block(stmts) => add_stmts(places, stmts),
        RawStmt::If { condition, then } => {
            add_expr(places, condition)?;
            add_stmt(places, then)
        }
        RawStmt::IfElse {
            condition,
            then,
            otherwise,
        } => {
            add_expr(places, condition)?;
            add_stmt(places, then)?;
            add_stmt(places, otherwise)
        }
        RawStmt::While { condition, body } => {
            add_expr(places, condition)?;
            add_stmt(places, body)
        }
        RawStmt::For { parts, body } => {
            add_simples(places, &parts.init)?;
            add_optional(places, &parts.condition)?;
            add_step(places, &parts.step)?;
            add_stmt(places, body)
        }
        RawStmt::Return { value, .. } => add_optional(places, value),
    }
}

#[cycle(stmts)]
fn add_stmts(places: &mut Vec<u32>, stmts: &[RawStmt]) -> Result<(), AllocError>
    ensures { OnOk result (places.new.items ≡ places.old.items ++ stmts_places is_call (raw_stmt_trees stmts.now)) }
{
    for stmt in stmts {
        add_stmt(places, stmt)?;
    }
    Ok(())
}
