// Copies of expressions, and of the parts in the parentheses of a `for`.
ghost use Rattle.std.specs.Prelude.{◌≡◌, map, option_map, IfOk};
ghost use Rattle.c_tree.specs.RawViews.{name_tree, raw_chained, raw_expr_tree, raw_expr_trees, raw_simple_tree};
ghost use Rattle.hoist_parts.specs.Chains.{operand_trees};

use crate::built::{
    both, call_of, choice, copied, element, parenthesized, table_call_of, table_calling,
};
use c_tree::{Infix, RawExpr, RawForParts, RawSimple};
use hoist_parts::{Chain, unary};
use std::alloc::{AllocError, Global};

/// Returns a copy of an expression.
#[cycle(copies)]
pub(crate) fn expr_copy(alloc: Global, raw: &RawExpr) -> Result<RawExpr, AllocError>
    ensures { IfOk result (λ e. raw_expr_tree e ≡ raw_expr_tree raw.now) }
{
    match raw {
        RawExpr::Number(value) => Ok(RawExpr::Number(*value)),
        RawExpr::Name(name) => Ok(RawExpr::Name(copied(alloc, name)?)),
        RawExpr::Element { name, index } => {
            let index = expr_copy(alloc, index)?;
            element(alloc, name, index)
        }
        RawExpr::Unary { operator, operand } => {
            let operand = expr_copy(alloc, operand)?;
            unary(alloc, *operator, operand)
        }
        RawExpr::Parenthesized(inner) => {
            let inner = expr_copy(alloc, inner)?;
            parenthesized(alloc, inner)
        }
        RawExpr::Chain { first, rest } => {
            let first = expr_copy(alloc, first)?;
            chain_copy(alloc, rest, first)
        }
        RawExpr::Conditional {
            condition,
            then,
            otherwise,
        } => {
            let condition = expr_copy(alloc, condition)?;
            let before = both(condition, expr_copy(alloc, then))?;
            let ((condition, then), otherwise) = both(before, expr_copy(alloc, otherwise))?;
            choice(alloc, condition, then, otherwise)
        }
        RawExpr::Call { name, arguments } => {
            let arguments = expr_copies(alloc, arguments)?;
            call_of(alloc, name, arguments)
        }
        RawExpr::TableCall {
            name,
            index,
            argument,
        } => {
            let index = expr_copy(alloc, index)?;
            let (index, argument) = both(index, expr_copy(alloc, argument))?;
            table_call_of(alloc, name, index, argument)
        }
    }
}

// The chain with this first operand and copies of the operators and the operands after it.
#[cycle(copies)]
fn chain_copy(
    alloc: Global,
    rest: &[(Infix, RawExpr)],
    first: RawExpr,
) -> Result<RawExpr, AllocError>
    ensures { IfOk result (λ e. raw_expr_tree e ≡ raw_chained (raw_expr_tree first) (operand_trees rest.now)) }
{
    let mut chain = Chain::of(alloc, first);
    for (operator, operand) in rest {
        let (before, operand) = both(chain, expr_copy(alloc, operand))?;
        chain = before.with(*operator, operand)?;
    }
    chain.whole(alloc)
}

// Copies of arguments.
#[cycle(copies)]
fn expr_copies(alloc: Global, raw: &[RawExpr]) -> Result<Vec<RawExpr>, AllocError>
    ensures { IfOk result (λ es. raw_expr_trees es.items ≡ raw_expr_trees raw.now) }
{
    let mut copies = Vec::with_capacity(alloc, raw.len())?;
    for argument in raw {
        let copy = expr_copy(alloc, argument)?;
        copies.push(copy)?;
    }
    Ok(copies)
}

// A copy of a declaration, an assignment or a call.
fn simple_copy(alloc: Global, raw: &RawSimple) -> Result<RawSimple, AllocError>
    ensures { IfOk result (λ s. raw_simple_tree s ≡ raw_simple_tree raw.now) }
{
    match raw {
        RawSimple::DeclareScalar { name } => Ok(RawSimple::DeclareScalar {
            name: copied(alloc, name)?,
        }),
        RawSimple::DeclareArray { name, words } => Ok(RawSimple::DeclareArray {
            name: copied(alloc, name)?,
            words: *words,
        }),
        RawSimple::DeclareWith { name, value } => {
            let name = copied(alloc, name)?;
            let (name, value) = both(name, expr_copy(alloc, value))?;
            Ok(RawSimple::DeclareWith { name, value })
        }
        RawSimple::Set { name, value } => {
            let name = copied(alloc, name)?;
            let (name, value) = both(name, expr_copy(alloc, value))?;
            Ok(RawSimple::Set { name, value })
        }
        RawSimple::SetElement { name, index, value } => {
            let name = copied(alloc, name)?;
            let before = both(name, boxed_copy(alloc, index))?;
            let ((name, index), value) = both(before, expr_copy(alloc, value))?;
            Ok(RawSimple::SetElement { name, index, value })
        }
        RawSimple::Call { name, arguments } => {
            let name = copied(alloc, name)?;
            let (name, arguments) = both(name, expr_copies(alloc, arguments))?;
            Ok(RawSimple::Call { name, arguments })
        }
        RawSimple::TableCall {
            name,
            index,
            argument,
        } => {
            let index = expr_copy(alloc, index)?;
            let (index, argument) = both(index, expr_copy(alloc, argument))?;
            table_calling(alloc, name, index, argument)
        }
    }
}

// A copy of an expression, in a box.
fn boxed_copy(alloc: Global, raw: &RawExpr) -> Result<Box<RawExpr>, AllocError>
    ensures { IfOk result (λ e. raw_expr_tree e.value ≡ raw_expr_tree raw.now) }
{
    let copy = expr_copy(alloc, raw)?;
    let boxed = Box::new(alloc, copy)?;
    Ok(boxed)
}

// Copies of declarations, assignments and calls.
fn simple_copies(alloc: Global, raw: &[RawSimple]) -> Result<Vec<RawSimple>, AllocError>
    ensures { IfOk result (λ ss. map raw_simple_tree ss.items ≡ map raw_simple_tree raw.now) }
{
    let mut copies = Vec::with_capacity(alloc, raw.len())?;
    for simple in raw {
        let copy = simple_copy(alloc, simple)?;
        copies.push(copy)?;
    }
    Ok(copies)
}

// A copy of the condition of a `for`.
fn condition_copy(alloc: Global, raw: &Option<RawExpr>) -> Result<Option<RawExpr>, AllocError>
    ensures { IfOk result (λ c. option_map raw_expr_tree c ≡ option_map raw_expr_tree raw.now) }
{
    match raw {
        None => Ok(None),
        Some(condition) => Ok(Some(expr_copy(alloc, condition)?)),
    }
}

// A copy of the step of a `for`.
fn step_copy(alloc: Global, raw: &Option<RawSimple>) -> Result<Option<RawSimple>, AllocError>
    ensures { IfOk result (λ s. option_map raw_simple_tree s ≡ option_map raw_simple_tree raw.now) }
{
    match raw {
        None => Ok(None),
        Some(step) => Ok(Some(simple_copy(alloc, step)?)),
    }
}

/// Returns a copy of the parts in the parentheses of a `for`, in a box.
pub(crate) fn parts_copy(alloc: Global, raw: &RawForParts) -> Result<Box<RawForParts>, AllocError>
    ensures init { IfOk result (λ p. map raw_simple_tree p.value.init.items ≡ map raw_simple_tree raw.now.init.items) }
    ensures condition { IfOk result (λ p. option_map raw_expr_tree p.value.condition ≡ option_map raw_expr_tree raw.now.condition) }
    ensures step { IfOk result (λ p. option_map raw_simple_tree p.value.step ≡ option_map raw_simple_tree raw.now.step) }
{
    let init = simple_copies(alloc, &raw.init)?;
    let before = both(init, condition_copy(alloc, &raw.condition))?;
    let ((init, condition), step) = both(before, step_copy(alloc, &raw.step))?;
    let parts = Box::new(
        alloc,
        RawForParts {
            init,
            condition,
            step,
        },
    )?;
    Ok(parts)
}
