// Expressions built from their parts, and values that are kept while an allocation may fail.
ghost use Rattle.std.specs.Prelude.{◌≡◌, Ok, IfOk};
ghost use Rattle.c_tree.specs.RawTrees.{RawElement, RawParenthesized, RawConditional, RawCall, RawTableCall, RawTableCalling};
ghost use Rattle.c_tree.specs.RawViews.{name_tree, raw_expr_tree, raw_expr_trees, raw_simple_tree};

use c_tree::{Name, RawExpr, RawSimple};
use std::alloc::{AllocError, Global};

/// Returns a copy of a name.
pub(crate) fn copied(alloc: Global, name: &Name) -> Result<Name, AllocError>
    ensures { IfOk result (λ n. name_tree n ≡ name_tree name.now) }
{
    Ok(Name {
        at: name.at,
        text: Vec::from_slice(alloc, &name.text)?,
    })
}

/// Returns a copy of a name, and the value that is held.
pub(crate) fn named<T: Drop>(alloc: Global, name: &Name, held: T) -> Result<(Name, T), AllocError>
    ensures name { IfOk result (λ pair. name_tree pair.0 ≡ name_tree name.now) }
    ensures held { IfOk result (λ pair. pair.1 ≡ held) }
{
    let name = copied(alloc, name)?;
    Ok((name, held))
}

/// Returns both values, or the error if the next one couldn't be allocated.
pub(crate) fn both<T: Drop, U>(held: T, next: Result<U, AllocError>) -> Result<(T, U), AllocError>
    ensures held { IfOk result (λ pair. pair.0 ≡ held) }
    ensures next { IfOk result (λ pair. next ≡ Ok pair.1) }
{
    Ok((held, next?))
}

/// Returns two values in boxes.
pub(crate) fn boxed_pair<T: Drop>(
    alloc: Global,
    one: T,
    other: T,
) -> Result<(Box<T>, Box<T>), AllocError>
    ensures one { IfOk result (λ pair. pair.0.value ≡ one) }
    ensures other { IfOk result (λ pair. pair.1.value ≡ other) }
{
    let one = Box::new(alloc, one)?;
    let other = Box::new(alloc, other)?;
    Ok((one, other))
}

// A value in a box, with two values that are kept.
fn boxed_beside<T: Drop, U: Drop>(
    alloc: Global,
    boxed: T,
    held: (U, U),
) -> Result<(Box<T>, (U, U)), AllocError>
    ensures boxed { IfOk result (λ pair. pair.0.value ≡ boxed) }
    ensures held { IfOk result (λ pair. pair.1 ≡ held) }
{
    let boxed = Box::new(alloc, boxed)?;
    Ok((boxed, held))
}

/// Returns `name[index]`.
pub(crate) fn element(alloc: Global, name: &Name, index: RawExpr) -> Result<RawExpr, AllocError>
    ensures { IfOk result (λ e. raw_expr_tree e ≡ RawElement (name_tree name.now) (raw_expr_tree index)) }
{
    let index = Box::new(alloc, index)?;
    let (name, index) = named(alloc, name, index)?;
    Ok(RawExpr::Element { name, index })
}

/// Returns `(inner)`.
pub(crate) fn parenthesized(alloc: Global, inner: RawExpr) -> Result<RawExpr, AllocError>
    ensures { IfOk result (λ e. raw_expr_tree e ≡ RawParenthesized (raw_expr_tree inner)) }
{
    Ok(RawExpr::Parenthesized(Box::new(alloc, inner)?))
}

/// Returns `condition ? first : second`.
pub(crate) fn choice(
    alloc: Global,
    condition: RawExpr,
    first: RawExpr,
    second: RawExpr,
) -> Result<RawExpr, AllocError>
    ensures { IfOk result (λ e. raw_expr_tree e ≡ RawConditional (raw_expr_tree condition) (raw_expr_tree first) (raw_expr_tree second)) }
{
    let (condition, chosen) = boxed_beside(alloc, condition, (first, second))?;
    let (first, second) = chosen;
    match boxed_pair(alloc, first, second) {
        Ok((then, otherwise)) => Ok(RawExpr::Conditional {
            condition,
            then,
            otherwise,
        }),
        Err(error) => {
            drop(condition);
            Err(error)
        }
    }
}

/// Returns `name(arguments)`.
pub(crate) fn call_of(
    alloc: Global,
    name: &Name,
    arguments: Vec<RawExpr>,
) -> Result<RawExpr, AllocError>
    ensures { IfOk result (λ e. raw_expr_tree e ≡ RawCall (name_tree name.now) (raw_expr_trees arguments.items)) }
{
    let (name, arguments) = named(alloc, name, arguments)?;
    Ok(RawExpr::Call { name, arguments })
}

/// Returns `name[index](argument)`.
pub(crate) fn table_call_of(
    alloc: Global,
    name: &Name,
    index: RawExpr,
    argument: RawExpr,
) -> Result<RawExpr, AllocError>
    ensures { IfOk result (λ e. raw_expr_tree e ≡ RawTableCall (name_tree name.now) (raw_expr_tree index) (raw_expr_tree argument)) }
{
    let pair = boxed_pair(alloc, index, argument)?;
    let (name, pair) = named(alloc, name, pair)?;
    let (index, argument) = pair;
    Ok(RawExpr::TableCall {
        name,
        index,
        argument,
    })
}

/// Returns `name[index](argument);`.
pub(crate) fn table_calling(
    alloc: Global,
    name: &Name,
    index: RawExpr,
    argument: RawExpr,
) -> Result<RawSimple, AllocError>
    ensures { IfOk result (λ s. raw_simple_tree s ≡ RawTableCalling (name_tree name.now) (raw_expr_tree index) (raw_expr_tree argument)) }
{
    let pair = boxed_pair(alloc, index, argument)?;
    let (name, pair) = named(alloc, name, pair)?;
    let (index, argument) = pair;
    Ok(RawSimple::TableCall {
        name,
        index,
        argument,
    })
}
