// Expressions: the meaning of each name in them.

ghost use Rattle.std.specs.Prelude.{◌≡◌, IfOk, OnOk, map};
ghost use Rattle.c_tree.specs.RawViews.{name_tree, raw_expr_tree};
ghost use Rattle.c_tree.specs.Views.{expr_tree};
ghost use Rattle.scope_rules.specs.Names.{find};
ghost use Rattle.scope_rules.specs.Faults.{least_of};
ghost use Rattle.scope_rules.specs.Meanings.{variable_of};
ghost use Rattle.scope_rules.specs.Expressions.{scalar_faults, array_faults, expr_faults, exprs_faults, scalar_value, element_value, expr_of, exprs_of};
ghost use Rattle.scope_rules.specs.Operands.{operand_trees, operands_of, operands_faults};

use crate::faults::{Fault, Rule, note, note_if};
use crate::held::{both, boxed, with_next};
use crate::meanings::{Variable, variable_of};
use crate::names::Names;
use c_tree::{Expr, Infix, Name, RawExpr};
use std::alloc::{AllocError, Global};

/// Returns the variable or global that a name without an index stands for.
pub fn scalar(names: &Names, least: &mut Option<Fault>, name: &Name) -> Variable
    ensures variable { result ≡ variable_of (find name.now.text.items names.now) }
    ensures faults { least.new ≡ least_of least.old (scalar_faults names.now (name_tree name.now)) }
{
    let found = names.find(&name.text);
    match found {
        None => note(least, name.at, Rule::Unknown),
        Some(found) => note_if(least, !found.meaning.is_scalar(), name.at, Rule::Kind),
    }
    variable_of(found)
}

/// Returns the array that a name with an index stands for.
pub fn array(names: &Names, least: &mut Option<Fault>, name: &Name) -> Variable
    ensures variable { result ≡ variable_of (find name.now.text.items names.now) }
    ensures faults { least.new ≡ least_of least.old (array_faults names.now (name_tree name.now)) }
{
    let found = names.find(&name.text);
    match found {
        None => note(least, name.at, Rule::Unknown),
        Some(found) => note_if(least, !found.meaning.is_array(), name.at, Rule::Kind),
    }
    variable_of(found)
}

// The value of a variable or a global of one word.
fn scalar_value(scalar: Variable) -> Expr
    ensures { expr_tree result ≡ scalar_value scalar }
{
    match scalar {
        Variable::Local(variable) => Expr::Local(variable),
        Variable::Global(global) => Expr::Global(global),
    }
}

// The value of a word of an array.
fn element_value(array: Variable, index: Box<Expr>) -> Expr
    ensures { expr_tree result ≡ element_value array (expr_tree index.value) }
{
    match array {
        Variable::Local(array) => Expr::LocalElement { array, index },
        Variable::Global(array) => Expr::GlobalElement { array, index },
    }
}

/// Returns an expression with numbers in place of names.
#[cycle(expressions)]
pub fn expr(
    alloc: Global,
    names: &Names,
    least: &mut Option<Fault>,
    raw: &RawExpr,
) -> Result<Expr, AllocError>
    ensures tree { IfOk result (λ e. expr_tree e ≡ expr_of names.now (raw_expr_tree raw.now)) }
    ensures faults { OnOk result (least.new ≡ least_of least.old (expr_faults names.now (raw_expr_tree raw.now))) }
{
    match raw {
        RawExpr::Number(value) => Ok(Expr::Number(*value)),
        RawExpr::Name(name) => Ok(scalar_value(scalar(names, least, name))),
        RawExpr::Element { name, index } => {
            let array = array(names, least, name);
            let index = boxed_expr(alloc, names, least, index)?;
            Ok(element_value(array, index))
        }
        RawExpr::Unary { operator, operand } => {
            let operand = boxed_expr(alloc, names, least, operand)?;
            Ok(Expr::Unary {
                operator: *operator,
                operand,
            })
        }
        RawExpr::Parenthesized(inner) => {
            let inner = boxed_expr(alloc, names, least, inner)?;
            Ok(Expr::Parenthesized(inner))
        }
        RawExpr::Chain { first, rest } => {
            let first = boxed_expr(alloc, names, least, first)?;
            let (first, rest) = both(first, operands(alloc, names, least, rest))?;
            Ok(Expr::Chain { first, rest })
        }
        RawExpr::Conditional {
            condition,
            then,
            otherwise,
        } => {
            let condition = boxed_expr(alloc, names, least, condition)?;
            let before = both(condition, boxed_expr(alloc, names, least, then))?;
            let ((condition, then), otherwise) = both(
                before,
                boxed_expr(alloc, names, least, otherwise),
            )?;
            Ok(Expr::Conditional {
                condition,
                then,
                otherwise,
            })
        }
        RawExpr::Call { .. } | RawExpr::TableCall { .. } => Ok(Expr::Number(0)),
    }
}

// An expression in a box.
#[cycle(expressions)]
fn boxed_expr(
    alloc: Global,
    names: &Names,
    least: &mut Option<Fault>,
    raw: &RawExpr,
) -> Result<Box<Expr>, AllocError>
    ensures tree { IfOk result (λ e. expr_tree e.value ≡ expr_of names.now (raw_expr_tree raw.now)) }
    ensures faults { OnOk result (least.new ≡ least_of least.old (expr_faults names.now (raw_expr_tree raw.now))) }
{
    boxed(alloc, expr(alloc, names, least, raw))
}

// The operators after the first operand of a chain, with their operands.
#[cycle(expressions)]
fn operands(
    alloc: Global,
    names: &Names,
    least: &mut Option<Fault>,
    rest: &[(Infix, RawExpr)],
) -> Result<Vec<(Infix, Expr)>, AllocError>
    ensures tree { IfOk result (λ ps. operand_trees ps.items ≡ operands_of names.now rest.now) }
    ensures faults { OnOk result (least.new ≡ least_of least.old (operands_faults names.now rest.now)) }
{
    let mut operands = Vec::with_capacity(alloc, rest.len())?;
    for (operator, operand) in rest {
        let next = both(*operator, expr(alloc, names, least, operand));
        operands = with_next(operands, next)?;
    }
    Ok(operands)
}

/// Resolves an expression, and returns it with the value before it.
pub fn then_boxed<T: Drop>(
    before: T,
    alloc: Global,
    names: &Names,
    least: &mut Option<Fault>,
    raw: &RawExpr,
) -> Result<(T, Box<Expr>), AllocError>
    ensures before { IfOk result (λ p. p.0 ≡ before) }
    ensures tree { IfOk result (λ p. expr_tree p.1.value ≡ expr_of names.now (raw_expr_tree raw.now)) }
    ensures faults { OnOk result (least.new ≡ least_of least.old (expr_faults names.now (raw_expr_tree raw.now))) }
{
    both(before, boxed(alloc, expr(alloc, names, least, raw)))
}

/// Returns arguments with numbers in place of names.
pub fn exprs(
    alloc: Global,
    names: &Names,
    least: &mut Option<Fault>,
    raw: &[RawExpr],
) -> Result<Vec<Expr>, AllocError>
    ensures tree { IfOk result (λ es. map expr_tree es.items ≡ exprs_of names.now (map raw_expr_tree raw.now)) }
    ensures faults { OnOk result (least.new ≡ least_of least.old (exprs_faults names.now (map raw_expr_tree raw.now))) }
{
    let mut exprs = Vec::with_capacity(alloc, raw.len())?;
    for argument in raw {
        exprs = with_next(exprs, expr(alloc, names, least, argument))?;
    }
    Ok(exprs)
}
