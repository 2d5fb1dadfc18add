// Chains of operators, some operands of which have been moved before the statement.
ghost use Rattle.std.specs.Prelude.{◌≡◌, IfOk};
ghost use Rattle.c_tree.specs.RawTrees.{RawUnary};
ghost use Rattle.c_tree.specs.RawViews.{raw_expr_tree, raw_joined, raw_chained};
ghost use Rattle.hoist_parts.specs.Chains.{chain_tree, operand_trees, branches, condition_by};
ghost use Rattle.hoist_parts.specs.Expressions.{is_true, is_false};

use crate::new_names::used;
use c_tree::{BinaryOperator, Infix, RawExpr, UnaryOperator};
use std::alloc::{AllocError, Global};

/// A first operand, and operators with their right operands, which group to the left.
#[derive(Drop)]
pub struct Chain {
    pub first: RawExpr,
    pub rest: Vec<(Infix, RawExpr)>,
}

impl Chain {
    /// Returns a chain of one operand.
    pub fn of(alloc: Global, first: RawExpr) -> Chain
        ensures { chain_tree result ≡ raw_expr_tree first }
    {
        Chain {
            first,
            rest: Vec::new(alloc),
        }
    }

    /// Returns the chain with one more operator and its right operand.
    pub fn with(mut self, operator: Infix, operand: RawExpr) -> Result<Chain, AllocError>
        ensures { IfOk result (λ c. chain_tree c ≡ raw_joined (chain_tree self) operator (raw_expr_tree operand)) }
    {
        self.rest.push((operator, operand))?;
        Ok(self)
    }

    /// Returns the expression. Its list of operators has no spare capacity.
    pub fn whole(self, alloc: Global) -> Result<RawExpr, AllocError>
        ensures { IfOk result (λ e. raw_expr_tree e ≡ chain_tree self) }
    {
        let Chain { first, mut rest } = self;
        if rest.is_empty() {
            Ok(first)
        } else {
            rest.shrink_to_fit();
            Ok(chained(alloc, first, rest)?)
        }
    }
}

// A first operand, and operators with their right operands.
fn chained(
    alloc: Global,
    first: RawExpr,
    rest: Vec<(Infix, RawExpr)>,
) -> Result<RawExpr, AllocError>
    ensures { IfOk result (λ e. raw_expr_tree e ≡ raw_chained (raw_expr_tree first) (operand_trees rest.items)) }
{
    Ok(RawExpr::Chain {
        first: Box::new(alloc, first)?,
        rest,
    })
}

/// Returns a unary operator applied to an operand.
pub fn unary(
    alloc: Global,
    operator: UnaryOperator,
    operand: RawExpr,
) -> Result<RawExpr, AllocError>
    ensures { IfOk result (λ e. raw_expr_tree e ≡ RawUnary operator (raw_expr_tree operand)) }
{
    Ok(RawExpr::Unary {
        operator,
        operand: Box::new(alloc, operand)?,
    })
}

/// Returns `e != 0`.
pub fn is_true(alloc: Global, e: RawExpr) -> Result<RawExpr, AllocError>
    ensures { IfOk result (λ c. raw_expr_tree c ≡ is_true (raw_expr_tree e)) }
{
    let zero = RawExpr::Number(0);
    let chain = Chain::of(alloc, e).with(Infix::Binary(BinaryOperator::NotEqual), zero)?;
    chain.whole(alloc)
}

/// Returns `!e`.
pub fn is_false(alloc: Global, e: RawExpr) -> Result<RawExpr, AllocError>
    ensures { IfOk result (λ c. raw_expr_tree c ≡ is_false (raw_expr_tree e)) }
{
    Ok(unary(alloc, UnaryOperator::Not, e)?)
}

/// Returns whether the right operand is evaluated in a branch: that of `&&` or `||`, if it contains a call.
pub fn is_branching(operator: Infix, is_calling: bool) -> bool
    ensures { result ≡ branches operator is_calling }
{
    match operator {
        Infix::Binary(_) => false,
        Infix::LogicalAnd | Infix::LogicalOr => is_calling,
    }
}

/// Returns the condition under which the right operand of a logical operator is evaluated, by the new name of the left
/// operand's truth.
pub fn condition_by(alloc: Global, operator: Infix, number: u32) -> Result<RawExpr, AllocError>
    ensures { IfOk result (λ c. raw_expr_tree c ≡ condition_by operator number) }
{
    let truth = used(alloc, number)?;
    match operator {
        Infix::LogicalOr => Ok(is_false(alloc, truth)?),
        Infix::LogicalAnd | Infix::Binary(_) => Ok(truth),
    }
}
