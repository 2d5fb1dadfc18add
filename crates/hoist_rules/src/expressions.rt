// The rewriting of an expression.
ghost use Rattle.std.specs.Prelude.{◌≡◌, ◌+◌, false, [], ◌∷◌, ◌++◌, IfOk, OnOk};
ghost use Rattle.c_tree.specs.RawViews.{name_tree, raw_expr_tree, raw_expr_trees};
ghost use Rattle.hoist_parts.specs.NewNames.{set_to};
ghost use Rattle.hoist_parts.specs.Calls.{is_spawn, holds_call};
ghost use Rattle.hoist_parts.specs.Chains.{chain_tree, operand_trees, operand_left, operand_before, operand_after, operands_left, operands_before, operands_after};
ghost use Rattle.hoist_parts.specs.Arguments.{passed_left, passed_before, passed_after};
ghost use Rattle.hoist_parts.specs.Expressions.{one_if, names_in, arguments_names, in_block, part_after, part_or, part_named, left_of, arguments_left, call_left, before, arguments_before};
ghost use Rattle.hoist_rules.specs.EarlierParts.{part_left, part_before};
ghost use Rattle.hoist_rules.specs.Receivers.{then_all};

use crate::built::{call_of, choice, copied, element, parenthesized, table_call_of};
use crate::hoisting::Hoisting;
use crate::receivers::Receive;
use c_tree::{Infix, Name, RawExpr};
use hoist_parts::{
    Chain, calls_after, calls_among, either_holds_call, holds_call, is_branching, is_left_alone,
    is_spawn, needs_name, unary, used,
};
use scope_rules::Opening;
use std::alloc::AllocError;

impl<R: Receive> Hoisting<R> {
    // A left operand, under a new name or as it is.
    fn named_left(&mut self, left: Chain, is_named: bool) -> Result<Chain, AllocError>
        ensures left { IfOk result (λ c. chain_tree c ≡ part_or is_named self.old.next (chain_tree left)) }
        ensures before { OnOk result (R.so_far self.new.receiver ≡ then_all (R.so_far self.old.receiver) (part_named is_named self.old.next (chain_tree left))) }
        ensures next { OnOk result (self.new.next ≡ self.old.next + one_if is_named) }
    {
        if !is_named {
            return Ok(left);
        }
        let alloc = self.alloc;
        let whole = left.whole(alloc)?;
        let name = self.name_part(whole)?;
        Ok(Chain::of(alloc, name))
    }

    // What remains of a part, under a new name or as it is.
    fn named_part(&mut self, part: RawExpr, is_named: bool) -> Result<RawExpr, AllocError>
        ensures left { IfOk result (λ e. raw_expr_tree e ≡ part_or is_named self.old.next (raw_expr_tree part)) }
        ensures before { OnOk result (R.so_far self.new.receiver ≡ then_all (R.so_far self.old.receiver) (part_named is_named self.old.next (raw_expr_tree part))) }
        ensures next { OnOk result (self.new.next ≡ self.old.next + one_if is_named) }
    {
        if !is_named {
            return Ok(part);
        }
        self.name_part(part)
    }
}

impl<R: Receive> Hoisting<R> {
    /// Appends the statements before an expression, and returns what remains of it.
    #[cycle(hoist)]
    pub(crate) fn expression(&mut self, raw: &RawExpr) -> Result<RawExpr, AllocError>
        ensures left { IfOk result (λ e. raw_expr_tree e ≡ left_of self.old.next (raw_expr_tree raw.now)) }
        ensures before { OnOk result (R.so_far self.new.receiver ≡ then_all (R.so_far self.old.receiver) (before self.old.next (raw_expr_tree raw.now))) }
        ensures next { OnOk result (self.new.next ≡ self.old.next + names_in (raw_expr_tree raw.now)) }
    {
        let alloc = self.alloc;
        match raw {
            RawExpr::Number(value) => Ok(RawExpr::Number(*value)),
            RawExpr::Name(name) => Ok(RawExpr::Name(copied(alloc, name)?)),
            RawExpr::Element { name, index } => {
                let index = self.expression(index)?;
                element(alloc, name, index)
            }
            RawExpr::Unary { operator, operand } => {
                let operand = self.expression(operand)?;
                unary(alloc, *operator, operand)
            }
            RawExpr::Parenthesized(inner) => {
                let inner = self.expression(inner)?;
                parenthesized(alloc, inner)
            }
            RawExpr::Chain { first, rest } => {
                let operand = self.expression(first)?;
                let left = Chain::of(alloc, operand);
                let chain = self.operands(left, is_left_alone(first), rest)?;
                Ok(chain.whole(alloc)?)
            }
            RawExpr::Conditional {
                condition,
                then,
                otherwise,
            } => {
                let is_branched = either_holds_call(then, otherwise);
                let condition = self.expression(condition)?;
                if is_branched {
                    let number = self.open_choice(condition)?;
                    self.branch(number, then)?;
                    self.otherwise()?;
                    self.branch(number, otherwise)?;
                    self.close()?;
                    Ok(used(alloc, number)?)
                } else {
                    let first = match self.kept(then) {
                        Ok(first) => first,
                        Err(error) => {
                            drop(condition);
                            return Err(error);
                        }
                    };
                    match self.kept(otherwise) {
                        Ok(second) => Ok(choice(alloc, condition, first, second)?),
                        Err(error) => {
                            drop(condition);
                            drop(first);
                            Err(error)
                        }
                    }
                }
            }
            RawExpr::Call { name, arguments } => {
                let arguments = self.arguments(is_spawn(name), arguments)?;
                let call = call_of(alloc, name, arguments)?;
                Ok(self.name_part(call)?)
            }
            RawExpr::TableCall {
                name,
                index,
                argument,
            } => {
                let index = self.part(holds_call(argument), index)?;
                match self.expression(argument) {
                    Ok(argument) => {
                        let call = table_call_of(alloc, name, index, argument)?;
                        Ok(self.name_part(call)?)
                    }
                    Err(error) => {
                        drop(index);
                        Err(error)
                    }
                }
            }
        }
    }

    // The operators after the first operand of a chain, with their operands.
    #[cycle(hoist)]
    fn operands(
        &mut self,
        mut left: Chain,
        mut is_alone: bool,
        rest: &[(Infix, RawExpr)],
    ) -> Result<Chain, AllocError>
        ensures left { IfOk result (λ c. chain_tree c ≡ operands_left self.old.next is_alone (chain_tree left) (operand_trees rest.now)) }
        ensures before { OnOk result (R.so_far self.new.receiver ≡ then_all (R.so_far self.old.receiver) (operands_before self.old.next is_alone (chain_tree left) (operand_trees rest.now))) }
        ensures next { OnOk result (self.new.next ≡ operands_after self.old.next is_alone (operand_trees rest.now)) }
    {
        for (operator, operand) in rest {
            left = self.operand(left, is_alone, *operator, operand)?;
            is_alone = false;
        }
        Ok(left)
    }

    // One operator and its right operand. If `is_alone`, the left operand needs no name. If the right operand of `&&`
    // or `||` contains a call, it is evaluated in a branch.
    #[cycle(hoist)]
    fn operand(
        &mut self,
        left: Chain,
        is_alone: bool,
        operator: Infix,
        right: &RawExpr,
    ) -> Result<Chain, AllocError>
        ensures left { IfOk result (λ c. chain_tree c ≡ operand_left self.old.next operator is_alone (chain_tree left) (raw_expr_tree right.now)) }
        ensures before { OnOk result (R.so_far self.new.receiver ≡ then_all (R.so_far self.old.receiver) (operand_before self.old.next operator is_alone (chain_tree left) (raw_expr_tree right.now))) }
        ensures next { OnOk result (self.new.next ≡ operand_after self.old.next operator is_alone (raw_expr_tree right.now)) }
    {
        let is_calling = holds_call(right);
        if is_branching(operator, is_calling) {
            let number = self.declare_truth(left)?;
            self.open_decision(operator, number)?;
            let value = self.expression(right)?;
            return self.close_decision(number, value);
        }
        let left = self.named_left(left, needs_name(is_calling, is_alone))?;
        match self.expression(right) {
            Ok(right) => Ok(left.with(operator, right)?),
            Err(error) => {
                drop(left);
                Err(error)
            }
        }
    }

    // `{ P(e) h = e; }` for the new name with a number.
    #[cycle(hoist)]
    fn branch(&mut self, number: u32, e: &RawExpr) -> Result<(), AllocError>
        ensures statements { OnOk result (R.so_far self.new.receiver ≡ then_all (R.so_far self.old.receiver)
            (in_block (before self.old.next (raw_expr_tree e.now) ++ set_to number (left_of self.old.next (raw_expr_tree e.now)) ∷ []) ∷ [])) }
        ensures next { OnOk result (self.new.next ≡ self.old.next + names_in (raw_expr_tree e.now)) }
    {
        self.open(Opening::Block)?;
        let value = self.expression(e)?;
        self.set(number, value)?;
        self.close()
    }

    /// Returns an expression that contains no call, as it is.
    #[cycle(hoist)]
    pub(crate) fn kept(&mut self, raw: &RawExpr) -> Result<RawExpr, AllocError>
        requires { holds_call (raw_expr_tree raw.now) ≡ false }
        ensures kept { IfOk result (λ e. raw_expr_tree e ≡ raw_expr_tree raw.now) }
        ensures outer { OnOk result (R.so_far self.new.receiver ≡ R.so_far self.old.receiver) }
        ensures next { OnOk result (self.new.next ≡ self.old.next) }
    {
        Ok(self.expression(raw)?)
    }

    /// Rewrites a part before others; it gets a name if one of them contains a call.
    #[cycle(hoist)]
    pub(crate) fn part(&mut self, is_later_call: bool, raw: &RawExpr) -> Result<RawExpr, AllocError>
        ensures left { IfOk result (λ e. raw_expr_tree e ≡ part_left is_later_call self.old.next (raw_expr_tree raw.now)) }
        ensures before { OnOk result (R.so_far self.new.receiver ≡ then_all (R.so_far self.old.receiver) (part_before is_later_call self.old.next (raw_expr_tree raw.now))) }
        ensures next { OnOk result (self.new.next ≡ part_after self.old.next is_later_call (raw_expr_tree raw.now)) }
    {
        let part = self.expression(raw)?;
        self.named_part(part, needs_name(is_later_call, is_left_alone(raw)))
    }

    /// Rewrites the arguments of a call, of which the first may keep its place.
    #[cycle(hoist)]
    pub(crate) fn arguments(
        &mut self,
        is_first_kept: bool,
        raw: &[RawExpr],
    ) -> Result<Vec<RawExpr>, AllocError>
        ensures left { IfOk result (λ es. raw_expr_trees es.items ≡ arguments_left is_first_kept self.old.next (raw_expr_trees raw.now)) }
        ensures before { OnOk result (R.so_far self.new.receiver ≡ then_all (R.so_far self.old.receiver) (arguments_before is_first_kept self.old.next (raw_expr_trees raw.now))) }
        ensures next { OnOk result (self.new.next ≡ self.old.next + arguments_names is_first_kept (raw_expr_trees raw.now)) }
    {
        let mut arguments = Vec::with_capacity(self.alloc, raw.len())?;
        let mut stays = is_first_kept;
        let mut calls = calls_among(raw);
        for argument in raw {
            calls = calls_after(calls, argument);
            let left = self.argument(stays, 0 < calls, argument)?;
            stays = false;
            arguments.push(left)?;
        }
        Ok(arguments)
    }

    // One argument: a part before the others, or the first one of `spawn`, which is replaced by the number 0 if it
    // contains a call.
    #[cycle(hoist)]
    fn argument(
        &mut self,
        stays: bool,
        is_later_call: bool,
        raw: &RawExpr,
    ) -> Result<RawExpr, AllocError>
        ensures left { IfOk result (λ e. raw_expr_tree e ≡ passed_left stays is_later_call self.old.next (raw_expr_tree raw.now)) }
        ensures before { OnOk result (R.so_far self.new.receiver ≡ then_all (R.so_far self.old.receiver) (passed_before stays is_later_call self.old.next (raw_expr_tree raw.now))) }
        ensures next { OnOk result (self.new.next ≡ passed_after stays is_later_call self.old.next (raw_expr_tree raw.now)) }
    {
        if !stays {
            return self.part(is_later_call, raw);
        }
        if holds_call(raw) {
            Ok(RawExpr::Number(0))
        } else {
            self.kept(raw)
        }
    }
}

impl<R: Receive> Hoisting<R> {
    /// Rewrites a call: appends the statements before its arguments, and returns the call itself.
    pub(crate) fn call(&mut self, name: &Name, arguments: &[RawExpr]) -> Result<RawExpr, AllocError>
        ensures left { IfOk result (λ e. raw_expr_tree e ≡ call_left self.old.next (name_tree name.now) (raw_expr_trees arguments.now)) }
        ensures before { OnOk result (R.so_far self.new.receiver ≡ then_all (R.so_far self.old.receiver)
            (arguments_before (is_spawn (name_tree name.now)) self.old.next (raw_expr_trees arguments.now))) }
        ensures next { OnOk result (self.new.next ≡ self.old.next + arguments_names (is_spawn (name_tree name.now)) (raw_expr_trees arguments.now)) }
    {
        let alloc = self.alloc;
        let arguments = self.arguments(is_spawn(name), arguments)?;
        call_of(alloc, name, arguments)
    }
}
