// The rewriting of declarations, assignments, calls and returned values.
ghost use Rattle.std.specs.Prelude.{◌≡◌, ◌+◌, option_map, IfOk, OnOk};
ghost use Rattle.c_tree.specs.RawTrees.{RawReturn};
ghost use Rattle.c_tree.specs.RawViews.{raw_expr_tree, raw_simple_tree, raw_stmt_tree};
ghost use Rattle.hoist_parts.specs.Calls.{holds_call, holds_nested};
ghost use Rattle.hoist_parts.specs.Expressions.{names_in, part_after, index_left, argument_left};
ghost use Rattle.hoist_parts.specs.Statements.{returned_names, returned_before, returned_left, value_names, value_left, value_before, table_before, simple_names, simple_left, simple_before};
ghost use Rattle.hoist_rules.specs.EarlierParts.{part_left, element_before};
ghost use Rattle.hoist_rules.specs.Receivers.{then_all};

use crate::built::{both, copied, table_call_of, table_calling};
use crate::hoisting::Hoisting;
use crate::receivers::Receive;
use c_tree::{RawExpr, RawSimple, RawStmt};
use hoist_parts::{holds_call, holds_nested, is_spawn};
use std::alloc::AllocError;

impl<R: Receive> Hoisting<R> {
    /// Rewrites a right side or a returned value, which may be a call itself.
    pub(crate) fn value(&mut self, raw: &RawExpr) -> Result<RawExpr, AllocError>
        ensures left { IfOk result (λ e. raw_expr_tree e ≡ value_left self.old.next (raw_expr_tree raw.now)) }
        ensures before { OnOk result (R.so_far self.new.receiver ≡ then_all (R.so_far self.old.receiver) (value_before self.old.next (raw_expr_tree raw.now))) }
        ensures next { OnOk result (self.new.next ≡ self.old.next + value_names (raw_expr_tree raw.now)) }
    {
        let alloc = self.alloc;
        match raw {
            RawExpr::Call { name, arguments } => self.call(name, arguments),
            RawExpr::TableCall {
                name,
                index,
                argument,
            } => {
                let (index, argument) = self.index_and_argument(index, argument)?;
                table_call_of(alloc, name, index, argument)
            }
            RawExpr::Chain { first, rest } => {
                if rest.is_empty() {
                    self.value(first)
                } else {
                    self.expression(raw)
                }
            }
            _ => self.expression(raw),
        }
    }

    // An index and a right side after it.
    fn index_and_value(
        &mut self,
        index: &RawExpr,
        value: &RawExpr,
    ) -> Result<(Box<RawExpr>, RawExpr), AllocError>
        ensures index { IfOk result (λ p. raw_expr_tree p.0.value ≡ part_left (holds_nested (raw_expr_tree value.now)) self.old.next (raw_expr_tree index.now)) }
        ensures value { IfOk result (λ p. raw_expr_tree p.1 ≡ value_left (part_after self.old.next (holds_nested (raw_expr_tree value.now)) (raw_expr_tree index.now)) (raw_expr_tree value.now)) }
        ensures before { OnOk result (R.so_far self.new.receiver ≡ then_all (R.so_far self.old.receiver) (element_before self.old.next (raw_expr_tree index.now) (raw_expr_tree value.now))) }
        ensures next { OnOk result (self.new.next ≡ part_after self.old.next (holds_nested (raw_expr_tree value.now)) (raw_expr_tree index.now) + value_names (raw_expr_tree value.now)) }
    {
        let index = self.part(holds_nested(value), index)?;
        let index = Box::new(self.alloc, index)?;
        both(index, self.value(value))
    }

    // A table's index and the argument after it.
    fn index_and_argument(
        &mut self,
        index: &RawExpr,
        argument: &RawExpr,
    ) -> Result<(RawExpr, RawExpr), AllocError>
        ensures index { IfOk result (λ p. raw_expr_tree p.0 ≡ index_left self.old.next (raw_expr_tree index.now) (raw_expr_tree argument.now)) }
        ensures argument { IfOk result (λ p. raw_expr_tree p.1 ≡ argument_left self.old.next (raw_expr_tree index.now) (raw_expr_tree argument.now)) }
        ensures before { OnOk result (R.so_far self.new.receiver ≡ then_all (R.so_far self.old.receiver) (table_before self.old.next (raw_expr_tree index.now) (raw_expr_tree argument.now))) }
        ensures next { OnOk result (self.new.next ≡ part_after self.old.next (holds_call (raw_expr_tree argument.now)) (raw_expr_tree index.now) + names_in (raw_expr_tree argument.now)) }
    {
        let index = self.part(holds_call(argument), index)?;
        both(index, self.expression(argument))
    }

    /// Rewrites a declaration, an assignment or a call.
    pub(crate) fn simple(&mut self, raw: &RawSimple) -> Result<RawSimple, AllocError>
        ensures left { IfOk result (λ s. raw_simple_tree s ≡ simple_left self.old.next (raw_simple_tree raw.now)) }
        ensures before { OnOk result (R.so_far self.new.receiver ≡ then_all (R.so_far self.old.receiver) (simple_before self.old.next (raw_simple_tree raw.now))) }
        ensures next { OnOk result (self.new.next ≡ self.old.next + simple_names (raw_simple_tree raw.now)) }
    {
        let alloc = self.alloc;
        match raw {
            RawSimple::DeclareScalar { name } => Ok(RawSimple::DeclareScalar {
                name: copied(alloc, name)?,
            }),
            RawSimple::DeclareArray { name, words } => Ok(RawSimple::DeclareArray {
                name: copied(alloc, name)?,
                words: *words,
            }),
            RawSimple::DeclareWith { name, value } => {
                let name = copied(alloc, name)?;
                let (name, value) = both(name, self.value(value))?;
                Ok(RawSimple::DeclareWith { name, value })
            }
            RawSimple::Set { name, value } => {
                let name = copied(alloc, name)?;
                let (name, value) = both(name, self.value(value))?;
                Ok(RawSimple::Set { name, value })
            }
            RawSimple::SetElement { name, index, value } => {
                let name = copied(alloc, name)?;
                let (name, (index, value)) = both(name, self.index_and_value(index, value))?;
                Ok(RawSimple::SetElement { name, index, value })
            }
            RawSimple::Call { name, arguments } => {
                let called = copied(alloc, name)?;
                let (name, arguments) = both(called, self.arguments(is_spawn(name), arguments))?;
                Ok(RawSimple::Call { name, arguments })
            }
            RawSimple::TableCall {
                name,
                index,
                argument,
            } => {
                let (index, argument) = self.index_and_argument(index, argument)?;
                table_calling(alloc, name, index, argument)
            }
        }
    }

    /// Rewrites a `return`.
    pub(crate) fn returned(
        &mut self,
        at: u32,
        value: &Option<RawExpr>,
    ) -> Result<RawStmt, AllocError>
        ensures statements { IfOk result (λ s. R.so_far self.new.receiver ≡ then_all (R.so_far self.old.receiver) (returned_before self.old.next (option_map raw_expr_tree value.now))) }
        ensures left { IfOk result (λ s. raw_stmt_tree s ≡ RawReturn at (returned_left self.old.next (option_map raw_expr_tree value.now))) }
        ensures next { OnOk result (self.new.next ≡ self.old.next + returned_names (option_map raw_expr_tree value.now)) }
    {
        match value {
            None => Ok(RawStmt::Return { at, value: None }),
            Some(value) => {
                let value = self.value(value)?;
                Ok(RawStmt::Return {
                    at,
                    value: Some(value),
                })
            }
        }
    }
}
