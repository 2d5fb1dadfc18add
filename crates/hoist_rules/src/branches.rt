// The statements before a logical operator and a conditional: a new name, and a branch that sets it.
ghost use Rattle.std.specs.Prelude.{◌≡◌, ◌+◌, [], ◌∷◌, IfOk, OnOk};
ghost use Rattle.c_tree.specs.RawViews.{raw_expr_tree};
ghost use Rattle.scope_rules.specs.Openings.{OpenBlock, OpenIf};
ghost use Rattle.hoist_parts.specs.NewNames.{used, declared, declared_as, set_to};
ghost use Rattle.hoist_parts.specs.Expressions.{is_true};
ghost use Rattle.hoist_parts.specs.Chains.{chain_tree, condition_by};
ghost use Rattle.hoist_rules.specs.Receivers.{then_all, then_open, then_close};

use crate::built::both;
use crate::hoisting::Hoisting;
use crate::receivers::Receive;
use c_tree::{Infix, RawExpr};
use hoist_parts::{Chain, condition_by, is_true, used};
use scope_rules::Opening;
use std::alloc::AllocError;

impl<R: Receive> Hoisting<R> {
    /// Appends `int h = l != 0;` for the next new name and a left operand, and returns the name's number.
    pub(crate) fn declare_truth(&mut self, left: Chain) -> Result<u32, AllocError>
        ensures number { IfOk result (λ k. k ≡ self.old.next) }
        ensures before { OnOk result (R.so_far self.new.receiver ≡ then_all (R.so_far self.old.receiver) (declared_as self.old.next (is_true (chain_tree left)) ∷ [])) }
        ensures next { OnOk result (self.new.next ≡ self.old.next + 1) }
    {
        let alloc = self.alloc;
        let whole = left.whole(alloc)?;
        let truth = is_true(alloc, whole)?;
        match self.number() {
            Ok(number) => {
                self.declare_as(number, truth)?;
                Ok(number)
            }
            Err(error) => {
                drop(truth);
                Err(error)
            }
        }
    }

    /// Appends `int h;` for the next new name, and returns its number.
    pub(crate) fn declare_next(&mut self) -> Result<u32, AllocError>
        ensures number { IfOk result (λ k. k ≡ self.old.next) }
        ensures before { OnOk result (R.so_far self.new.receiver ≡ then_all (R.so_far self.old.receiver) (declared self.old.next ∷ [])) }
        ensures next { OnOk result (self.new.next ≡ self.old.next + 1) }
    {
        let number = self.number()?;
        self.declare(number)?;
        Ok(number)
    }

    /// Begins `if (c) {`, with the condition of a logical operator.
    pub(crate) fn open_decision(&mut self, operator: Infix, number: u32) -> Result<(), AllocError>
        ensures statements { OnOk result (R.so_far self.new.receiver ≡ then_open OpenBlock (then_open (OpenIf (condition_by operator number)) (R.so_far self.old.receiver))) }
        ensures next { OnOk result (self.new.next ≡ self.old.next) }
    {
        let condition = condition_by(self.alloc, operator, number)?;
        self.open(Opening::If(&condition))?;
        self.open(Opening::Block)
    }

    /// Appends `h = r != 0; }` for the new name with a number, and ends the `if`. Returns the name's value.
    pub(crate) fn close_decision(
        &mut self,
        number: u32,
        value: RawExpr,
    ) -> Result<Chain, AllocError>
        ensures left { IfOk result (λ c. chain_tree c ≡ used number) }
        ensures statements { OnOk result (R.so_far self.new.receiver ≡ then_close (then_close (then_all (R.so_far self.old.receiver) (set_to number (is_true (raw_expr_tree value)) ∷ [])))) }
        ensures next { OnOk result (self.new.next ≡ self.old.next) }
    {
        let alloc = self.alloc;
        let truth = is_true(alloc, value)?;
        self.set(number, truth)?;
        self.close()?;
        self.close()?;
        let name = used(alloc, number)?;
        Ok(Chain::of(alloc, name))
    }

    /// Appends `int h; if (c)` for the next new name, whose number it returns.
    pub(crate) fn open_choice(&mut self, condition: RawExpr) -> Result<u32, AllocError>
        ensures number { IfOk result (λ k. k ≡ self.old.next) }
        ensures statements { OnOk result (R.so_far self.new.receiver ≡ then_open (OpenIf (raw_expr_tree condition)) (then_all (R.so_far self.old.receiver) (declared self.old.next ∷ []))) }
        ensures next { OnOk result (self.new.next ≡ self.old.next + 1) }
    {
        let (condition, number) = both(condition, self.declare_next())?;
        self.open(Opening::If(&condition))?;
        Ok(number)
    }
}
