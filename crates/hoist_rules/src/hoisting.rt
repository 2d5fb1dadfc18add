// The state while a function is rewritten.
ghost use Rattle.std.specs.Prelude.{◌≡◌, ◌+◌, ◌∷◌, [], IfOk, OnOk};
ghost use Rattle.c_tree.specs.RawViews.{raw_expr_tree, raw_stmt_tree};
ghost use Rattle.hoist_parts.specs.NewNames.{used, declared, declared_as, set_to};
ghost use Rattle.hoist_rules.specs.Receivers.{then_all, then_open, then_else, then_close};
ghost use Rattle.scope_rules.specs.Openings.{opening_tree};

use crate::receivers::Receive;
use c_tree::{RawExpr, RawSimple, RawStmt};
use hoist_parts::{new_name, used};
use scope_rules::Opening;
use std::alloc::{AllocError, Global};

/// The statements of the function so far, as their receiver has taken them, and the number of the next new name.
#[derive(Drop)]
pub(crate) struct Hoisting<R> {
    pub(crate) alloc: Global,
    pub(crate) next: u32,
    pub(crate) receiver: R,
}

impl<R: Receive> Hoisting<R> {
    /// Returns the number of the next new name, or an `AllocError` after 2^32 - 1 names.
    pub(crate) fn number(&mut self) -> Result<u32, AllocError>
        ensures number { IfOk result (λ k. k ≡ self.old.next) }
        ensures next { OnOk result (self.new.next ≡ self.old.next + 1) }
        ensures statements { self.new.receiver ≡ self.old.receiver }
        ensures alloc { self.new.alloc ≡ self.old.alloc }
    {
        let number = self.next;
        self.next = number.checked_add(1).ok_or(AllocError)?;
        Ok(number)
    }

    /// Appends a statement.
    pub(crate) fn push(&mut self, statement: RawStmt) -> Result<(), AllocError>
        ensures statements { OnOk result (R.so_far self.new.receiver ≡ then_all (R.so_far self.old.receiver) (raw_stmt_tree statement ∷ [])) }
        ensures next { self.new.next ≡ self.old.next }
        ensures alloc { self.new.alloc ≡ self.old.alloc }
    {
        self.receiver.push(statement)
    }

    /// Appends `int h = value;` for the new name with a number.
    pub(crate) fn declare_as(&mut self, number: u32, value: RawExpr) -> Result<(), AllocError>
        ensures statements { OnOk result (R.so_far self.new.receiver ≡ then_all (R.so_far self.old.receiver) (declared_as number (raw_expr_tree value) ∷ [])) }
        ensures next { self.new.next ≡ self.old.next }
        ensures alloc { self.new.alloc ≡ self.old.alloc }
    {
        let name = new_name(self.alloc, number)?;
        self.push(RawStmt::Simple(RawSimple::DeclareWith { name, value }))
    }

    /// Appends `int h;` for the new name with a number.
    pub(crate) fn declare(&mut self, number: u32) -> Result<(), AllocError>
        ensures statements { OnOk result (R.so_far self.new.receiver ≡ then_all (R.so_far self.old.receiver) (declared number ∷ [])) }
        ensures next { self.new.next ≡ self.old.next }
        ensures alloc { self.new.alloc ≡ self.old.alloc }
    {
        let name = new_name(self.alloc, number)?;
        self.push(RawStmt::Simple(RawSimple::DeclareScalar { name }))
    }

    /// Appends `h = value;` for the new name with a number.
    pub(crate) fn set(&mut self, number: u32, value: RawExpr) -> Result<(), AllocError>
        ensures statements { OnOk result (R.so_far self.new.receiver ≡ then_all (R.so_far self.old.receiver) (set_to number (raw_expr_tree value) ∷ [])) }
        ensures next { self.new.next ≡ self.old.next }
        ensures alloc { self.new.alloc ≡ self.old.alloc }
    {
        let name = new_name(self.alloc, number)?;
        self.push(RawStmt::Simple(RawSimple::Set { name, value }))
    }

    /// Declares a new name for a part of an expression, and returns the name's value.
    pub(crate) fn name_part(&mut self, part: RawExpr) -> Result<RawExpr, AllocError>
        ensures value { IfOk result (λ e. raw_expr_tree e ≡ used self.old.next) }
        ensures statements { OnOk result (R.so_far self.new.receiver ≡ then_all (R.so_far self.old.receiver) (declared_as self.old.next (raw_expr_tree part) ∷ [])) }
        ensures next { OnOk result (self.new.next ≡ self.old.next + 1) }
        ensures alloc { self.new.alloc ≡ self.old.alloc }
    {
        let number = self.number()?;
        self.declare_as(number, part)?;
        used(self.alloc, number)
    }

    /// Begins a block, or a statement with a body.
    pub(crate) fn open(&mut self, opening: Opening) -> Result<(), AllocError>
        ensures statements { OnOk result (R.so_far self.new.receiver ≡ then_open (opening_tree opening.entry) (R.so_far self.old.receiver)) }
        ensures next { self.new.next ≡ self.old.next }
        ensures alloc { self.new.alloc ≡ self.old.alloc }
    {
        self.receiver.open(opening)
    }

    /// Begins the `else` of the `if` that was begun last.
    pub(crate) fn otherwise(&mut self) -> Result<(), AllocError>
        ensures statements { OnOk result (R.so_far self.new.receiver ≡ then_else (R.so_far self.old.receiver)) }
        ensures next { self.new.next ≡ self.old.next }
        ensures alloc { self.new.alloc ≡ self.old.alloc }
    {
        self.receiver.otherwise()
    }

    /// Ends the block, or the statement with a body, that was begun last.
    pub(crate) fn close(&mut self) -> Result<(), AllocError>
        ensures statements { OnOk result (R.so_far self.new.receiver ≡ then_close (R.so_far self.old.receiver)) }
        ensures next { self.new.next ≡ self.old.next }
        ensures alloc { self.new.alloc ≡ self.old.alloc }
    {
        self.receiver.close()
    }
}
