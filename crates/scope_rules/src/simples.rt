// Declarations, assignments and calls.

ghost use Rattle.std.specs.Prelude.{◌≡◌, ◌∷◌, IfOk, OnOk, map, false, if◌then◌else◌};
ghost use Rattle.c_tree.specs.RawTrees.{RawDeclareWith, RawSetElement};
ghost use Rattle.c_tree.specs.RawViews.{name_tree, raw_expr_tree, raw_simple_tree};
ghost use Rattle.c_tree.specs.Views.{expr_tree, right_tree, simple_tree};
ghost use Rattle.c_tree.specs.Temporaries.{capped};
ghost use Rattle.scope_rules.specs.Faults.{least_of};
ghost use Rattle.scope_rules.specs.Places.{spot_of};
ghost use Rattle.scope_rules.specs.Simples.{declared_faults, declare_faults, size_faults, next_variable, with_variable, set_scalar, set_element, simple_faults, simple_of, simple_after, simples_faults, simples_of, simples_after};

use crate::expressions::{array, expr, scalar};
use crate::faults::{Fault, Rule, note_if};
use crate::held::{both, boxed, with_next};
use crate::meanings::{Found, Meaning, Variable};
use crate::places::Place;
use c_tree::{Expr, Name, RawExpr, RawSimple, RightSide, Simple};
use std::alloc::AllocError;

/// Notes the faults of the declaration of a name with this meaning so far.
pub fn check_declared(least: &mut Option<Fault>, found: Option<Found>, outer: usize, at: u32)
    ensures { least.new ≡ least_of least.old (declared_faults found outer at) }
{
    if let Some(found) = found {
        note_if(least, !(found.position < outer), at, Rule::Twice);
        note_if(least, found.meaning.is_modelled(), at, Rule::Kind);
    }
}

/// Notes the faults of the size of an array.
pub fn check_size(least: &mut Option<Fault>, name: &Name, words: u32)
    ensures { least.new ≡ least_of least.old (size_faults (name_tree name.now) words) }
{
    note_if(least, words < 1 || 65_536 < words, name.at, Rule::Kind);
}

/// Returns a count as the next number, up to 65,537.
pub fn number(count: usize) -> u32
    ensures { result ≡ capped count }
{
    if count < 65_537 { count as u32 } else { 65_537 }
}

// An assignment to a variable or a global of one word.
fn scalar_set(scalar: Variable, value: RightSide) -> Simple
    ensures { simple_tree result ≡ set_scalar scalar (right_tree value) }
{
    match scalar {
        Variable::Local(variable) => Simple::SetLocal { variable, value },
        Variable::Global(global) => Simple::SetGlobal { global, value },
    }
}

// An assignment to a word of an array.
fn element_set(array: Variable, index: Box<Expr>, value: Box<RightSide>) -> Simple
    ensures { simple_tree result ≡ set_element array (expr_tree index.value) (right_tree value.value) }
{
    match array {
        Variable::Local(array) => Simple::SetLocalElement {
            array,
            index,
            value,
        },
        Variable::Global(array) => Simple::SetGlobalElement {
            array,
            index,
            value,
        },
    }
}

impl Place {
    /// Declares a variable of this many words, and returns its number.
    pub fn declare(&mut self, name: &Name, array: bool, words: u32) -> Result<u32, AllocError>
        ensures number { IfOk result (λ x. x ≡ next_variable (spot_of self.old)) }
        ensures place { OnOk result (spot_of self.new ≡ with_variable (spot_of self.old) (name_tree name.now) array words) }
        ensures faults { OnOk result (self.new.least ≡ least_of self.old.least (declare_faults (spot_of self.old) (name_tree name.now))) }
    {
        let variable = number(self.sizes.len());
        let meaning = Meaning::Local { variable, array };
        let earlier = self.names.bind(&name.text, meaning)?;
        check_declared(&mut self.least, earlier, self.outer, name.at);
        self.sizes.push(words)?;
        Ok(variable)
    }

    // Declares a variable of one word, and returns its number with the value before it.
    fn then_declare<T: Drop>(&mut self, before: T, name: &Name) -> Result<(T, u32), AllocError>
        ensures before { IfOk result (λ p. p.0 ≡ before) }
        ensures number { IfOk result (λ p. p.1 ≡ next_variable (spot_of self.old)) }
        ensures place { OnOk result (spot_of self.new ≡ with_variable (spot_of self.old) (name_tree name.now) false 1) }
        ensures faults { OnOk result (self.new.least ≡ least_of self.old.least (declare_faults (spot_of self.old) (name_tree name.now))) }
    {
        both(before, self.declare(name, false, 1))
    }

    // A declaration of one name with its initialiser, in which the name isn't in scope yet.
    fn declare_with(&mut self, name: &Name, initial: &RawExpr) -> Result<Simple, AllocError>
        ensures tree { IfOk result (λ s. simple_tree s ≡ simple_of (spot_of self.old) (RawDeclareWith (name_tree name.now) (raw_expr_tree initial.now))) }
        ensures place { OnOk result (spot_of self.new ≡ simple_after (spot_of self.old) (RawDeclareWith (name_tree name.now) (raw_expr_tree initial.now))) }
        ensures faults { OnOk result (self.new.least ≡ least_of self.old.least (simple_faults (spot_of self.old) (RawDeclareWith (name_tree name.now) (raw_expr_tree initial.now)))) }
    {
        let value = self.right(initial)?;
        let (value, variable) = self.then_declare(value, name)?;
        Ok(Simple::DeclareWith { variable, value })
    }

    // An assignment to a word of an array.
    fn set_element(
        &mut self,
        name: &Name,
        index: &RawExpr,
        value: &RawExpr,
    ) -> Result<Simple, AllocError>
        ensures tree { IfOk result (λ s. simple_tree s ≡ simple_of (spot_of self.old) (RawSetElement (name_tree name.now) (raw_expr_tree index.now) (raw_expr_tree value.now))) }
        ensures place { OnOk result (spot_of self.new ≡ simple_after (spot_of self.old) (RawSetElement (name_tree name.now) (raw_expr_tree index.now) (raw_expr_tree value.now))) }
        ensures faults { OnOk result (self.new.least ≡ least_of self.old.least (simple_faults (spot_of self.old) (RawSetElement (name_tree name.now) (raw_expr_tree index.now) (raw_expr_tree value.now)))) }
    {
        let array = array(&self.names, &mut self.least, name);
        let index = expr(self.alloc, &self.names, &mut self.least, index)?;
        let index = Box::new(self.alloc, index)?;
        let (index, value) = self.then_right(index, value)?;
        let (index, value) = both(index, boxed(self.alloc, Ok(value)))?;
        Ok(element_set(array, index, value))
    }

    /// Resolves a declaration of one name, an assignment, or a call.
    pub fn simple(&mut self, raw: &RawSimple) -> Result<Simple, AllocError>
        ensures tree { IfOk result (λ s. simple_tree s ≡ simple_of (spot_of self.old) (raw_simple_tree raw.now)) }
        ensures place { OnOk result (spot_of self.new ≡ simple_after (spot_of self.old) (raw_simple_tree raw.now)) }
        ensures faults { OnOk result (self.new.least ≡ least_of self.old.least (simple_faults (spot_of self.old) (raw_simple_tree raw.now))) }
    {
        match raw {
            RawSimple::DeclareScalar { name } => {
                let variable = self.declare(name, false, 1)?;
                Ok(Simple::DeclareScalar { variable })
            }
            RawSimple::DeclareArray { name, words } => {
                let variable = self.declare(name, true, *words)?;
                check_size(&mut self.least, name, *words);
                Ok(Simple::DeclareArray {
                    variable,
                    words: *words,
                })
            }
            RawSimple::DeclareWith { name, value } => self.declare_with(name, value),
            RawSimple::Set { name, value } => {
                let variable = scalar(&self.names, &mut self.least, name);
                let value = self.right(value)?;
                Ok(scalar_set(variable, value))
            }
            RawSimple::SetElement { name, index, value } => self.set_element(name, index, value),
            RawSimple::Call { name, arguments } => {
                Ok(Simple::Call(self.call(false, name, arguments)?))
            }
            RawSimple::TableCall {
                name,
                index,
                argument,
            } => Ok(Simple::Call(self.table_call(name, index, argument)?)),
        }
    }

    /// Resolves declarations, assignments and calls one after another.
    pub fn simples(&mut self, raw: &[RawSimple]) -> Result<Vec<Simple>, AllocError>
        ensures tree { IfOk result (λ ps. map simple_tree ps.items ≡ simples_of (spot_of self.old) (map raw_simple_tree raw.now)) }
        ensures place { OnOk result (spot_of self.new ≡ simples_after (spot_of self.old) (map raw_simple_tree raw.now)) }
        ensures faults { OnOk result (self.new.least ≡ least_of self.old.least (simples_faults (spot_of self.old) (map raw_simple_tree raw.now))) }
    {
        let mut simples = Vec::new(self.alloc);
        for simple in raw {
            simples = with_next(simples, self.simple(simple))?;
        }
        Ok(simples)
    }
}
