// Calls, and right sides, which may be calls.

ghost use Rattle.std.specs.Prelude.{◌≡◌, ◌∷◌, List, IfOk, OnOk, map};
ghost use Rattle.c_tree.specs.RawViews.{name_tree, raw_expr_tree};
ghost use Rattle.c_tree.specs.Views.{call_tree, expr_tree, right_tree};
ghost use Rattle.scope_rules.specs.Names.{find};
ghost use Rattle.scope_rules.specs.Faults.{least_of};
ghost use Rattle.scope_rules.specs.Calls.{call_name_faults, table_name_faults, spawned_faults, spawn_faults, call_faults, table_call_faults, right_faults, spawned_function, first_value, spawn_of, call_of, table_call_of, right_of, right_after, next};
ghost use Rattle.scope_rules.specs.Places.{spot_of, called};

use crate::expressions::{expr, exprs, then_boxed};
use crate::faults::{Fault, Rule, note, note_if};
use crate::forms::{Form, form_of};
use crate::held::both;
use crate::meanings::{Callee, Found, callee_of, function_of, table_of};
use crate::names::Names;
use crate::places::Place;
use c_tree::{Call, Expr, Name, RawExpr, RightSide};
use std::alloc::{AllocError, Global};

// Notes the faults of the name of a call without an index.
fn check_call_name(
    least: &mut Option<Fault>,
    used: bool,
    found: Option<Found>,
    at: u32,
    count: usize,
)
    ensures { least.new ≡ least_of least.old (call_name_faults used found at count) }
{
    match found {
        None => note(least, at, Rule::Unknown),
        Some(found) => {
            let meaning = found.meaning;
            note_if(least, meaning.is_wrong_count(count), at, Rule::Arity);
            let is_kind = !meaning.is_callable() || (used && meaning.is_void());
            note_if(least, is_kind, at, Rule::Kind);
        }
    }
}

// Notes the faults of the name of a call with an index.
fn check_table_name(least: &mut Option<Fault>, found: Option<Found>, at: u32)
    ensures { least.new ≡ least_of least.old (table_name_faults found at) }
{
    match found {
        None => note(least, at, Rule::Unknown),
        Some(found) => {
            let meaning = found.meaning;
            note_if(least, meaning.is_wrong_count(1), at, Rule::Arity);
            note_if(least, !meaning.is_table(), at, Rule::Kind);
        }
    }
}

// The function that a `spawn` at the place `at` starts.
fn spawned(
    alloc: Global,
    names: &Names,
    least: &mut Option<Fault>,
    at: u32,
    raw: &RawExpr,
) -> Result<u32, AllocError>
    ensures function { IfOk result (λ f. f ≡ spawned_function names.now (raw_expr_tree raw.now)) }
    ensures faults { OnOk result (least.new ≡ least_of least.old (spawned_faults names.now at (raw_expr_tree raw.now))) }
{
    match form_of(raw) {
        Form::Name(name) => {
            let found = names.find(&name.text);
            match found {
                None => note(least, name.at, Rule::Unknown),
                Some(found) => {
                    note_if(least, !found.meaning.is_spawnable(), name.at, Rule::Kind);
                }
            }
            Ok(function_of(found))
        }
        Form::Call(..) | Form::TableCall(..) | Form::Neither => {
            note(least, at, Rule::Kind);
            let unused = expr(alloc, names, least, raw)?;
            drop(unused);
            Ok(0)
        }
    }
}

// The first of the values, or the number 0 if there is none.
fn first_value(mut values: Vec<Expr>) -> Expr
    ensures { expr_tree result ≡ first_value (map expr_tree values.items) }
{
    let first = if values.is_empty() {
        Expr::Number(0)
    } else {
        values.remove(0)
    };
    drop(values);
    first
}

// A call of `spawn` at the place `at`.
fn spawn(
    alloc: Global,
    names: &Names,
    least: &mut Option<Fault>,
    site: u32,
    at: u32,
    arguments: &[RawExpr],
) -> Result<Call, AllocError>
    ensures tree { IfOk result (λ c. call_tree c ≡ spawn_of names.now site (map raw_expr_tree arguments.now)) }
    ensures faults { OnOk result (least.new ≡ least_of least.old (spawn_faults names.now at (map raw_expr_tree arguments.now))) }
{
    match arguments.split_first() {
        None => {
            let argument = Box::new(alloc, Expr::Number(0))?;
            Ok(Call::Spawn {
                site,
                function: 0,
                argument,
            })
        }
        Some((first, rest)) => {
            let function = spawned(alloc, names, least, at, first)?;
            let values = exprs(alloc, names, least, rest)?;
            let argument = Box::new(alloc, first_value(values))?;
            Ok(Call::Spawn {
                site,
                function,
                argument,
            })
        }
    }
}

// The number of a call's site.
fn number_site(site: &mut u32) -> u32
    ensures number { result ≡ site.old }
    ensures next { site.new ≡ next site.old }
{
    let number = *site;
    *site = if number < 65_537 { number + 1 } else { 65_537 };
    number
}

impl Place {
    /// Resolves a call without an index, whose result is used or discarded.
    pub fn call(
        &mut self,
        used: bool,
        name: &Name,
        arguments: &[RawExpr],
    ) -> Result<Call, AllocError>
        ensures tree { IfOk result (λ c. call_tree c ≡ call_of self.old.names self.old.site (name_tree name.now) (map raw_expr_tree arguments.now)) }
        ensures place { OnOk result (spot_of self.new ≡ called (spot_of self.old)) }
        ensures faults { OnOk result (self.new.least ≡ least_of self.old.least (call_faults used self.old.names (name_tree name.now) (map raw_expr_tree arguments.now))) }
    {
        let alloc = self.alloc;
        let site = number_site(&mut self.site);
        let found = self.names.find(&name.text);
        check_call_name(&mut self.least, used, found, name.at, arguments.len());
        match callee_of(found) {
            Callee::Function(function) => {
                let arguments = exprs(alloc, &self.names, &mut self.least, arguments)?;
                Ok(Call::Function {
                    site,
                    function,
                    arguments,
                })
            }
            Callee::Modelled(call) => {
                let arguments = exprs(alloc, &self.names, &mut self.least, arguments)?;
                Ok(Call::Modelled {
                    site,
                    call,
                    arguments,
                })
            }
            Callee::Spawn => {
                spawn(
                    alloc,
                    &self.names,
                    &mut self.least,
                    site,
                    name.at,
                    arguments,
                )
            }
        }
    }

    /// Resolves a call with an index.
    pub fn table_call(
        &mut self,
        name: &Name,
        index: &RawExpr,
        argument: &RawExpr,
    ) -> Result<Call, AllocError>
        ensures tree { IfOk result (λ c. call_tree c ≡ table_call_of self.old.names self.old.site (name_tree name.now) (raw_expr_tree index.now) (raw_expr_tree argument.now)) }
        ensures place { OnOk result (spot_of self.new ≡ called (spot_of self.old)) }
        ensures faults { OnOk result (self.new.least ≡ least_of self.old.least (table_call_faults self.old.names (name_tree name.now) (raw_expr_tree index.now) (raw_expr_tree argument.now))) }
    {
        let alloc = self.alloc;
        let site = number_site(&mut self.site);
        let found = self.names.find(&name.text);
        check_table_name(&mut self.least, found, name.at);
        let index = expr(alloc, &self.names, &mut self.least, index)?;
        let index = Box::new(alloc, index)?;
        let (index, argument) = then_boxed(index, alloc, &self.names, &mut self.least, argument)?;
        Ok(Call::Table {
            site,
            table: table_of(found),
            index,
            argument,
        })
    }

    /// Resolves a right side or a returned value.
    pub fn right(&mut self, raw: &RawExpr) -> Result<RightSide, AllocError>
        ensures tree { IfOk result (λ v. right_tree v ≡ right_of self.old.names self.old.site (raw_expr_tree raw.now)) }
        ensures place { OnOk result (spot_of self.new ≡ record (spot_of self.old) { site = right_after self.old.site (raw_expr_tree raw.now) }) }
        ensures faults { OnOk result (self.new.least ≡ least_of self.old.least (right_faults self.old.names (raw_expr_tree raw.now))) }
    {
        match form_of(raw) {
            Form::Call(name, arguments) => {
                Ok(RightSide::Call(self.call(true, name, arguments)?))
            }
            Form::TableCall(name, index, argument) => {
                Ok(RightSide::Call(self.table_call(name, index, argument)?))
            }
            Form::Name(_) | Form::Neither => {
                let value = expr(self.alloc, &self.names, &mut self.least, raw)?;
                Ok(RightSide::Expr(value))
            }
        }
    }

    /// Resolves a right side, and returns it with the value before it.
    pub fn then_right<T: Drop>(
        &mut self,
        before: T,
        raw: &RawExpr,
    ) -> Result<(T, RightSide), AllocError>
        ensures before { IfOk result (λ p. p.0 ≡ before) }
        ensures tree { IfOk result (λ p. right_tree p.1 ≡ right_of self.old.names self.old.site (raw_expr_tree raw.now)) }
        ensures place { OnOk result (spot_of self.new ≡ record (spot_of self.old) { site = right_after self.old.site (raw_expr_tree raw.now) }) }
        ensures faults { OnOk result (self.new.least ≡ least_of self.old.least (right_faults self.old.names (raw_expr_tree raw.now))) }
    {
        both(before, self.right(raw))
    }
}
