// Declarations and definitions outside functions.

ghost use Rattle.std.specs.Prelude.{◌≡◌, ◌++◌, None, false, IfOk, OnOk, map, option_map, length};
ghost use Rattle.c_tree.specs.RawViews.{name_tree, raw_item_tree, raw_item_trees};
ghost use Rattle.scope_rules.specs.Names.{find};
ghost use Rattle.scope_rules.specs.Faults.{least_of};
ghost use Rattle.scope_rules.specs.Expressions.{use_faults};
ghost use Rattle.scope_rules.specs.Meanings.{is_member, function_of};
ghost use Rattle.scope_rules.specs.Places.{spot_of};
ghost use Rattle.scope_rules.specs.Items.{outer_faults, is_missing, is_defined, param_faults, param_bound, prototype_faults, members_faults, members_of, with_definition, with_definitions, definitions, modelled_names, at_start, with_global, item_faults, item_after, items_faults, items_after};
ghost use Rattle.scope_rules.specs.ItemViews.{sofar_of, IsCounted};

use crate::faults::{Fault, Rule, note, note_if};
use crate::functions::{check_function, check_main};
use crate::meanings::{Found, Meaning, function_of};
use crate::names::Names;
use crate::places::Place;
use crate::simples::{check_declared, check_size, number};
use c_tree::{
    Function, GlobalFact, ModelledCall, Name, RawItem, RawPrototype, RawTable, TableFact,
};
use std::alloc::{AllocError, Global};

/// The resolved items so far, and the functions that the source defines.
#[derive(Drop)]
pub struct Items {
    pub place: Place,
    pub definitions: Names,
    pub globals: Vec<GlobalFact>,
    pub tables: Vec<TableFact>,
    pub functions: Vec<Function>,
    /// The maximum number of words that a function so far declares, without its parameters; at most
    /// 65,537.
    pub locals: u32,
}

// Notes the faults of a global's or a table's name with this meaning so far.
fn check_outer(least: &mut Option<Fault>, found: Option<Found>, at: u32)
    ensures { least.new ≡ least_of least.old (outer_faults found at) }
{
    if let Some(found) = found {
        match found.meaning {
            Meaning::Modelled(_) | Meaning::Spawn => note(least, at, Rule::Kind),
            Meaning::Local { .. }
            | Meaning::Global { .. }
            | Meaning::Table { .. }
            | Meaning::Function { .. } => note(least, at, Rule::Twice),
        }
    }
}

// Whether a name has no meaning.
fn is_missing(found: Option<Found>) -> bool
    ensures { result ≡ is_missing found }
{
    match found {
        None => true,
        Some(_) => false,
    }
}

// Whether a name is a function that is already defined.
fn is_defined(found: Option<Found>) -> bool
    ensures { result ≡ is_defined found }
{
    match found {
        Some(
            Found {
                meaning: Meaning::Function { defined, .. },
                ..
            },
        ) => defined,
        _ => false,
    }
}

// A parameter of a prototype, which may have a name.
fn prototype_name(
    names: &mut Names,
    least: &mut Option<Fault>,
    outer: usize,
    param: &Option<Name>,
) -> Result<(), AllocError>
    ensures names { OnOk result (names.new ≡ param_bound names.old (option_map name_tree param.now)) }
    ensures faults { OnOk result (least.new ≡ least_of least.old (param_faults names.old outer (option_map name_tree param.now))) }
{
    match param {
        None => Ok(()),
        Some(name) => {
            let meaning = Meaning::Local {
                variable: 0,
                array: false,
            };
            let earlier = names.bind(&name.text, meaning)?;
            check_declared(least, earlier, outer, name.at);
            Ok(())
        }
    }
}

// The names in a prototype's parentheses.
fn prototype_names(
    names: &mut Names,
    least: &mut Option<Fault>,
    params: &[Option<Name>],
) -> Result<(), AllocError>
    ensures names { OnOk result (names.new ≡ names.old) }
    ensures faults { OnOk result (least.new ≡ least_of least.old (prototype_faults names.old (length names.old) (map (option_map name_tree) params.now))) }
{
    let outer = names.len();
    for param in params {
        prototype_name(names, least, outer, param)?;
    }
    names.leave(outer);
    Ok(())
}

// A member of a table, by its number.
fn member(names: &Names, least: &mut Option<Fault>, name: &Name) -> u32
    ensures function { result ≡ function_of (find name.now.text.items names.now) }
    ensures faults { least.new ≡ least_of least.old (use_faults is_member (find name.now.text.items names.now) name.now.at) }
{
    let found = names.find(&name.text);
    match found {
        None => note(least, name.at, Rule::Unknown),
        Some(found) => note_if(least, !found.meaning.is_member(), name.at, Rule::Kind),
    }
    function_of(found)
}

// The members of a table, by their numbers.
fn members(
    alloc: Global,
    names: &Names,
    least: &mut Option<Fault>,
    raw: &[Name],
) -> Result<Vec<u32>, AllocError>
    ensures tree { IfOk result (λ fs. fs.items ≡ members_of names.now (map name_tree raw.now)) }
    ensures faults { OnOk result (least.new ≡ least_of least.old (members_faults names.now (map name_tree raw.now))) }
{
    let mut members = Vec::new(alloc);
    for name in raw {
        members.push(member(names, least, name))?;
    }
    Ok(members)
}

impl Place {
    // The members of a table, by their numbers.
    fn table_members(&mut self, raw: &[Name]) -> Result<Vec<u32>, AllocError>
        ensures tree { IfOk result (λ fs. fs.items ≡ members_of self.old.names (map name_tree raw.now)) }
        ensures place { OnOk result (spot_of self.new ≡ spot_of self.old) }
        ensures faults { OnOk result (self.new.least ≡ least_of self.old.least (members_faults self.old.names (map name_tree raw.now))) }
    {
        members(self.alloc, &self.names, &mut self.least, raw)
    }

    // The names in a prototype's parentheses.
    fn prototype_params(&mut self, raw: &[Option<Name>]) -> Result<(), AllocError>
        ensures place { OnOk result (spot_of self.new ≡ spot_of self.old) }
        ensures faults { OnOk result (self.new.least ≡ least_of self.old.least (prototype_faults self.old.names (length self.old.names) (map (option_map name_tree) raw.now))) }
    {
        prototype_names(&mut self.names, &mut self.least, raw)
    }
}

// Adds the function that an item defines, if it defines one.
fn define(definitions: &mut Names, item: &RawItem) -> Result<(), AllocError>
    ensures { OnOk result (definitions.new ≡ with_definition definitions.old (raw_item_tree item.now)) }
{
    match item {
        RawItem::Function(function) => {
            let meaning = Meaning::Function {
                function: number(definitions.len()),
                gives: function.gives,
                params: function.params.len(),
                defined: true,
            };
            definitions.declare(&function.name.text, meaning)?;
            Ok(())
        }
        RawItem::Global { .. }
        | RawItem::GlobalArray { .. }
        | RawItem::Table(_)
        | RawItem::Prototype(_) => Ok(()),
    }
}

/// Returns the functions that a source defines.
pub fn definitions(alloc: Global, raw: &[RawItem]) -> Result<Names, AllocError>
    ensures { IfOk result (λ ds. ds ≡ definitions (raw_item_trees raw.now)) }
{
    let mut definitions = Names::new(alloc);
    for item in raw {
        define(&mut definitions, item)?;
    }
    Ok(definitions)
}

// The names of the modelled calls and of `spawn`.
fn modelled_names(alloc: Global) -> Result<Names, AllocError>
    ensures { IfOk result (λ names. names ≡ modelled_names) }
{
    let mut names = Names::new(alloc);
    for call in &ModelledCall::ALL {
        names.declare(call.name().as_bytes(), Meaning::Modelled(*call))?;
    }
    names.with(b"spawn", Meaning::Spawn)
}

impl Items {
    /// Returns no items, of a source with these definitions.
    pub fn new(alloc: Global, definitions: Names) -> Result<Items, AllocError>
        ensures sofar { IfOk result (λ w. sofar_of w ≡ at_start) }
        ensures definitions { IfOk result (λ w. w.definitions ≡ definitions) }
        ensures faults { IfOk result (λ w. w.place.least ≡ None) }
        ensures counted { IfOk result (λ w. IsCounted w) }
    {
        let names = modelled_names(alloc)?;
        let outer = names.len();
        Ok(Items {
            place: Place {
                alloc,
                names,
                outer,
                sizes: Vec::new(alloc),
                site: 0,
                least: None,
            },
            definitions,
            globals: Vec::new(alloc),
            tables: Vec::new(alloc),
            functions: Vec::new(alloc),
            locals: 0,
        })
    }

    // Notes the faults of a global's or a table's name.
    fn check_name(&mut self, name: &Name)
        ensures sofar { sofar_of self.new ≡ sofar_of self.old }
        ensures definitions { self.new.definitions ≡ self.old.definitions }
        ensures faults { self.new.place.least ≡ least_of self.old.place.least (outer_faults (find name.now.text.items self.old.place.names) name.now.at) }
        ensures counted { IsCounted self.old → IsCounted self.new }
    {
        let found = self.place.names.find(&name.text);
        check_outer(&mut self.place.least, found, name.at);
    }

    // A global of this many words, each with the initial value `start`.
    fn global(&mut self, name: &Name, array: bool, words: u32, start: u32) -> Result<(), AllocError>
        ensures sofar { OnOk result (sofar_of self.new ≡ with_global (sofar_of self.old) (name_tree name.now) array (record { words = words; start = start })) }
        ensures definitions { OnOk result (self.new.definitions ≡ self.old.definitions) }
        ensures faults { OnOk result (self.new.place.least ≡ self.old.place.least) }
        ensures counted { OnOk result (IsCounted self.old → IsCounted self.new) }
    {
        let global = number(self.globals.len());
        let meaning = Meaning::Global { global, array };
        self.place.names.bind(&name.text, meaning)?;
        self.globals.push(GlobalFact { words, start })?;
        Ok(())
    }

    // A table.
    fn table(&mut self, raw: &RawTable) -> Result<(), AllocError>
        ensures sofar { OnOk result (sofar_of self.new ≡ item_after self.old.definitions (sofar_of self.old) (raw_item_tree (RawItem.Table raw.now))) }
        ensures definitions { OnOk result (self.new.definitions ≡ self.old.definitions) }
        ensures faults { OnOk result (self.new.place.least ≡ least_of self.old.place.least (item_faults self.old.definitions (sofar_of self.old) (raw_item_tree (RawItem.Table raw.now)))) }
        ensures counted { OnOk result (IsCounted self.old → IsCounted self.new) }
    {
        self.check_name(&raw.name);
        let is_wrong = raw.size == 0 || raw.size as usize != raw.members.len();
        note_if(&mut self.place.least, is_wrong, raw.name.at, Rule::Arity);
        let members = self.place.table_members(&raw.members)?;
        let table = number(self.tables.len());
        self.place
            .names
            .bind(&raw.name.text, Meaning::Table { table })?;
        self.tables.push(TableFact { members })?;
        Ok(())
    }

    // A prototype.
    fn prototype(&mut self, raw: &RawPrototype) -> Result<(), AllocError>
        ensures sofar { OnOk result (sofar_of self.new ≡ item_after self.old.definitions (sofar_of self.old) (raw_item_tree (RawItem.Prototype raw.now))) }
        ensures definitions { OnOk result (self.new.definitions ≡ self.old.definitions) }
        ensures faults { OnOk result (self.new.place.least ≡ least_of self.old.place.least (item_faults self.old.definitions (sofar_of self.old) (raw_item_tree (RawItem.Prototype raw.now)))) }
        ensures counted { OnOk result (IsCounted self.old → IsCounted self.new) }
    {
        let name = &raw.name;
        let params = raw.params.len();
        let definition = self.definitions.find(&name.text);
        let found = self.place.names.find(&name.text);
        let least = &mut self.place.least;
        note_if(least, is_missing(definition), name.at, Rule::Unknown);
        check_function(least, false, raw.gives, params, name.at, found);
        check_main(least, name, params);
        let meaning = Meaning::Function {
            function: function_of(definition),
            gives: raw.gives,
            params,
            defined: is_defined(found),
        };
        self.place.names.bind(&name.text, meaning)?;
        self.place.prototype_params(&raw.params)?;
        Ok(())
    }

    /// Resolves one more item.
    pub fn item(&mut self, raw: &RawItem) -> Result<(), AllocError>
        ensures sofar { OnOk result (sofar_of self.new ≡ item_after self.old.definitions (sofar_of self.old) (raw_item_tree raw.now)) }
        ensures definitions { OnOk result (self.new.definitions ≡ self.old.definitions) }
        ensures faults { OnOk result (self.new.place.least ≡ least_of self.old.place.least (item_faults self.old.definitions (sofar_of self.old) (raw_item_tree raw.now))) }
        ensures counted { OnOk result (IsCounted self.old → IsCounted self.new) }
    {
        match raw {
            RawItem::Global { name, start } => {
                self.check_name(name);
                self.global(name, false, 1, *start)
            }
            RawItem::GlobalArray { name, words } => {
                self.check_name(name);
                check_size(&mut self.place.least, name, *words);
                self.global(name, true, *words, 0)
            }
            RawItem::Table(table) => self.table(table),
            RawItem::Prototype(prototype) => self.prototype(prototype),
            RawItem::Function(function) => self.function(function),
        }
    }

    /// Resolves items one after another.
    pub fn items(&mut self, raw: &[RawItem]) -> Result<(), AllocError>
        ensures sofar { OnOk result (sofar_of self.new ≡ items_after self.old.definitions (sofar_of self.old) (raw_item_trees raw.now)) }
        ensures definitions { OnOk result (self.new.definitions ≡ self.old.definitions) }
        ensures faults { OnOk result (self.new.place.least ≡ least_of self.old.place.least (items_faults self.old.definitions (sofar_of self.old) (raw_item_trees raw.now))) }
        ensures counted { OnOk result (IsCounted self.old → IsCounted self.new) }
    {
        for item in raw {
            self.item(item)?;
        }
        Ok(())
    }
}
