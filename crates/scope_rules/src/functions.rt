// Definitions of functions.

ghost use Rattle.std.specs.Prelude.{◌≡◌, ◌-◌, ◌∷◌, ◌++◌, [], true, false, IfOk, OnOk, map, length, drop, sum, max};
ghost use Rattle.c_tree.specs.declared.raw_items.RawItem.{RawItem};
ghost use Rattle.c_tree.specs.RawViews.{name_tree, raw_item_tree};
ghost use Rattle.c_tree.specs.Views.{stmt_trees, function_tree};
ghost use Rattle.c_tree.specs.Temporaries.{capped};
ghost use Rattle.scope_rules.specs.Names.{find};
ghost use Rattle.scope_rules.specs.Faults.{least_of};
ghost use Rattle.scope_rules.specs.Places.{spot_of};
ghost use Rattle.scope_rules.specs.Items.{differ, function_faults, main_faults, with_function, params_faults, params_after, unsized, body_spot, item_faults, item_after};
ghost use Rattle.scope_rules.specs.ItemViews.{sofar_of, IsCounted};
ghost use Rattle.scope_rules.specs.Heads.{head_faults};

use crate::faults::{Fault, Rule, note, note_if};
use crate::held::both;
use crate::items::Items;
use crate::limits::{declared_words, larger};
use crate::meanings::{Found, Meaning, function_of};
use crate::names::Names;
use crate::openings::Open;
use crate::places::Place;
use crate::simples::number;
use crate::statements::Scope;
use c_tree::{Function, Name, RawFunction, Stmt};
use std::alloc::{AllocError, Global};
use std::mem;

/// A definition whose body isn't at its end: its head, the scope that it entered, and the statements so far that are
/// kept.
#[derive(Drop)]
pub struct Begun {
    pub name: Vec<u8>,
    pub gives: bool,
    pub params: usize,
    pub scope: Scope,
    /// The statements so far of the block, or of the body, that was begun last.
    pub body: Vec<Stmt>,
    /// Whether they are in a loop.
    pub loops: bool,
    /// The blocks, and the statements with a body, that aren't at their ends.
    pub unfinished: Vec<Open>,
}

// Whether two results differ.
fn differ(gives: bool, other: bool) -> bool
    ensures { result ≡ differ gives other }
{
    if gives { !other } else { other }
}

/// Notes the faults of a prototype or a definition of a name with this meaning so far.
pub fn check_function(
    least: &mut Option<Fault>,
    defining: bool,
    gives: bool,
    params: usize,
    at: u32,
    found: Option<Found>,
)
    ensures { least.new ≡ least_of least.old (function_faults defining gives params at found) }
{
    let Some(found) = found else {
        return;
    };
    match found.meaning {
        Meaning::Local { .. } | Meaning::Global { .. } | Meaning::Table { .. } => {
            note(least, at, Rule::Twice);
        }
        Meaning::Function {
            gives: earlier,
            params: count,
            defined,
            ..
        } => {
            note_if(least, defining && defined, at, Rule::Twice);
            note_if(
                least,
                differ(earlier, gives) || count != params,
                at,
                Rule::Arity,
            );
        }
        Meaning::Modelled(_) | Meaning::Spawn => note(least, at, Rule::Kind),
    }
}

/// Notes the fault of `main` with parameters.
pub fn check_main(least: &mut Option<Fault>, name: &Name, params: usize)
    ensures { least.new ≡ least_of least.old (main_faults (name_tree name.now) params) }
{
    let is_main = name.text.as_slice() == b"main".as_slice();
    note_if(least, is_main && params != 0, name.at, Rule::Kind);
}

impl Place {
    // The parameters of a definition.
    fn params(&mut self, raw: &[Name]) -> Result<(), AllocError>
        ensures place { OnOk result (spot_of self.new ≡ params_after (spot_of self.old) (map name_tree raw.now)) }
        ensures faults { OnOk result (self.new.least ≡ least_of self.old.least (params_faults (spot_of self.old) (map name_tree raw.now))) }
    {
        for name in raw {
            self.declare(name, false, 1)?;
        }
        Ok(())
    }

    // The head of a definition: its name is in scope from here on.
    fn head(
        &mut self,
        definitions: &Names,
        gives: bool,
        name: &Name,
        params: usize,
    ) -> Result<(), AllocError>
        ensures place { OnOk result (spot_of self.new ≡ record (spot_of self.old) { names = with_function definitions.now self.old.names gives (name_tree name.now) params true }) }
        ensures faults { OnOk result (self.new.least ≡ least_of self.old.least (function_faults true gives params name.now.at (find name.now.text.items self.old.names) ++ main_faults (name_tree name.now) params)) }
    {
        let definition = definitions.find(&name.text);
        let meaning = Meaning::Function {
            function: function_of(definition),
            gives,
            params,
            defined: true,
        };
        let earlier = self.names.bind(&name.text, meaning)?;
        check_function(&mut self.least, true, gives, params, name.at, earlier);
        check_main(&mut self.least, name, params);
        Ok(())
    }

    // Enters the scope of a definition, with its parameters.
    fn enter_function(&mut self, params: &[Name]) -> Result<Scope, AllocError>
        ensures place { OnOk result (spot_of self.new ≡ params_after (unsized (spot_of self.old)) (map name_tree params.now)) }
        ensures faults { OnOk result (self.new.least ≡ least_of self.old.least (params_faults (unsized (spot_of self.old)) (map name_tree params.now))) }
        ensures outer { IfOk result (λ s. s.outer ≡ self.old.outer) }
        ensures count { IfOk result (λ s. s.count ≡ length self.old.names) }
    {
        self.sizes.clear();
        let scope = self.enter();
        self.params(params)?;
        Ok(scope)
    }

    /// Begins a definition, in a source with these definitions.
    pub fn begin(
        &mut self,
        definitions: &Names,
        gives: bool,
        name: &Name,
        params: &[Name],
    ) -> Result<Begun, AllocError>
        ensures place { OnOk result (spot_of self.new ≡ body_spot definitions.now (spot_of self.old) gives (name_tree name.now) (map name_tree params.now)) }
        ensures faults { OnOk result (self.new.least ≡ least_of self.old.least (head_faults definitions.now (spot_of self.old) gives (name_tree name.now) (map name_tree params.now))) }
        ensures named { IfOk result (λ b. b.name.items ≡ name.now.text.items) }
        ensures given { IfOk result (λ b. b.gives ≡ gives) }
        ensures taken { IfOk result (λ b. b.params ≡ length params.now) }
        ensures outer { IfOk result (λ b. b.scope.outer ≡ self.old.outer) }
        ensures inner { IfOk result (λ b. b.scope.count ≡ length (with_function definitions.now self.old.names gives (name_tree name.now) (length params.now) true)) }
        ensures body { IfOk result (λ b. b.body.items ≡ []) }
        ensures outside { IfOk result (λ b. b.loops ≡ false) }
        ensures finished { IfOk result (λ b. b.unfinished.items ≡ []) }
    {
        let alloc = self.alloc;
        let count = params.len();
        self.head(definitions, gives, name, count)?;
        let text = Vec::from_slice(alloc, &name.text)?;
        let (text, scope) = both(text, self.enter_function(params))?;
        Ok(Begun {
            name: text,
            gives,
            params: count,
            scope,
            body: Vec::new(alloc),
            loops: false,
            unfinished: Vec::new(alloc),
        })
    }
}

impl Items {
    /// Ends a definition.
    pub fn end(&mut self, begun: Begun) -> Result<(), AllocError>
        ensures place { OnOk result (spot_of self.new.place ≡ record (spot_of self.old.place) { names = drop (length self.old.place.names - begun.scope.count) self.old.place.names; outer = begun.scope.outer; sizes = [] }) }
        ensures faults { OnOk result (self.new.place.least ≡ self.old.place.least) }
        ensures definitions { OnOk result (self.new.definitions ≡ self.old.definitions) }
        ensures globals { OnOk result (self.new.globals ≡ self.old.globals) }
        ensures tables { OnOk result (self.new.tables ≡ self.old.tables) }
        ensures functions { OnOk result (map function_tree self.new.functions.items ≡ map function_tree self.old.functions.items ++ record { name = begun.name.items; params = capped begun.params; gives = begun.gives; sizes = self.old.place.sizes.items; body = stmt_trees begun.body.items } ∷ []) }
        ensures locals { OnOk result (self.new.locals ≡ max self.old.locals (capped (sum (drop begun.params self.old.place.sizes.items)))) }
    {
        let Begun {
            name,
            gives,
            params,
            scope,
            mut body,
            ..
        } = begun;
        self.place.leave(scope);
        body.shrink_to_fit();
        let sizes = mem::replace(&mut self.place.sizes, Vec::new(self.place.alloc));
        self.locals = larger(self.locals, declared_words(&sizes, params));
        self.functions.push(Function {
            name,
            params: number(params),
            gives,
            sizes,
            body,
        })?;
        Ok(())
    }

    /// Resolves a definition.
    pub fn function(&mut self, raw: &RawFunction) -> Result<(), AllocError>
        ensures sofar { OnOk result (sofar_of self.new ≡ item_after self.old.definitions (sofar_of self.old) (raw_item_tree (RawItem.Function raw.now))) }
        ensures definitions { OnOk result (self.new.definitions ≡ self.old.definitions) }
        ensures faults { OnOk result (self.new.place.least ≡ least_of self.old.place.least (item_faults self.old.definitions (sofar_of self.old) (raw_item_tree (RawItem.Function raw.now)))) }
        ensures counted { OnOk result (IsCounted self.old → IsCounted self.new) }
    {
        let gives = raw.gives;
        let begun = self
            .place
            .begin(&self.definitions, gives, &raw.name, &raw.params)?;
        let (mut begun, body) = both(begun, self.place.stmts(gives, false, &raw.body))?;
        begun.body = body;
        self.end(begun)?;
        Ok(())
    }
}
