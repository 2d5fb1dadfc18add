// From the bytes of a source to a program.
ghost use Rattle.std.specs.Prelude.{◌≡◌, ◌≢◌, ◌≤◌, ◌⊎◌, ◌∷◌, ◌++◌, [], List, None, length, IfOk, IfErr, IsErrOf, MatchResult};
ghost use Rattle.c_tree.specs.RawTrees.{RawItemTree};
ghost use Rattle.c_tree.specs.Trees.{ProgramTree};
ghost use Rattle.c_tree.specs.ProgramView.{program_tree};
ghost use Rattle.c_tree.specs.RawProgramView.{raw_program_tree};
ghost use Rattle.c_tree.specs.RawViews.{raw_item_tree, raw_item_trees};
ghost use Rattle.c_parse.specs.ForParts.{nested_in_fors};
ghost use Rattle.grammar_laws.specs.Nested.{is_call};
ghost use Rattle.grammar_laws.specs.Places.{item_places, items_places};
ghost use Rattle.scope_rules.specs.Reading.{HasRead};
ghost use Rattle.hoist_parts.specs.Statements.{item_hoisted, items_hoisted};
ghost use Rattle.c_hoist.specs.NestedText.{IsHoistedTo, IsRefusedHoisted, ReadsNested, IsNestedSourceErrorOf, MeansText};

use c_lex::lex;
use c_parse::parse_nested;
use c_scope::SourceError;
use c_tree::{Program, RawFunction, RawItem, RawProgram};
use call_numbers::numbers_by_places;
use call_places::add_places_of_calls;
use hoist_rules::{Resolving, hoist_body};
use scope_rules::{Resolver, ScopeError};
use std::alloc::{AllocError, Global};

/// Returns the program of a source of at most 1,048,576 bytes, which may have calls inside expressions everywhere
/// except in the parentheses of a `for`: its tokens (ISO/IEC 9899:2018, 6.4), its tree (6.5 to 6.9), in which each call
/// that isn't whole goes before its statement, and the meanings of its names (6.2.1), for the subset that
/// docs/LANGUAGE.md defines. The calls are numbered by the places of their names in the source. The program does what
/// the text means (`deep_mean`): for every schedule both have the same outputs, modelled calls with values, keys, traps
/// and ends.
///
/// # Errors
///
/// Those of `c_scope`'s `read_program`, but `NestedCall` at the first call in the parentheses of a `for` that isn't
/// whole. The limit `locals` includes the new names.
pub fn read_nested(alloc: Global, source: &[u8]) -> Result<Program, SourceError>
    requires { length source.now ≤ 1048576 }
    ensures program { IfOk result (λ p. ReadsNested source.now (program_tree p)) }
    ensures refusal { IfErr result (λ e. e ≢ SourceError.Memory → IsNestedSourceErrorOf source.now e) }
    ensures meaning { IfOk result (λ p. MeansText source.now (program_tree p)) }

    // The source isn't any other program, and has no other refusal.
    ensures only_program { (p : ProgramTree) → ReadsNested source.now p →
        MatchResult result (λ q. program_tree q ≡ p) (λ e. e ≡ SourceError.Memory) }
    ensures only_refusal { (e : SourceError) → IsNestedSourceErrorOf source.now e →
        IsErrOf result e ⊎ IsErrOf result SourceError.Memory }
{
    read(alloc, source)
}

// The program of the source, or a refusal.
fn read(alloc: Global, source: &[u8]) -> Result<Program, SourceError>
    requires { length source.now ≤ 1048576 }
    ensures program { IfOk result (λ p. ReadsNested source.now (program_tree p)) }
    ensures refusal { IfErr result (λ e. e ≢ SourceError.Memory → IsNestedSourceErrorOf source.now e) }
{
    let tokens = lex(alloc, source)?;
    let raw = parse_nested(alloc, source, &tokens)?;
    drop(tokens);
    Ok(resolve_hoisted(alloc, raw)?)
}

// The resolved items of a rewritten source, and the places of their calls, in the order of the rewritten tree.
#[derive(Drop)]
struct Rewriting {
    resolver: Resolver,
    places: Vec<u32>,
}

impl Rewriting {
    // One more definition, whose statements are resolved as soon as they are made.
    fn function(self, alloc: Global, raw: &RawFunction) -> Result<Rewriting, AllocError>
        ensures read { IfOk result (λ w. (all read : List RawItemTree) → HasRead self.resolver all read →
            HasRead w.resolver all (read ++ item_hoisted (raw_item_tree (RawItem.Function raw.now)) ∷ [])) }
        ensures places { IfOk result (λ w. w.places.items ≡ self.places.items ++ item_places is_call (item_hoisted (raw_item_tree (RawItem.Function raw.now)))) }
    {
        let Rewriting { resolver, places } = self;
        let resolver = resolver.begin(alloc, raw.gives, &raw.name, &raw.params)?;
        let begun = Resolving { resolver, places };
        let ended = hoist_body(alloc, &raw.body, begun)?;
        let Resolving { resolver, places } = ended;
        let resolver = resolver.end()?;
        Ok(Rewriting { resolver, places })
    }

    // One more item other than a definition, which stays the same.
    fn kept(self, raw: &RawItem) -> Result<Rewriting, AllocError>
        ensures read { IfOk result (λ w. (all read : List RawItemTree) → HasRead self.resolver all read → HasRead w.resolver all (read ++ raw_item_tree raw.now ∷ [])) }
        ensures places { IfOk result (λ w. w.places.items ≡ self.places.items ++ item_places is_call (raw_item_tree raw.now)) }
    {
        let Rewriting {
            mut resolver,
            mut places,
        } = self;
        add_places_of_calls(&mut places, raw)?;
        resolver.item(raw)?;
        Ok(Rewriting { resolver, places })
    }

    // One more item, which is freed behind that.
    fn item(self, alloc: Global, raw: RawItem) -> Result<Rewriting, AllocError>
        ensures read { IfOk result (λ w. (all read : List RawItemTree) → HasRead self.resolver all read → HasRead w.resolver all (read ++ item_hoisted (raw_item_tree raw) ∷ [])) }
        ensures places { IfOk result (λ w. w.places.items ≡ self.places.items ++ item_places is_call (item_hoisted (raw_item_tree raw))) }
    {
        match &raw {
            RawItem::Function(function) => self.function(alloc, function),
            RawItem::Global { .. }
            | RawItem::GlobalArray { .. }
            | RawItem::Table(_)
            | RawItem::Prototype(_) => self.kept(&raw),
        }
    }
}

// What the items make, each of which is rewritten and resolved before the next is, and freed.
fn rewritten(alloc: Global, raw: Vec<RawItem>) -> Result<Rewriting, AllocError>
    ensures read { IfOk result (λ w. HasRead w.resolver (items_hoisted (raw_item_trees raw.items)) (items_hoisted (raw_item_trees raw.items))) }
    ensures places { IfOk result (λ w. w.places.items ≡ items_places is_call (items_hoisted (raw_item_trees raw.items))) }
{
    let mut rewritten = Rewriting {
        resolver: Resolver::new(alloc, &raw)?,
        places: Vec::new(alloc),
    };
    for item in raw {
        rewritten = rewritten.item(alloc, item)?;
    }
    Ok(rewritten)
}

// The program of the rewritten tree, or a refusal of it. It frees the tree as it was read.
fn resolve_hoisted(alloc: Global, raw: RawProgram) -> Result<Program, ScopeError>
    requires { nested_in_fors (raw_program_tree raw) ≡ None }
    ensures resolved { IfOk result (λ p. IsHoistedTo (raw_program_tree raw) (program_tree p)) }
    ensures refused { IfErr result (λ e. IsRefusedHoisted (raw_program_tree raw) e) }
{
    let read = rewritten(alloc, raw.into_items())?;
    let numbers = numbers_by_places(alloc, &read.places)?;
    read.resolver.finish(alloc, &numbers)
}
