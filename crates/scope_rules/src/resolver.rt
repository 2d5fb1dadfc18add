// From a tree as it is read to a program.

ghost use Rattle.std.specs.Prelude.{◌≡◌, ◌∷◌, ◌++◌, [], ℕ, Bool, List, Some, None, Option, IfOk, IfErr, OnOk, MatchResult, ◌⊎◌, map, length};
ghost use Rattle.cap_word.specs.declared.limits.Which.{Which};
ghost use Rattle.c_tree.specs.RawTrees.{NameTree, RawStmtTree, RawItemTree, RawFunctionItem};
ghost use Rattle.c_tree.specs.Trees.{ProgramTree};
ghost use Rattle.c_tree.specs.Programs.{tree_of};
ghost use Rattle.c_tree.specs.ProgramView.{program_tree};
ghost use Rattle.c_tree.specs.RawProgramView.{raw_program_tree};
ghost use Rattle.c_tree.specs.RawViews.{name_tree, raw_stmt_tree, raw_in_order, raw_item_tree, raw_item_trees};
ghost use Rattle.c_tree.specs.WellScoped.{IsWellScoped};
ghost use Rattle.c_tree.specs.WholeCalls.{AreCallsWhole};
ghost use Rattle.scope_rules.specs.Numbered.{numbered, IsResolvedBy};
ghost use Rattle.scope_rules.specs.ItemViews.{exceeded_with};
ghost use Rattle.scope_rules.specs.Openings.{opening_tree};
ghost use Rattle.scope_rules.specs.Making.{IsMaking, made_by, with_statement, opened, switched, closed, all_closed};
ghost use Rattle.scope_rules.specs.Reading.{HaveRead, AreAllRead, HasRead, CanNumber};
ghost use Rattle.scope_rules.specs.Limits.{first_exceeded};
ghost use Rattle.scope_rules.specs.Outcomes.{IsResolved, IsRefused, IsNoMemory, refusal_by};

use crate::errors::ScopeError;
use crate::faults::{Fault, Rule};
use crate::functions::Begun;
use crate::items::{Items, definitions};
use crate::limits::{global_words, most_params, table_members};
use crate::meanings::function_of;
use crate::numbering::number_functions;
use crate::openings::{Head, Open, Opening, body_of};
use crate::statements::kept_with;
use c_tree::{Function, GlobalFact, Name, Program, RawItem, RawProgram, RawStmt, TableFact};
use cap_word::Which;
use std::alloc::{AllocError, Global};
use std::mem;

// The refusal for a fault.
fn refusal(fault: Fault) -> ScopeError
    ensures { result ≡ refusal_by fault.rule fault.at }
{
    let at = fault.at;
    match fault.rule {
        Rule::Unknown => ScopeError::Unknown { at },
        Rule::Twice => ScopeError::Twice { at },
        Rule::Arity => ScopeError::Arity { at },
        Rule::Kind => ScopeError::Kind { at },
    }
}

// The first of the exceeded limits.
fn first_exceeded(
    functions: bool,
    sites: bool,
    globals: bool,
    tables: bool,
    locals: bool,
    params: bool,
) -> Option<Which>
    ensures { result ≡ first_exceeded functions sites globals tables locals params }
{
    if functions {
        Some(Which::Functions)
    } else if sites {
        Some(Which::Sites)
    } else if globals {
        Some(Which::Globals)
    } else if tables {
        Some(Which::Tables)
    } else if locals {
        Some(Which::Locals)
    } else if params {
        Some(Which::Params)
    } else {
        None
    }
}

// The first limit that the items exceed, whatever function is `main`.
fn exceeded(items: &Items) -> Option<Which>
    ensures { (main : ℕ) → result ≡ exceeded_with items.now.place.site items.now.locals (tree_of items.now.functions.items items.now.globals.items items.now.tables.items main) }
{
    let functions = items.functions.len() > 4_096;
    let sites = items.place.site > 65_535;
    let globals = global_words(&items.globals) > 65_536;
    let tables = table_members(&items.tables) > 65_536;
    let locals = items.locals > 4_096;
    let params = most_params(&items.functions) > 6;
    first_exceeded(functions, sites, globals, tables, locals, params)
}

// The items of a source, resolved.
fn read_items(alloc: Global, raw: &[RawItem]) -> Result<Items, AllocError>
    ensures { IfOk result (λ w. HaveRead w (raw_item_trees raw.now) (raw_item_trees raw.now)) }
{
    let mut items = Items::new(alloc, definitions(alloc, raw)?)?;
    items.items(raw)?;
    Ok(items)
}

// The parts of a program that breaks no rule.
#[derive(Drop)]
struct Parts {
    functions: Vec<Function>,
    globals: Vec<GlobalFact>,
    tables: Vec<TableFact>,
    main: u32,
}

// The parts of the program of a source with these items, or its refusal.
fn resolved_parts(items: Items) -> Result<Parts, ScopeError>
    requires { AreAllRead items }
    ensures resolved { (is : List RawItemTree) → HaveRead items is is → IfOk result (λ w. IsResolved is (tree_of w.functions.items w.globals.items w.tables.items w.main)) }
    ensures scoped { IfOk result (λ w. IsWellScoped (tree_of w.functions.items w.globals.items w.tables.items w.main)) }
    ensures refused { (is : List RawItemTree) → HaveRead items is is → IfErr result (λ e. IsRefused is e) }
{
    if let Some(fault) = items.place.least {
        return Err(refusal(fault));
    }
    let Some(main) = items.definitions.find(b"main") else {
        return Err(ScopeError::NoMain);
    };
    if let Some(which) = exceeded(&items) {
        return Err(ScopeError::Limit { which });
    }
    let Items {
        functions,
        globals,
        tables,
        ..
    } = items;
    Ok(Parts {
        functions,
        globals,
        tables,
        main: function_of(Some(main)),
    })
}

// The program of these parts.
fn make_program(alloc: Global, parts: Parts) -> Result<Program, ScopeError>
    requires { IsWellScoped (tree_of parts.functions.items parts.globals.items parts.tables.items parts.main) }
    ensures tree { IfOk result (λ p. program_tree p ≡ tree_of parts.functions.items parts.globals.items parts.tables.items parts.main) }
    ensures memory { IfErr result (λ e. e ≡ ScopeError.Memory) }
{
    let program = Program::new(
        alloc,
        parts.functions,
        parts.globals,
        parts.tables,
        parts.main,
    )?;
    Ok(program)
}

// The program of a source, or its refusal.
fn decide(alloc: Global, raw: &RawProgram) -> Result<Program, ScopeError>
    ensures resolved { IfOk result (λ p. IsResolved (raw_program_tree raw.now) (program_tree p)) }
    ensures refused { IfErr result (λ e. IsRefused (raw_program_tree raw.now) e) }
{
    let items = read_items(alloc, raw.items())?;
    let parts = resolved_parts(items)?;
    make_program(alloc, parts)
}

/// Returns the program of a source with this tree, in which every call is whole.
///
/// # Errors
///
/// The rule that is broken at the least place: `Unknown`, `Twice`, `Arity` or `Kind`, and the first of these if several
/// are broken there; `NoMain` if no rule is broken and `main` has no definition; `Limit` if `main` has one, with the
/// first limit that is exceeded: 4,096 functions, 65,535 calls, 65,536 words of globals, 65,536 members of tables,
/// 4,096 declared words of one function, 6 parameters; `Memory` if an allocation fails.
pub fn resolve(alloc: Global, raw: &RawProgram) -> Result<Program, ScopeError>
    requires { AreCallsWhole (raw_program_tree raw.now) }
    ensures resolved { IfOk result (λ p. IsResolved (raw_program_tree raw.now) (program_tree p)) }
    ensures refused { IfErr result (λ e. IsRefused (raw_program_tree raw.now) e) }
    ensures only_resolved { (p : ProgramTree) → IsResolved (raw_program_tree raw.now) p → MatchResult result (λ q. program_tree q ≡ p) (λ e. e ≡ ScopeError.Memory) }
    ensures only_refused { (e : ScopeError) → IsRefused (raw_program_tree raw.now) e → IsNoMemory e → MatchResult result (λ q. ⊥) (λ d. (d ≡ e) ⊎ (d ≡ ScopeError.Memory)) }
{
    decide(alloc, raw)
}

// The parts with these numbers of the calls.
fn numbered(mut parts: Parts, numbers: &[u32]) -> Parts
    ensures { tree_of result.functions.items result.globals.items result.tables.items result.main ≡
        numbered numbers.now (tree_of parts.functions.items parts.globals.items parts.tables.items parts.main) }
{
    number_functions(&mut parts.functions, numbers);
    parts
}

/// A source that is resolved item by item, so an item can be freed before the next one is built.
#[derive(Drop)]
pub struct Resolver {
    items: Items,
}

impl Resolver {
    /// No item was read yet, of a source that defines the functions that these items define.
    ///
    /// # Errors
    ///
    /// Memory ran out.
    pub fn new(alloc: Global, raw: &[RawItem]) -> Result<Resolver, AllocError>
        ensures { IfOk result (λ r. HasRead r (raw_item_trees raw.now) []) }
    {
        Ok(Resolver {
            items: Items::new(alloc, definitions(alloc, raw)?)?,
        })
    }

    /// One more item was read.
    ///
    /// # Errors
    ///
    /// Memory ran out.
    pub fn item(&mut self, raw: &RawItem) -> Result<(), AllocError>
        ensures { OnOk result ((all read : List RawItemTree) → HasRead self.old all read → HasRead self.new all (read ++ raw_item_tree raw.now ∷ [])) }
    {
        self.items.item(raw)?;
        Ok(())
    }

    /// A definition begins, with this head. Its body is resolved statement by statement.
    ///
    /// # Errors
    ///
    /// Memory ran out.
    pub fn begin(
        self,
        alloc: Global,
        gives: bool,
        name: &Name,
        params: &[Name],
    ) -> Result<FunctionResolver, AllocError>
        ensures { IfOk result (λ r. (all read : List RawItemTree) → HasRead self all read → IsMaking (made_by r) all read gives (name_tree name.now) (map name_tree params.now) []) }
    {
        let mut items = self.items;
        let begun = items.place.begin(&items.definitions, gives, name, params)?;
        let parts = Box::new(alloc, FunctionParts { items, begun })?;
        Ok(FunctionResolver { parts })
    }

    // The program of the source with these numbers of its calls, or its refusal.
    fn decide(self, alloc: Global, numbers: &[u32]) -> Result<Program, ScopeError>
        requires { CanNumber self numbers.now }
        ensures resolved { (is : List RawItemTree) → HasRead self is is → IfOk result (λ p. IsResolvedBy numbers.now is (program_tree p)) }
        ensures refused { (is : List RawItemTree) → HasRead self is is → IfErr result (λ e. IsRefused is e) }
    {
        let parts = resolved_parts(self.items)?;
        make_program(alloc, numbered(parts, numbers))
    }

    /// Returns the program of the source, like `resolve`, with these numbers of its calls, in the order of the tree:
    /// one for each call, all different, and below their count.
    ///
    /// # Errors
    ///
    /// Those of `resolve`.
    pub fn finish(self, alloc: Global, numbers: &[u32]) -> Result<Program, ScopeError>
        requires { CanNumber self numbers.now }
        ensures resolved { (is : List RawItemTree) → HasRead self is is → IfOk result (λ p. IsResolvedBy numbers.now is (program_tree p)) }
        ensures refused { (is : List RawItemTree) → HasRead self is is → IfErr result (λ e. IsRefused is e) }
        ensures only_resolved { (is : List RawItemTree) → HasRead self is is → (p : ProgramTree) → IsResolvedBy numbers.now is p → MatchResult result (λ q. program_tree q ≡ p) (λ e. e ≡ ScopeError.Memory) }
        ensures only_refused { (is : List RawItemTree) → HasRead self is is → (e : ScopeError) → IsRefused is e → IsNoMemory e → MatchResult result (λ q. ⊥) (λ d. (d ≡ e) ⊎ (d ≡ ScopeError.Memory)) }
    {
        self.decide(alloc, numbers)
    }
}

// The items before a definition, and what is known of the definition.
#[derive(Drop)]
struct FunctionParts {
    items: Items,
    begun: Begun,
}

/// A source in the middle of a definition, whose body is resolved statement by statement, so a statement can be freed
/// before the next one is built.
#[derive(Drop)]
pub struct FunctionResolver {
    parts: Box<FunctionParts>,
}

impl FunctionResolver {
    /// One more statement of the body was read.
    ///
    /// # Errors
    ///
    /// Memory ran out. The statements before are lost then, so all that is left is to drop the resolver.
    pub fn statement(&mut self, raw: &RawStmt) -> Result<(), AllocError>
        ensures { OnOk result (made_by self.new ≡ with_statement (made_by self.old) (raw_stmt_tree raw.now)) }
    {
        let FunctionParts { items, begun } = &mut *self.parts;
        let body = mem::replace(&mut begun.body, Vec::new(items.place.alloc));
        begun.body = items
            .place
            .next_statement(begun.gives, begun.loops, body, raw)?;
        Ok(())
    }

    /// A block, or a statement with a body, begins.
    ///
    /// # Errors
    ///
    /// Memory ran out, as in `statement`.
    pub fn open(&mut self, opening: Opening) -> Result<(), AllocError>
        ensures { OnOk result (made_by self.new ≡ opened (opening_tree opening.entry) (made_by self.old)) }
    {
        let FunctionParts { items, begun } = &mut *self.parts;
        let (head, scope) = items.place.head_of(opening)?;
        let before = mem::replace(&mut begun.body, Vec::new(items.place.alloc));
        begun.unfinished.push(Open {
            head,
            scope,
            loops: begun.loops,
            before,
        })?;
        begun.loops = opening.is_in_loop(begun.loops);
        Ok(())
    }

    /// The `else` of the `if` that began last begins. Does nothing if no `if` began last.
    ///
    /// # Errors
    ///
    /// Memory ran out, as in `statement`.
    pub fn otherwise(&mut self) -> Result<(), AllocError>
        ensures { OnOk result (made_by self.new ≡ switched (made_by self.old)) }
    {
        let FunctionParts { items, begun } = &mut *self.parts;
        let alloc = items.place.alloc;
        let Some(
            Open {
                head,
                scope,
                loops,
                before,
            },
        ) = begun.unfinished.pop()
        else {
            return Ok(());
        };
        let (head, scope) = match head {
            Head::If(condition) => {
                let statements = mem::replace(&mut begun.body, Vec::new(alloc));
                let then = Box::new(alloc, body_of(statements))?;
                items.place.leave(scope);
                (Head::Else { condition, then }, items.place.enter())
            }
            other => (other, scope),
        };
        begun.unfinished.push(Open {
            head,
            scope,
            loops,
            before,
        })?;
        Ok(())
    }

    /// The block, or the statement with a body, that began last is at its end. Does nothing if none began.
    ///
    /// # Errors
    ///
    /// Memory ran out, as in `statement`.
    pub fn close(&mut self) -> Result<(), AllocError>
        ensures { OnOk result (made_by self.new ≡ closed (made_by self.old)) }
    {
        let FunctionParts { items, begun } = &mut *self.parts;
        let alloc = items.place.alloc;
        let Some(
            Open {
                head,
                scope,
                loops,
                before,
            },
        ) = begun.unfinished.pop()
        else {
            return Ok(());
        };
        let statements = mem::replace(&mut begun.body, Vec::new(alloc));
        let statement = head.with_body(alloc, statements)?;
        begun.body = kept_with(alloc, items.place.site, before, statement)?;
        begun.loops = loops;
        items.place.leave(scope);
        Ok(())
    }

    /// The body is at its end. Blocks, and statements with a body, that are still open are closed first, as by `close`.
    ///
    /// # Errors
    ///
    /// Memory ran out.
    pub fn end(mut self) -> Result<Resolver, AllocError>
        ensures { IfOk result (λ r. (all read : List RawItemTree) (gives : Bool) (n : NameTree) (params : List NameTree) (ss : List RawStmtTree) →
            IsMaking (all_closed (made_by self)) all read gives n params ss → HasRead r all (read ++ RawFunctionItem gives n params (raw_in_order ss) ∷ [])) }
    {
        while !self.parts.begun.unfinished.is_empty() {
            self.close()?;
        }
        let FunctionParts { mut items, begun } = Box::into_inner(self.parts);
        items.end(begun)?;
        Ok(Resolver { items })
    }
}
