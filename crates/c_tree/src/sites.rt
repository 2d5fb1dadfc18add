// The call sites of a tree, in the tree's order.

ghost use Rattle.std.specs.Prelude.{◌≡◌, ◌++◌, ◌∷◌, [], OnOk, map, option_map};
ghost use Rattle.c_tree.specs.Views.{call_tree, right_tree, simple_tree, stmt_tree, stmt_trees, function_tree};
ghost use Rattle.c_tree.specs.TextOrder.{call_site, right_sites, returned_sites, simple_sites, simples_sites, step_sites, stmt_sites, stmts_sites, functions_sites};

use crate::facts::{Function, Site, SiteKind};
use crate::statements::{Call, RightSide, Simple, Stmt};
use std::alloc::AllocError;

impl Call {
    /// Returns the call's site: its number and its callee.
    pub fn site(&self) -> Site
        ensures { result ≡ call_site (call_tree self.now) }
    {
        match self {
            Call::Function { site, function, .. } => Site {
                number: *site,
                kind: SiteKind::Function(*function),
            },
            Call::Table { site, table, .. } => Site {
                number: *site,
                kind: SiteKind::Table(*table),
            },
            Call::Spawn { site, function, .. } => Site {
                number: *site,
                kind: SiteKind::Spawn(*function),
            },
            Call::Modelled { site, call, .. } => Site {
                number: *site,
                kind: SiteKind::Modelled(call.number()),
            },
        }
    }
}

fn list_call(sites: &mut Vec<Site>, call: &Call) -> Result<(), AllocError>
    ensures { OnOk result (sites.new.items ≡ sites.old.items ++ call_site (call_tree call.now) ∷ []) }
{
    sites.push(call.site())?;
    Ok(())
}

fn list_right(sites: &mut Vec<Site>, value: &RightSide) -> Result<(), AllocError>
    ensures { OnOk result (sites.new.items ≡ sites.old.items ++ right_sites (right_tree value.now)) }
{
    match value {
        RightSide::Expr(_) => Ok(()),
        RightSide::Call(call) => list_call(sites, call),
    }
}

fn list_simple(sites: &mut Vec<Site>, simple: &Simple) -> Result<(), AllocError>
    ensures { OnOk result (sites.new.items ≡ sites.old.items ++ simple_sites (simple_tree simple.now)) }
{
    match simple {
        Simple::DeclareScalar { .. } | Simple::DeclareArray { .. } => Ok(()),
        Simple::DeclareWith { value, .. } => list_right(sites, value),
        Simple::SetLocal { value, .. } => list_right(sites, value),
        Simple::SetGlobal { value, .. } => list_right(sites, value),
        Simple::SetLocalElement { value, .. } => list_right(sites, value),
        Simple::SetGlobalElement { value, .. } => list_right(sites, value),
        Simple::Call(call) => list_call(sites, call),
    }
}

fn list_simples(sites: &mut Vec<Site>, simples: &[Simple]) -> Result<(), AllocError>
    ensures { OnOk result (sites.new.items ≡ sites.old.items ++ simples_sites (map simple_tree simples.now)) }
{
    for simple in simples {
        list_simple(sites, simple)?;
    }
    Ok(())
}

fn list_step(sites: &mut Vec<Site>, step: &Option<Simple>) -> Result<(), AllocError>
    ensures { OnOk result (sites.new.items ≡ sites.old.items ++ step_sites (option_map simple_tree step.now)) }
{
    match step {
        None => Ok(()),
        Some(simple) => list_simple(sites, simple),
    }
}

#[cycle(list)]
fn list_stmt(sites: &mut Vec<Site>, stmt: &Stmt) -> Result<(), AllocError>
    ensures { OnOk result (sites.new.items ≡ sites.old.items ++ stmt_sites (stmt_tree stmt.now)) }
{
    match stmt {
        Stmt::Simple(simple) => list_simple(sites, simple),
        Stmt::Empty | Stmt::Break | Stmt::Continue | Stmt::Return(None) => Ok(()),
        Stmt::Block(stmts) => list_stmts(sites, stmts),
        Stmt::If { then, .. } => list_stmt(sites, then),
        Stmt::IfElse {
            then,
            otherwise,
            ..
        } => {
            list_stmt(sites, then)?;
            list_stmt(sites, otherwise)
        }
        Stmt::While { body, .. } => list_stmt(sites, body),
        Stmt::For { parts, body } => {
            list_simples(sites, &parts.init)?;
            list_step(sites, &parts.step)?;
            list_stmt(sites, body)
        }
        Stmt::Return(Some(value)) => list_right(sites, value),
    }
}

#[cycle(list)]
fn list_stmts(sites: &mut Vec<Site>, stmts: &[Stmt]) -> Result<(), AllocError>
    ensures { OnOk result (sites.new.items ≡ sites.old.items ++ stmts_sites (stmt_trees stmts.now)) }
{
    for stmt in stmts {
        list_stmt(sites, stmt)?;
    }
    Ok(())
}

// Appends the sites of the functions' bodies.
pub fn list_functions(sites: &mut Vec<Site>, functions: &[Function]) -> Result<(), AllocError>
    ensures { OnOk result (sites.new.items ≡ sites.old.items ++ functions_sites (map function_tree functions.now)) }
{
    for function in functions {
        list_stmts(sites, &function.body)?;
    }
    Ok(())
}
