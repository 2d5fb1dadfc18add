ghost use Rattle.std.specs.Prelude.{◌≡◌, ◌≤◌, ◌+◌, ◌^◌, ◌++◌, length, IfOk, OnOk};
ghost use Rattle.std.specs.List.{filter_map};
ghost use Rattle.call_graph.specs.FlatCalls.{call_site, call_sites_from};

use crate::callee_lists::Callees;
use crate::sites::{GraphSite, Target};
use cap_word::Words;
use flat_code::{FlatFunction, Op};
use std::alloc::{AllocError, Global};

/// Returns the call site of an operation, if it is a call of a function or a table.
fn site_of(op: &Op, caller: u32) -> Option<GraphSite>
    ensures { result ≡ call_site caller op.now }
{
    match op {
        Op::Call { site, f, .. } => Some(GraphSite {
            number: *site,
            caller,
            target: Target::Function(*f),
        }),
        Op::CallTable { site, t, .. } => Some(GraphSite {
            number: *site,
            caller,
            target: Target::Table(*t),
        }),
        _ => None,
    }
}

/// Adds the call sites of a function's operations: each call of a function or a table is one, and a spawn is none.
pub fn push_sites(ops: &[Op], caller: u32, sites: &mut Vec<GraphSite>) -> Result<(), AllocError>
    ensures { OnOk result (sites.new.items ≡ sites.old.items ++ filter_map (call_site caller) ops.now) }
{
    for op in ops {
        if let Some(site) = site_of(op, caller) {
            sites.push(site)?;
        }
    }
    Ok(())
}

/// Returns the call sites of these functions.
pub(crate) fn sites_of_functions(
    alloc: Global,
    functions: &[FlatFunction],
) -> Result<Vec<GraphSite>, AllocError>
    requires { length functions.now ≤ 2 ^ 32 }
    ensures { IfOk result (λ sites. sites.items ≡ call_sites_from 0 functions.now) }
{
    let mut sites = Vec::new(alloc);
    for (caller, function) in functions.iter().enumerate() {
        push_sites(function.ops.as_slice(), caller as u32, &mut sites)?;
    }
    Ok(sites)
}

/// Returns the members of these tables, each copied once.
pub(crate) fn copies_of(alloc: Global, tables: &[Words]) -> Result<Vec<Callees>, AllocError>
    ensures { IfOk result (λ copies. copies.items ≡ tables.now) }
{
    let mut copies = Vec::with_capacity(alloc, tables.len())?;
    for members in tables {
        copies.push(Callees::new(Vec::from_slice(alloc, members.as_slice())?))?;
    }
    Ok(copies)
}
