// The facts of sites in a certificate.

ghost use Rattle.std.specs.Prelude.{◌≡◌, ◌<◌, ◌≤◌, [], ◌++◌, ◌^◌, filter_map, length, map, IfOk, OnOk};
ghost use Rattle.std.specs.List.{cons_option};
ghost use Rattle.std.specs.List.Sorted.{IsPermutation, IsStrictlyIncreasing};
ghost use Rattle.flat_code.specs.Codes.{function_at};
ghost use Rattle.flat_code.specs.ProgramView.{program_code};
ghost use Rattle.codegen_link.specs.Emission.{AreNeeds, NamesThere};
ghost use Rattle.codegen_link.specs.Links.{site_fact, site_facts};

use crate::links::link_of;
use crate::lookups::operation_of;
use checkpoint_place::Plan;
use flat_code::{FlatProgram, Op};
use stack_certificate::{SiteFact, function_of};
use std::alloc::{AllocError, Global};

// The fact of an operation's site, if it is a call of a function or a table, or starts a thread.
fn fact_of_site(flat: &FlatProgram, plan: &Plan, needs: &[u32], op: &Op) -> Option<SiteFact>
    requires rising { IsStrictlyIncreasing plan.now.checkpointed }
    requires each { length plan.now.bounds ≡ length (program_code flat.now).functions }
    requires needs { AreNeeds (program_code flat.now) plan.now needs.now }
    requires names { NamesThere (program_code flat.now) op.now }
    ensures { result ≡ site_fact (program_code flat.now) plan.now op.now }
{
    let kind = link_of(flat, plan, needs, op);
    match op {
        Op::Call { site, .. } | Op::CallTable { site, .. } | Op::Spawn { site, .. } => {
            Some(SiteFact {
                number: *site,
                kind,
            })
        }
        _ => None,
    }
}

// Appends the fact of an operation's site, if it has one.
fn push_site(
    flat: &FlatProgram,
    plan: &Plan,
    needs: &[u32],
    op: &Op,
    sites: &mut Vec<SiteFact>,
) -> Result<(), AllocError>
    requires rising { IsStrictlyIncreasing plan.now.checkpointed }
    requires each { length plan.now.bounds ≡ length (program_code flat.now).functions }
    requires needs { AreNeeds (program_code flat.now) plan.now needs.now }
    requires names { NamesThere (program_code flat.now) op.now }
    ensures { OnOk result (sites.new.items ≡ sites.old.items ++ cons_option (site_fact (program_code flat.now) plan.now op.now) []) }
{
    if let Some(fact) = fact_of_site(flat, plan, needs, op) {
        sites.push(fact)?;
    }
    Ok(())
}

// Appends the facts of the sites of a function.
fn push_sites(
    flat: &FlatProgram,
    plan: &Plan,
    needs: &[u32],
    function: u32,
    sites: &mut Vec<SiteFact>,
) -> Result<(), AllocError>
    requires rising { IsStrictlyIncreasing plan.now.checkpointed }
    requires each { length plan.now.bounds ≡ length (program_code flat.now).functions }
    requires needs { AreNeeds (program_code flat.now) plan.now needs.now }
    requires function { function < length (program_code flat.now).functions }
    ensures { OnOk result (sites.new.items ≡ sites.old.items ++ filter_map (site_fact (program_code flat.now) plan.now) (function_at (program_code flat.now) function).ops) }
{
    for op in 0..function_of(flat, function).ops.len() {
        let op = operation_of(flat, function, op as u32);
        push_site(flat, plan, needs, op, sites)?;
    }
    Ok(())
}

// The facts of all sites, in the order of the text.
fn unsorted_sites(
    alloc: Global,
    flat: &FlatProgram,
    plan: &Plan,
    needs: &[u32],
) -> Result<Vec<SiteFact>, AllocError>
    requires rising { IsStrictlyIncreasing plan.now.checkpointed }
    requires each { length plan.now.bounds ≡ length (program_code flat.now).functions }
    requires needs { AreNeeds (program_code flat.now) plan.now needs.now }
    requires few { length (program_code flat.now).functions ≤ 2 ^ 32 }
    ensures { IfOk result (λ facts. facts.items ≡ site_facts (program_code flat.now) plan.now) }
{
    let mut sites = Vec::new(alloc);
    for function in 0..flat.functions().len() {
        push_sites(flat, plan, needs, function as u32, &mut sites)?;
    }
    Ok(sites)
}

// The facts of all sites, in order of numbers.
pub(crate) fn sites_of(
    alloc: Global,
    flat: &FlatProgram,
    plan: &Plan,
    needs: &[u32],
) -> Result<Vec<SiteFact>, AllocError>
    requires rising { IsStrictlyIncreasing plan.now.checkpointed }
    requires each { length plan.now.bounds ≡ length (program_code flat.now).functions }
    requires needs { AreNeeds (program_code flat.now) plan.now needs.now }
    requires few { length (program_code flat.now).functions ≤ 2 ^ 32 }
    ensures sites { IfOk result (λ facts. IsPermutation (site_facts (program_code flat.now) plan.now) facts.items) }
    ensures increasing { IfOk result (λ facts. IsStrictlyIncreasing (map (λ fact. fact.number) facts.items)) }
{
    let mut sites = unsorted_sites(alloc, flat, plan, needs)?;
    sites.sort_by_key(|fact| fact.number)?;
    Ok(sites)
}
