// The link kinds of operations.

ghost use Rattle.std.specs.Prelude.{◌≡◌, ℕ, List, length, IfOk};
ghost use Rattle.std.specs.List.Sorted.{IsStrictlyIncreasing};
ghost use Rattle.flat_code.specs.Codes.{FlatCode};
ghost use Rattle.flat_code.specs.ProgramView.{program_code};
ghost use Rattle.call_graph.specs.Lists.{has};
ghost use Rattle.stack_certificate.specs.Templates.{size};
ghost use Rattle.codegen_link.specs.Emission.{AreNeeds, NamesThere};
ghost use Rattle.codegen_link.specs.Links.{link, linked_if};

use call_graph::is_among;
use checkpoint_place::{Plan, greatest_of};
use flat_code::{FlatProgram, Op};
use stack_certificate::LinkKind;
use std::alloc::{AllocError, Global};

// Whether a site is checkpointed.
fn is_checkpointed(plan: &Plan, site: u32) -> bool
    requires { IsStrictlyIncreasing plan.now.checkpointed }
    ensures { result ≡ has site plan.now.checkpointed }
{
    is_among(site, plan.checkpointed.as_slice())
}

// The link kind of an operation, with a need of 0, which gives the same number of words as the true
// need.
pub(crate) fn shape(plan: &Plan, op: &Op) -> LinkKind
    requires { IsStrictlyIncreasing plan.now.checkpointed }
    ensures { (code : FlatCode) (sizes : List ℕ) → size sizes result op.now ≡ size sizes (link code plan.now op.now) op.now }
{
    match op {
        Op::Call { site, .. } | Op::CallTable { site, .. } => {
            if is_checkpointed(plan, *site) {
                LinkKind::Linked { need: 0 }
            } else {
                LinkKind::Plain
            }
        }
        _ => LinkKind::Plain,
    }
}

// The link kind of a call at a site, by the greatest bound of its callees.
fn call_link(plan: &Plan, site: u32, need: u32) -> LinkKind
    requires { IsStrictlyIncreasing plan.now.checkpointed }
    ensures { result ≡ linked_if (has site plan.now.checkpointed) need }
{
    if is_checkpointed(plan, site) {
        LinkKind::Linked { need }
    } else {
        LinkKind::Plain
    }
}

// The link kind of an operation.
pub(crate) fn link_of(flat: &FlatProgram, plan: &Plan, needs: &[u32], op: &Op) -> LinkKind
    requires rising { IsStrictlyIncreasing plan.now.checkpointed }
    requires each { length plan.now.bounds ≡ length (program_code flat.now).functions }
    requires needs { AreNeeds (program_code flat.now) plan.now needs.now }
    requires names { NamesThere (program_code flat.now) op.now }
    ensures { result ≡ link (program_code flat.now) plan.now op.now }
{
    // For the prover alone: it reads the program, whose invariant is known from then on.
    let _tables = flat.tables();
    let bounds = plan.bounds.as_slice();
    match op {
        Op::Call { site, f, .. } => call_link(plan, *site, bounds[*f as usize]),
        Op::CallTable { site, t, .. } => call_link(plan, *site, needs[*t as usize]),
        Op::Spawn { f, .. } => LinkKind::Spawned {
            need: bounds[*f as usize],
        },
        _ => LinkKind::Plain,
    }
}

// The greatest bound of each table's members.
pub(crate) fn table_needs(
    alloc: Global,
    flat: &FlatProgram,
    plan: &Plan,
) -> Result<Vec<u32>, AllocError>
    requires { length plan.now.bounds ≡ length (program_code flat.now).functions }
    ensures { IfOk result (λ needs. AreNeeds (program_code flat.now) plan.now needs.items) }
{
    let mut needs = Vec::with_capacity(alloc, flat.tables().len())?;
    for members in flat.tables() {
        needs.push(greatest_of(members.as_slice(), plan.bounds.as_slice()))?;
    }
    Ok(needs)
}
