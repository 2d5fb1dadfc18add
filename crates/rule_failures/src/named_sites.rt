ghost use Rattle.std.specs.Prelude.{EachIndex, Some, true, false, ◌≡◌, ℕ, ◌<◌, ◌↔◌, ◌||◌, IsTrue, IfOk, length, slice_get, slice_index};
ghost use Rattle.std.specs.List.{list_any};
ghost use Rattle.std.specs.List.Sorted.{IsStrictlyIncreasing};
ghost use Rattle.flat_code.specs.declared.operations.Op.{Op};
ghost use Rattle.flat_code.specs.ProgramView.{program_code};
ghost use Rattle.certificate_rules.specs.Sites.{is_spawned, starts_thread, certified_site, fact_numbers, is_site, NamesSites};
ghost use Rattle.rule_failures.specs.Named.{IsNamedRight};
ghost use Rattle.rule_failures.specs.Marks.{is_marked};

use crate::lookups::{certified_site_of, is_spawned_kind, starts_a_thread};
use accepted_pairs::find_site;
use flat_code::{FlatProgram, Op};
use stack_certificate::{Certificate, LinkKind, SiteFact};
use std::alloc::{AllocError, Global};

// Whether the certificate's sites are exactly those of the program at which a function or a table is called
// or a thread is started, each once, with increasing numbers, and exactly those that start a thread marked `spawn`.
pub(crate) fn names_sites(
    alloc: Global,
    flat: &FlatProgram,
    certificate: &Certificate,
) -> Result<bool, AllocError>
    ensures { IfOk result (λ yes. IsTrue yes ↔ NamesSites (program_code flat.now) certificate.now) }
{
    if !rises(certificate.sites.as_slice()) {
        return Ok(false);
    }
    let mut seen = vec![in alloc; false; certificate.sites.len()]?;
    Ok(names_each(flat, certificate, &mut seen))
}

// The same, if the numbers of the certificate's sites increase; notes the facts found.
fn names_each(flat: &FlatProgram, certificate: &Certificate, seen: &mut [bool]) -> bool
    requires rising { IsStrictlyIncreasing (fact_numbers certificate.now.sites) }
    requires count { length seen.old ≡ length certificate.now.sites }
    requires fresh { (k : ℕ) → is_marked seen.old k ≡ false }
    ensures { IsTrue result ↔ NamesSites (program_code flat.now) certificate.now }
{
    let facts = certificate.sites.as_slice();
    for function in flat.functions() {
        if !note_sites(function.ops.as_slice(), facts, seen) {
            return false;
        }
    }
    are_all_seen(seen)
}

// Whether the numbers of facts increase.
fn rises(facts: &[SiteFact]) -> bool
    ensures { IsTrue result ↔ IsStrictlyIncreasing (fact_numbers facts.now) }
{
    for k in 1..facts.len() {
        if facts[k].number <= facts[k - 1].number {
            return false;
        }
    }
    true
}

// Whether each operation's site has the right fact; notes the facts found.
fn note_sites(ops: &[Op], facts: &[SiteFact], seen: &mut [bool]) -> bool
    requires rising { IsStrictlyIncreasing (fact_numbers facts.now) }
    requires seen { length seen.old ≡ length facts.now }
    ensures named { IsTrue result ↔ ((k : ℕ) (op : Op) → slice_get ops.now k ≡ Some op → IsNamedRight facts.now op) }
    ensures noted { IsTrue result → (k : ℕ) → k < length facts.now →
        is_marked seen.new k ≡ (is_marked seen.old k || list_any (λ op. is_site (slice_index (fact_numbers facts.now) k) (certified_site op)) ops.now) }
{
    for op in ops {
        if !note_site(op, facts, seen) {
            return false;
        }
    }
    true
}

// Whether an operation's site, if it has one, has the right fact; notes the fact.
fn note_site(op: &Op, facts: &[SiteFact], seen: &mut [bool]) -> bool
    requires rising { IsStrictlyIncreasing (fact_numbers facts.now) }
    requires seen { length seen.old ≡ length facts.now }
    ensures named { IsTrue result ↔ IsNamedRight facts.now op.now }
    ensures noted { IsTrue result → (k : ℕ) → k < length facts.now →
        is_marked seen.new k ≡ (is_marked seen.old k || is_site (slice_index (fact_numbers facts.now) k) (certified_site op.now)) }
{
    match certified_site_of(op) {
        Some(site) => note_named(op, site, facts, seen),
        None => true,
    }
}

// Whether the site of an operation has the right fact; notes the fact.
fn note_named(op: &Op, site: u32, facts: &[SiteFact], seen: &mut [bool]) -> bool
    requires rising { IsStrictlyIncreasing (fact_numbers facts.now) }
    requires seen { length seen.old ≡ length facts.now }
    requires site { certified_site op.now ≡ Some site }
    ensures named { IsTrue result ↔ IsNamedRight facts.now op.now }
    ensures noted { IsTrue result → (k : ℕ) → k < length facts.now →
        is_marked seen.new k ≡ (is_marked seen.old k || is_site (slice_index (fact_numbers facts.now) k) (certified_site op.now)) }
{
    match find_site(facts, site) {
        Some(k) => {
            if !agrees(facts[k].kind, op) {
                return false;
            }
            seen[k] = true;
            true
        }
        None => false,
    }
}

// Whether a site is certified as one that starts a thread exactly if the operation starts one.
fn agrees(kind: LinkKind, op: &Op) -> bool
    ensures { IsTrue result ↔ (is_spawned kind ≡ starts_thread op.now) }
{
    is_spawned_kind(kind) == starts_a_thread(op)
}

// Whether each fact was found.
fn are_all_seen(seen: &[bool]) -> bool
    ensures { IsTrue result ↔ EachIndex seen.now (λ k. is_marked seen.now k ≡ true) }
{
    seen.iter().all(|s| *s)
}
