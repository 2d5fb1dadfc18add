ghost use Rattle.std.specs.Prelude.{MatchOption, ◌≡◌, ◌+◌, ◌<◌, ◌≤◌, ◌↔◌, IsTrue, length, min};
ghost use Rattle.flat_code.specs.Codes.{function_at};
ghost use Rattle.flat_code.specs.ProgramView.{program_code};
ghost use Rattle.flat_code.specs.WellFormed.{IsOperation, context_of};
ghost use Rattle.certificate_rules.specs.Sites.{callee_bound};
ghost use Rattle.certificate_rules.specs.Rules.{V9, V10, IsNeed};
ghost use Rattle.rule_failures.specs.First.{IsFirst};
ghost use Rattle.certificate_check.specs.LeastSite.{IsLeastSite, HoldsAtSite};
ghost use Rattle.accepted_pairs.specs.Held.{IsReadable};
ghost use Rattle.rule_failures.specs.TablesOf.{AreTablesOf};

use accepted_pairs::{function_of, kind_of_operation, operation_of};
use flat_code::{FlatProgram, Op};
use rule_failures::{Tables, certified_site_of};
use stack_certificate::{Certificate, FunctionFact, LinkKind, fact_of};

// The two rules of sites: V9 and V10.
#[derive(Clone, Copy)]
pub enum SiteRule {
    Need,
    Bound,
}

// The first site at which V9 or V10 fails in a function.
pub(crate) fn first_wrong_site(
    flat: &FlatProgram,
    certificate: &Certificate,
    tables: &Tables,
    rule: SiteRule,
    function: u32,
) -> Option<u64>
    requires readable { IsReadable (program_code flat.now) certificate.now }
    requires tables { AreTablesOf (program_code flat.now) certificate.now tables.now }
    requires function { function < length (program_code flat.now).functions }
    ensures need { rule ≡ SiteRule.Need → IsFirst (V9 (program_code flat.now) certificate.now function) result }
    ensures bound { rule ≡ SiteRule.Bound → IsFirst (V10 (program_code flat.now) certificate.now function) result }
{
    let mut first = None;
    for op in 0..function_of(flat, function).ops.len() as u64 {
        first = least_site(flat, certificate, tables, rule, function, op as u32, first);
    }
    match first {
        Some(site) => Some(site as u64),
        None => None,
    }
}

// The least site at which V9 or V10 fails among the operations so far, from that among those before
// the last.
fn least_site(
    flat: &FlatProgram,
    certificate: &Certificate,
    tables: &Tables,
    rule: SiteRule,
    function: u32,
    op: u32,
    first: Option<u32>,
) -> Option<u32>
    requires readable { IsReadable (program_code flat.now) certificate.now }
    requires tables { AreTablesOf (program_code flat.now) certificate.now tables.now }
    requires function { function < length (program_code flat.now).functions }
    requires op { op < length (function_at (program_code flat.now) function).ops }
    requires first { IsLeastSite rule (program_code flat.now) certificate.now function op first }
    ensures { IsLeastSite rule (program_code flat.now) certificate.now function (op + 1) result }
{
    let operation = operation_of(flat, function, op);
    match certified_site_of(operation) {
        Some(site) => {
            if holds_at(flat, certificate, tables, rule, function, operation) {
                return first;
            }
            Some(lesser(first, site))
        }
        None => first,
    }
}

// The lesser of an optional number and another.
fn lesser(first: Option<u32>, second: u32) -> u32
    ensures { MatchOption first (result ≡ second) (λ n. result ≡ min n second) }
{
    match first {
        Some(first) => first.min(second),
        None => second,
    }
}

// Whether V9 or V10 holds at an operation.
fn holds_at(
    flat: &FlatProgram,
    certificate: &Certificate,
    tables: &Tables,
    rule: SiteRule,
    function: u32,
    op: &Op,
) -> bool
    requires readable { IsReadable (program_code flat.now) certificate.now }
    requires tables { AreTablesOf (program_code flat.now) certificate.now tables.now }
    requires function { function < length (program_code flat.now).functions }
    requires formed { IsOperation (context_of (program_code flat.now) (function_at (program_code flat.now) function)) op.now }
    ensures { IsTrue result ↔ HoldsAtSite rule (program_code flat.now) certificate.now function op.now }
{
    let callees = bound_of_callees(flat, certificate, tables, function, op);
    let kind = kind_of_operation(certificate, op);
    match rule {
        SiteRule::Need => is_need(kind, callees),
        SiteRule::Bound => is_within_bound(kind, fact_of(certificate, function), callees),
    }
}

// Whether the frame and the callees' bound are within the caller's bound, if the site is plain.
fn is_within_bound(kind: LinkKind, fact: &FunctionFact, callees: u32) -> bool
    ensures { IsTrue result ↔ (kind ≡ LinkKind.Plain → fact.now.frame + callees ≤ fact.now.bound) }
{
    match kind {
        LinkKind::Plain => u64::from(fact.frame) + u64::from(callees) <= u64::from(fact.bound),
        LinkKind::Linked { .. } | LinkKind::Spawned { .. } => true,
    }
}

// Whether the need, if there is one, is that number.
fn is_need(kind: LinkKind, bytes: u32) -> bool
    ensures { IsTrue result ↔ IsNeed kind bytes }
{
    match kind {
        LinkKind::Plain => true,
        LinkKind::Linked { need } => need == bytes,
        LinkKind::Spawned { need } => need == bytes,
    }
}

// The greatest bound of the functions that an operation may enter.
fn bound_of_callees(
    flat: &FlatProgram,
    certificate: &Certificate,
    tables: &Tables,
    function: u32,
    op: &Op,
) -> u32
    requires readable { IsReadable (program_code flat.now) certificate.now }
    requires tables { AreTablesOf (program_code flat.now) certificate.now tables.now }
    requires formed { IsOperation (context_of (program_code flat.now) (function_at (program_code flat.now) function)) op.now }
    ensures { result ≡ callee_bound (program_code flat.now) certificate.now op.now }
{
    match op {
        Op::Call { f, .. } => fact_of(certificate, *f).bound,
        Op::Spawn { f, .. } => fact_of(certificate, *f).bound,
        Op::CallTable { t, .. } => tables.member_bounds[*t as usize],
        _ => 0,
    }
}
