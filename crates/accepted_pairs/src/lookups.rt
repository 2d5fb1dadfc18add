// Look-ups by number in a program and its certificate.

ghost use Rattle.std.specs.Prelude.{◌≡◌, ◌≢◌, ℕ, ◌<◌, IfSome, IfNone, length, slice_get, slice_index, slice_index_or, Some};
ghost use Rattle.std.specs.List.Sorted.{IsStrictlyIncreasing};
ghost use Rattle.flat_code.specs.Codes.{function_at, operation_at};
ghost use Rattle.flat_code.specs.ProgramView.{program_code};
ghost use Rattle.flat_code.specs.WellFormed.{IsFunction, IsOperation, context_of};
ghost use Rattle.stack_certificate.specs.Certificates.{kind_in};
ghost use Rattle.stack_certificate.specs.Templates.{kind_of};
ghost use Rattle.certificate_rules.specs.Sites.{fact_numbers};

use flat_code::{FlatFunction, FlatProgram, Op};
use stack_certificate::{Certificate, LinkKind, SiteFact};

/// Returns a function of a program.
pub fn function_of(flat: &FlatProgram, function: u32) -> &FlatFunction
    requires { function < length (program_code flat.now).functions }
    ensures value { result.now ≡ function_at (program_code flat.now) function }
    ensures formed { IsFunction (program_code flat.now) result.now }
{
    &flat.functions()[function as usize]
}

/// An operation of a function.
pub fn operation_of(flat: &FlatProgram, function: u32, op: u32) -> &Op
    requires function { function < length (program_code flat.now).functions }
    requires op { op < length (function_at (program_code flat.now) function).ops }
    ensures there { operation_at (program_code flat.now) function op ≡ Some result.now }
    ensures formed { IsOperation (context_of (program_code flat.now) (function_at (program_code flat.now) function)) result.now }
{
    let body = function_of(flat, function);
    operation_in(body, op)
}

// An operation of a function.
fn operation_in(function: &FlatFunction, op: u32) -> &Op
    requires { op < length function.now.ops }
    ensures there { Some result.now ≡ slice_get function.now.ops op }
    ensures value { result.now ≡ slice_index_or function.now.ops op result.now }
{
    &function.ops.as_slice()[op as usize]
}

/// Returns the index of a site's fact among facts with increasing numbers, by binary search.
pub fn find_site(facts: &[SiteFact], site: u32) -> Option<usize>
    requires { IsStrictlyIncreasing (fact_numbers facts.now) }
    ensures found { IfSome result (λ k. (k < length facts.now) × (slice_index (fact_numbers facts.now) k ≡ site)) }
    ensures absent { IfNone result ((k : ℕ) → k < length facts.now → slice_index (fact_numbers facts.now) k ≢ site) }
{
    let mut low = 0;
    let mut high = facts.len();
    'halving: while low < high {
        let middle = low + (high - low) / 2;
        if facts[middle].number < site {
            low = middle + 1;
        } else {
            high = middle;
        }
    }
    if low < facts.len() && facts[low].number == site {
        Some(low)
    } else {
        None
    }
}

// The link kind of a site, by its fact among facts with increasing numbers.
fn kind_of_site(facts: &[SiteFact], site: u32) -> LinkKind
    requires { IsStrictlyIncreasing (fact_numbers facts.now) }
    ensures { result ≡ kind_in facts.now site }
{
    match find_site(facts, site) {
        Some(k) => facts[k].kind,
        None => LinkKind::Plain,
    }
}

/// Returns the link kind of an operation's site: plain if the operation has no site, or the certificate no fact for it.
/// The certificate's sites are in the order of their numbers, so the time is logarithmic in their count.
pub fn kind_of_operation(certificate: &Certificate, op: &Op) -> LinkKind
    requires { IsStrictlyIncreasing (fact_numbers certificate.now.sites) }
    ensures { result ≡ kind_of certificate.now op.now }
{
    match op {
        Op::Call { site, .. }
        | Op::CallTable { site, .. }
        | Op::Model { site, .. }
        | Op::Spawn { site, .. } => kind_of_site(certificate.sites.as_slice(), *site),
        _ => LinkKind::Plain,
    }
}
