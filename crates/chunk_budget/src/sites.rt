ghost use Rattle.std.specs.Prelude.{◌≡◌, ◌<◌, None, length};
ghost use Rattle.std.specs.List.Sorted.{IsStrictlyIncreasing};
ghost use Rattle.certificate_rules.specs.Sites.{fact_numbers};
ghost use Rattle.flat_code.specs.Codes.{function_at};
ghost use Rattle.flat_code.specs.ProgramView.{program_code};
ghost use Rattle.flat_code.specs.WellFormed.{IsFunction, IsOperation, context_of};
ghost use Rattle.call_cycles.specs.Cycles.{IsLeastOf};
ghost use Rattle.chunk_budget.specs.Budgets.{IsLow, chunks_added};
ghost use Rattle.chunk_budget.specs.Known.{IsKnown};
ghost use Rattle.chunk_budget.specs.Least.{least_in, least_below};
ghost use Rattle.chunk_budget.specs.Tests.{low_call, low_site};

use crate::heights::{Known, nothing_known, table_height};
use crate::least::lesser;
use accepted_pairs::kind_of_operation;
use flat_code::{FlatFunction, FlatProgram, Op};
use stack_certificate::{Certificate, LinkKind};

// A function of a program.
pub(crate) fn function_of(flat: &FlatProgram, function: usize) -> &FlatFunction
    requires { function < length (program_code flat.now).functions }
    ensures value { result.now ≡ function_at (program_code flat.now) function }
    ensures formed { IsFunction (program_code flat.now) result.now }
{
    &flat.functions()[function]
}

// The number of chunks that a call adds to those of its caller's thread.
pub(crate) fn chunks_added(kind: LinkKind) -> u64
    ensures { result ≡ chunks_added kind }
{
    match kind {
        LinkKind::Linked { .. } => 1,
        LinkKind::Plain | LinkKind::Spawned { .. } => 0,
    }
}

// The site of a call between functions of these heights, if the callee's is too high.
fn low_call(site: u32, caller: u32, callee: u32, kind: LinkKind) -> Option<u32>
    ensures { result ≡ low_call site caller callee kind }
{
    if u64::from(callee) + chunks_added(kind) <= u64::from(caller) {
        None
    } else {
        Some(site)
    }
}

// The site of an operation, if the caller's height is too low for it.
fn low_site(
    flat: &FlatProgram,
    certificate: &Certificate,
    heights: &[u32],
    function: usize,
    op: &Op,
    known: &mut Known,
) -> Option<u32>
    requires rising { IsStrictlyIncreasing (fact_numbers certificate.now.sites) }
    requires heights { length heights.now ≡ length (program_code flat.now).functions }
    requires function { function < length (program_code flat.now).functions }
    requires formed { IsOperation (context_of (program_code flat.now) (function_at (program_code flat.now) function)) op.now }
    requires known { IsKnown (program_code flat.now) heights.now known.old }
    ensures site { result ≡ low_site (program_code flat.now) certificate.now heights.now function op.now }
    ensures known { IsKnown (program_code flat.now) heights.now known.new }
{
    match op {
        Op::Call { site, f, .. } => low_call(
            *site,
            heights[function],
            heights[*f as usize],
            kind_of_operation(certificate, op),
        ),
        Op::CallTable { site, t, .. } => {
            let callee = table_height(flat, heights, *t, known);
            low_call(
                *site,
                heights[function],
                callee,
                kind_of_operation(certificate, op),
            )
        }
        _ => None,
    }
}

// The least of a number and the sites of a function's operations for which its height is too low.
fn least_in_function(
    flat: &FlatProgram,
    certificate: &Certificate,
    heights: &[u32],
    function: usize,
    first: Option<u32>,
    known: &mut Known,
) -> Option<u32>
    requires rising { IsStrictlyIncreasing (fact_numbers certificate.now.sites) }
    requires heights { length heights.now ≡ length (program_code flat.now).functions }
    requires function { function < length (program_code flat.now).functions }
    requires known { IsKnown (program_code flat.now) heights.now known.old }
    ensures least { result ≡ least_in (low_site (program_code flat.now) certificate.now heights.now function) (function_at (program_code flat.now) function).ops first }
    ensures known { IsKnown (program_code flat.now) heights.now known.new }
{
    let ops = function_of(flat, function).ops.as_slice();
    let mut least = first;
    for op in ops {
        let site = low_site(flat, certificate, heights, function, op, known);
        least = lesser(least, site);
    }
    least
}

// The least of the sites of the program's operations for which the caller's height is too low.
fn least_of_sites(flat: &FlatProgram, certificate: &Certificate, heights: &[u32]) -> Option<u32>
    requires rising { IsStrictlyIncreasing (fact_numbers certificate.now.sites) }
    requires heights { length heights.now ≡ length (program_code flat.now).functions }
    ensures { result ≡ least_below (low_site (program_code flat.now) certificate.now heights.now) (program_code flat.now) None (length (program_code flat.now).functions) }
{
    let mut known = nothing_known();
    let mut least = None;
    for function in 0..flat.functions().len() {
        least = least_in_function(flat, certificate, heights, function, least, &mut known);
    }
    least
}

// The least site of the program at which a call isn't covered.
pub(crate) fn least_low_site(
    flat: &FlatProgram,
    certificate: &Certificate,
    heights: &[u32],
) -> Option<u32>
    requires rising { IsStrictlyIncreasing (fact_numbers certificate.now.sites) }
    requires heights { length heights.now ≡ length (program_code flat.now).functions }
    ensures { IsLeastOf (IsLow (program_code flat.now) certificate.now heights.now) result }
{
    least_of_sites(flat, certificate, heights)
}
