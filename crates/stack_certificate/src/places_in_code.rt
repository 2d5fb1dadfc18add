ghost use Rattle.std.specs.Prelude.{◌≡◌, ◌+◌, ◌*◌, ◌<◌, ◌≤◌, ◌^◌, length, sum, slice_index};
ghost use Rattle.flat_code.specs.Codes.{function_at, operation_at};
ghost use Rattle.flat_code.specs.ProgramView.{program_code};
ghost use Rattle.stack_certificate.specs.Certificates.{kind_in};
ghost use Rattle.stack_certificate.specs.Places.{HavePlaces};
ghost use Rattle.stack_certificate.specs.Templates.{begin, kind_of, middle_size, result_size, size, size_at, transfer_size, words_before};

use crate::certificates::Certificate;
use crate::lookups::{function_of, operation_of};
use crate::sites::LinkKind;
use flat_code::{BinOp, FlatProgram, Op};

/// Returns the number of words of an operation's template, by the link kind of its site. It doesn't
/// allocate.
pub fn operation_size(flat: &FlatProgram, function: u32, op: u32, kind: LinkKind) -> u32
    requires function { function < length (program_code flat.now).functions }
    requires op { op < length (function_at (program_code flat.now) function).ops }
    ensures size { result ≡ size_at (function_at (program_code flat.now) function).sizes kind (operation_at (program_code flat.now) function op) }
    ensures few { result ≤ 2 ^ 21 }
{
    let body = function_of(flat, function);
    size_of(
        body.sizes.as_slice(),
        kind,
        operation_of(flat, function, op),
    )
}

// The number of words of an operation's template.
fn size_of(sizes: &[u32], kind: LinkKind, op: &Op) -> u32
    requires places { HavePlaces (length sizes.now) op.now }
    requires words { sum sizes.now ≤ 2 ^ 20 }
    ensures size { result ≡ size sizes.now kind op.now }
    ensures few { result ≤ 2 ^ 21 }
{
    match op {
        Op::Const { .. } | Op::Neg { .. } | Op::Not { .. } | Op::Flip { .. } => 3,
        Op::Copy { .. } => 2,
        Op::Bin { op, .. } => 3 + size_of_middle(*op),
        Op::Zero { a } => sizes[*a as usize],
        Op::LoadGlobal { .. } | Op::StoreGlobal { .. } => 4,
        Op::LoadLocal { .. } | Op::StoreLocal { .. } => 11,
        Op::LoadArray { .. } | Op::StoreArray { .. } => 13,
        Op::Jump { .. } => 1,
        Op::JumpZero { .. } => 3,
        Op::Call { d, args, .. } => {
            args.len() as u32 + size_of_transfer(kind) + size_of_result(*d)
        }
        Op::CallTable { d, .. } => 13 + size_of_transfer(kind) + size_of_result(*d),
        Op::Model { d, args, .. } => args.len() as u32 + 2 + size_of_result(*d),
        Op::Spawn { d, .. } => 7 + size_of_result(*d),
        Op::Return { s } => 3 + size_of_result(*s),
    }
}

fn size_of_middle(op: BinOp) -> u32
    ensures size { result ≡ middle_size op }
    ensures few { result ≤ 2 }
{
    match op {
        BinOp::LessOrEqual | BinOp::GreaterOrEqual | BinOp::Equal | BinOp::NotEqual => 2,
        _ => 1,
    }
}

fn size_of_transfer(kind: LinkKind) -> u32
    ensures size { result ≡ transfer_size kind }
    ensures few { result ≤ 11 }
{
    match kind {
        LinkKind::Linked { .. } => 11,
        LinkKind::Plain | LinkKind::Spawned { .. } => 1,
    }
}

fn size_of_result(d: Option<u32>) -> u32
    ensures size { result ≡ result_size d }
    ensures few { result ≤ 1 }
{
    if d.is_some() { 1 } else { 0 }
}

// The link kind of a site, by its first fact.
fn kind_of_site(certificate: &Certificate, site: u32) -> LinkKind
    ensures { result ≡ kind_in certificate.now.sites site }
{
    for fact in certificate.sites.as_slice() {
        if fact.number == site {
            return fact.kind;
        }
    }
    LinkKind::Plain
}

// The link kind of an operation.
pub(crate) fn kind_of_operation(certificate: &Certificate, op: &Op) -> LinkKind
    ensures { result ≡ kind_of certificate.now op.now }
{
    match op {
        Op::Call { site, .. }
        | Op::CallTable { site, .. }
        | Op::Model { site, .. }
        | Op::Spawn { site, .. } => kind_of_site(certificate, *site),
        _ => LinkKind::Plain,
    }
}
