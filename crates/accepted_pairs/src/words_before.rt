ghost use Rattle.std.specs.Prelude.{◌<◌, IfOk, length};
ghost use Rattle.flat_code.specs.ProgramView.{program_code};
ghost use Rattle.accepted_pairs.specs.Held.{AreWordsBefore, IsReadable};

use crate::lookups::{function_of, kind_of_operation, operation_of};
use flat_code::FlatProgram;
use stack_certificate::{Certificate, operation_size};
use std::alloc::{AllocError, Global};

/// Returns the number of words of a function before each of its operations, and last, before its
/// end.
pub fn words_before_each(
    alloc: Global,
    flat: &FlatProgram,
    certificate: &Certificate,
    function: u32,
) -> Result<Vec<u64>, AllocError>
    requires readable { IsReadable (program_code flat.now) certificate.now }
    requires function { function < length (program_code flat.now).functions }
    ensures { IfOk result (λ before. AreWordsBefore (program_code flat.now) certificate.now function before.items) }
{
    let body = function_of(flat, function);
    let mut before = Vec::new(alloc);
    let mut words = 2 + body.params as u64;
    before.push(words)?;
    for op in 0..body.ops.len() as u64 {
        let kind = kind_of_operation(certificate, operation_of(flat, function, op as u32));
        words += operation_size(flat, function, op as u32, kind) as u64;
        before.push(words)?;
    }
    Ok(before)
}
