ghost use Rattle.std.specs.Prelude.{◌≡◌, ◌+◌, ◌*◌, ◌<◌, ◌≤◌, ◌^◌, length};
ghost use Rattle.flat_code.specs.Codes.{function_at, operation_at};
ghost use Rattle.flat_code.specs.ProgramView.{program_code};
ghost use Rattle.stack_certificate.specs.Templates.{begin, kind_of, size, words_before, IsFor};

use crate::certificates::Certificate;
use crate::lookups::{function_of, operation_of, placed_fact_of};
use crate::places_in_code::{kind_of_operation, operation_size};
use flat_code::FlatProgram;

/// Returns the address of the first word of an operation of a function; for the number of its operations,
/// the address after the last of them. It doesn't allocate; its time is linear in the number of operations
/// before it.
pub fn operation_begin(flat: &FlatProgram, certificate: &Certificate, function: u32, op: u32) -> u64
    requires certificate { IsFor (program_code flat.now) certificate.now }
    requires function { function < length (program_code flat.now).functions }
    requires op { op ≤ length (function_at (program_code flat.now) function).ops }
    ensures address { result ≡ begin (program_code flat.now) certificate.now function op }
    ensures range { result < 2 ^ 56 }
{
    let fact = placed_fact_of(flat, certificate, function);
    u64::from(fact.entry) + 4 * words_before_operation(flat, certificate, function, op)
}

// The number of words of a function before one of its operations.
fn words_before_operation(
    flat: &FlatProgram,
    certificate: &Certificate,
    function: u32,
    op: u32,
) -> u64
    requires function { function < length (program_code flat.now).functions }
    requires op { op ≤ length (function_at (program_code flat.now) function).ops }
    ensures words { result ≡ words_before (program_code flat.now) certificate.now function op }
    ensures range { result < 2 ^ 53 + 16 }
{
    let mut words = 2 + u64::from(function_of(flat, function).params);
    for i in 0..op {
        let kind = kind_of_operation(certificate, operation_of(flat, function, i));
        words += u64::from(operation_size(flat, function, i, kind));
    }
    words
}
