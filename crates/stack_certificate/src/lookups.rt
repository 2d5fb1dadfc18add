// Look-ups by number in a program and its certificate.

ghost use Rattle.std.specs.Prelude.{◌≡◌, ◌<◌, ◌≤◌, ◌^◌, length, slice_get, slice_index_or, Some, sum};
ghost use Rattle.flat_code.specs.Codes.{function_at, operation_at};
ghost use Rattle.flat_code.specs.ProgramView.{program_code};
ghost use Rattle.flat_code.specs.WellFormed.{IsOperation, context_of};
ghost use Rattle.stack_certificate.specs.Certificates.{fact_at, global_words, member_count};
ghost use Rattle.stack_certificate.specs.Places.{HavePlaces};
ghost use Rattle.stack_certificate.specs.Templates.{IsFor};

use crate::certificates::Certificate;
use crate::functions::FunctionFact;
use flat_code::{FlatFunction, FlatProgram, Op};

/// A function of a program.
pub fn function_of(flat: &FlatProgram, function: u32) -> &FlatFunction
    requires { function < length (program_code flat.now).functions }
    ensures value { result.now ≡ function_at (program_code flat.now) function }
    ensures params { result.now.params ≤ 6 }
    ensures words { sum result.now.sizes ≤ 2 ^ 20 }
    ensures count { length result.now.ops ≤ 2 ^ 32 }
{
    &flat.functions()[function as usize]
}

/// What a certificate says of a function.
pub fn fact_of(certificate: &Certificate, function: u32) -> &FunctionFact
    requires { function < length certificate.now.functions }
    ensures { result.now ≡ fact_at certificate.now function }
{
    &certificate.functions.as_slice()[function as usize]
}

/// What the certificate of a program says of a function, with a place for each variable.
pub fn placed_fact_of<'a>(
    flat: &FlatProgram,
    certificate: &'a Certificate,
    function: u32,
) -> &'a FunctionFact
    requires certificate { IsFor (program_code flat.now) certificate.now }
    requires function { function < length (program_code flat.now).functions }
    ensures value { result.now ≡ fact_at certificate.now function }
    ensures places { length result.now.places ≡ length (function_at (program_code flat.now) function).sizes }
{
    fact_of(certificate, function)
}

// An operation of a function, which is well formed.
pub(crate) fn operation_of(flat: &FlatProgram, function: u32, op: u32) -> &Op
    requires function { function < length (program_code flat.now).functions }
    requires op { op < length (function_at (program_code flat.now) function).ops }
    ensures value { Some result.now ≡ operation_at (program_code flat.now) function op }
    ensures formed { IsOperation (context_of (program_code flat.now) (function_at (program_code flat.now) function)) result.now }
    ensures places { HavePlaces (length (function_at (program_code flat.now) function).sizes) result.now }
{
    let body = function_of(flat, function);
    operation_in(body, op)
}

// An operation of a function.
fn operation_in(function: &FlatFunction, op: u32) -> &Op
    requires { op < length function.now.ops }
    ensures there { Some result.now ≡ slice_get function.now.ops op }
    ensures value { result.now ≡ slice_index_or function.now.ops op result.now }
{
    &function.ops.as_slice()[op as usize]
}

/// The words of a global.
pub fn words_of_global(flat: &FlatProgram, g: u32) -> u32
    requires { g < length (program_code flat.now).globals }
    ensures { result ≡ global_words (program_code flat.now) g }
{
    flat.globals()[g as usize].words
}

/// The number of a table's members.
pub fn members_of_table(flat: &FlatProgram, t: u32) -> u32
    requires { t < length (program_code flat.now).tables }
    ensures { result ≡ member_count (program_code flat.now) t }
{
    flat.tables()[t as usize].len() as u32
}
