ghost use Rattle.std.specs.Prelude.{◌≡◌, ◌^◌, ◌<◌, ◌≤◌, IfOk, length};
ghost use Rattle.flat_code.specs.ProgramView.{program_code};
ghost use Rattle.certificate_rules.specs.Validity.{Holds};
ghost use Rattle.rule_failures.specs.First.{HoldBelow, IsFirst, IsFirstSpot};
ghost use Rattle.certificate_check.specs.Answers.{IsAnswer, at_zero, IsFunctionRule};
ghost use Rattle.accepted_pairs.specs.Held.{IsReadable};
ghost use Rattle.rule_failures.specs.TablesOf.{AreTablesOf};

use crate::failures::Failure;
use crate::rules::{
    BOUNDS, FIT, FRAME, GLOBALS, NEEDS, OPERATIONS, PLACES, PROLOGUE, RANGE, STUB, TABLES,
};
use crate::site_rules::{SiteRule, first_wrong_site};
use crate::tables::tables_of;
use flat_code::FlatProgram;
use rule_failures::{
    Spot, Tables, first_outside_path, first_unfit, first_wrong_frame, first_wrong_global,
    first_wrong_member, first_wrong_operation, first_wrong_place, first_wrong_prologue_word,
    first_wrong_range, first_wrong_stub_word,
};
use stack_certificate::Certificate;
use stack_image::Image;
use std::alloc::{AllocError, Global};

/// Returns the first failure of the rules V1 to V12, or `None` if all of them hold: the least rule that
/// fails, in it the least function, and in it the least index. Its memory is linear in the size of the
/// program and of the code.
pub fn first_failure(
    alloc: Global,
    flat: &FlatProgram,
    image: &Image,
    certificate: &Certificate,
) -> Result<Option<Failure>, AllocError>
    requires { length (program_code flat.now).functions ≤ 2 ^ 32 }
    ensures { IfOk result (λ answer. IsAnswer (program_code flat.now) image.now certificate.now answer) }
{
    if let Some(spot) = first_unfit(alloc, flat, image, certificate)? {
        return Ok(Some(Failure {
            rule: FIT,
            function: spot.function,
            index: spot.index,
        }));
    }
    first_behind_fit(alloc, flat, image, certificate)
}

// The first failure of the rules from V2 on.
fn first_behind_fit(
    alloc: Global,
    flat: &FlatProgram,
    image: &Image,
    certificate: &Certificate,
) -> Result<Option<Failure>, AllocError>
    requires few { length (program_code flat.now).functions ≤ 2 ^ 32 }
    requires below { HoldBelow (program_code flat.now) image.now certificate.now 2 }
    ensures { IfOk result (λ answer. IsAnswer (program_code flat.now) image.now certificate.now answer) }
{
    let tables = tables_of(alloc, flat, certificate)?;
    for rule in RANGE..GLOBALS + 1 {
        if let Some(spot) = first_in_rule(alloc, flat, image, certificate, &tables, rule)? {
            return Ok(Some(Failure {
                rule,
                function: spot.function,
                index: spot.index,
            }));
        }
    }
    Ok(None)
}

// The first failure of a rule from V2 on.
fn first_in_rule(
    alloc: Global,
    flat: &FlatProgram,
    image: &Image,
    certificate: &Certificate,
    tables: &Tables,
    rule: u32,
) -> Result<Option<Spot>, AllocError>
    requires readable { IsReadable (program_code flat.now) certificate.now }
    requires tables { AreTablesOf (program_code flat.now) certificate.now tables.now }
    requires below { HoldBelow (program_code flat.now) image.now certificate.now rule }
    requires least { 2 ≤ rule }
    requires greatest { rule < 13 }
    ensures { IfOk result (λ spot. IsFirstSpot (λ f i. Holds (program_code flat.now) image.now certificate.now rule f i) spot) }
{
    match rule {
        RANGE => first_wrong_range(alloc, flat, image, certificate),
        STUB => Ok(everywhere(first_wrong_stub_word(image))),
        TABLES => Ok(everywhere(first_wrong_member(flat, image, certificate))),
        GLOBALS => Ok(everywhere(first_wrong_global(flat, image))),
        _ => first_over_functions(alloc, flat, image, certificate, tables, rule),
    }
}

// The first failure of a rule that isn't about functions.
fn everywhere(index: Option<u64>) -> Option<Spot>
    ensures { result ≡ at_zero index }
{
    match index {
        Some(index) => Some(Spot { function: 0, index }),
        None => None,
    }
}

// The first failure of a rule that concerns single functions.
fn first_over_functions(
    alloc: Global,
    flat: &FlatProgram,
    image: &Image,
    certificate: &Certificate,
    tables: &Tables,
    rule: u32,
) -> Result<Option<Spot>, AllocError>
    requires readable { IsReadable (program_code flat.now) certificate.now }
    requires tables { AreTablesOf (program_code flat.now) certificate.now tables.now }
    requires rule { IsFunctionRule rule }
    ensures { IfOk result (λ spot. IsFirstSpot (λ f i. Holds (program_code flat.now) image.now certificate.now rule f i) spot) }
{
    for f in 0..flat.functions().len() as u64 {
        let function = f as u32;
        if let Some(index) = first_in_function(
            alloc,
            flat,
            image,
            certificate,
            tables,
            rule,
            function,
        )? {
            return Ok(Some(Spot { function, index }));
        }
    }
    Ok(None)
}

// The first index at which a rule fails in a function.
fn first_in_function(
    alloc: Global,
    flat: &FlatProgram,
    image: &Image,
    certificate: &Certificate,
    tables: &Tables,
    rule: u32,
    function: u32,
) -> Result<Option<u64>, AllocError>
    requires readable { IsReadable (program_code flat.now) certificate.now }
    requires tables { AreTablesOf (program_code flat.now) certificate.now tables.now }
    requires rule { IsFunctionRule rule }
    requires function { function < length (program_code flat.now).functions }
    ensures { IfOk result (λ index. IsFirst (λ i. Holds (program_code flat.now) image.now certificate.now rule function i) index) }
{
    match rule {
        FRAME => Ok(first_wrong_frame(certificate, function)),
        PLACES => first_wrong_place(alloc, flat, certificate, function),
        PROLOGUE => Ok(first_wrong_prologue_word(flat, image, certificate, function)),
        OPERATIONS => first_wrong_operation(alloc, flat, image, certificate, tables, function),
        NEEDS => Ok(first_wrong_site(flat, certificate, tables, SiteRule::Need, function)),
        BOUNDS => Ok(first_wrong_site(flat, certificate, tables, SiteRule::Bound, function)),
        // V11
        _ => Ok(first_outside_path(certificate, function)),
    }
}
