ghost use Rattle.std.specs.Prelude.{◌≡◌, ◌^◌, ◌<◌, ◌≤◌, IfOk, length};
ghost use Rattle.flat_code.specs.Codes.{function_at};
ghost use Rattle.flat_code.specs.ProgramView.{program_code};
ghost use Rattle.stack_certificate.specs.Certificates.{fact_at};
ghost use Rattle.certificate_rules.specs.Rules.{V1};
ghost use Rattle.rule_failures.specs.First.{unfit_spot, IsFirst, IsFirstSpot};

use crate::named_sites::names_sites;
use crate::spots::Spot;
use flat_code::FlatProgram;
use stack_certificate::Certificate;
use stack_image::Image;
use std::alloc::{AllocError, Global};

/// Returns the first failure of V1. Only index 4 is tested for each function; the others are at function 0.
pub fn first_unfit(
    alloc: Global,
    flat: &FlatProgram,
    image: &Image,
    certificate: &Certificate,
) -> Result<Option<Spot>, AllocError>
    requires { length (program_code flat.now).functions ≤ 2 ^ 32 }
    ensures { IfOk result (λ spot. IsFirstSpot (V1 (program_code flat.now) image.now certificate.now) spot) }
{
    if let Some(index) = first_unfit_count(flat, image, certificate) {
        return Ok(Some(Spot { function: 0, index }));
    }
    let named = names_sites(alloc, flat, certificate)?;
    Ok(spot_of_rest(first_without_places(flat, certificate), named))
}

// The first failure of V1 after its first three indices, by the first function without a place for each variable, and
// whether the certificate names the program's sites.
fn spot_of_rest(function: Option<u32>, named: bool) -> Option<Spot>
    ensures { result ≡ unfit_spot function named }
{
    match function {
        Some(function) => {
            if function == 0 {
                return Some(Spot { function, index: 4 });
            }
            if named {
                return Some(Spot { function, index: 4 });
            }
            Some(Spot {
                function: 0,
                index: 5,
            })
        }
        None => {
            if named {
                return None;
            }
            Some(Spot {
                function: 0,
                index: 5,
            })
        }
    }
}

// The first of the indices 1 to 3 at which V1 fails.
fn first_unfit_count(flat: &FlatProgram, image: &Image, certificate: &Certificate) -> Option<u64>
    ensures { IsFirst (λ i. i ≤ 3 → V1 (program_code flat.now) image.now certificate.now 0 i) result }
{
    let chunk = certificate.chunk;
    if chunk % 16 != 0 || chunk < 64 || chunk > 65536 {
        return Some(1);
    }
    if image.code.len() < 2 || image.code.len() > 200_000 {
        return Some(2);
    }
    let functions = flat.functions().len();
    if certificate.functions.len() != functions || image.entries.len() != functions {
        return Some(3);
    }
    None
}

// The first function with fewer or more places than variables.
fn first_without_places(flat: &FlatProgram, certificate: &Certificate) -> Option<u32>
    requires few { length (program_code flat.now).functions ≤ 2 ^ 32 }
    requires count { length certificate.now.functions ≡ length (program_code flat.now).functions }
    ensures { IsFirst (λ f. f < length (program_code flat.now).functions → length (fact_at certificate.now f).places ≡ length (function_at (program_code flat.now) f).sizes) result }
{
    let functions = flat.functions();
    let facts = certificate.functions.as_slice();
    for f in 0..functions.len() {
        if facts[f].places.len() != functions[f].sizes.len() {
            return Some(f as u32);
        }
    }
    None
}
