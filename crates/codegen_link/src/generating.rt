ghost use Rattle.std.specs.Prelude.{◌≡◌, ◌-◌, ◌<◌, ◌≤◌, ◌^◌, length, min, IfOk, IsOkUnless};
ghost use Rattle.flat_code.specs.ProgramView.{program_code};
ghost use Rattle.certificate_rules.specs.Validity.{IsValid};
ghost use Rattle.codegen_link.specs.Emission.{AreNeeds};
ghost use Rattle.codegen_link.specs.Layout.{code_words, HasFacts, IsCertificateOf, IsImageOf};
ghost use Rattle.codegen_link.specs.Plans.{AreInRange, IsPlanFor};

use crate::areas::{entries, global_words, table_words};
use crate::facts::facts_of;
use crate::layouts::Layout;
use crate::links::table_needs;
use crate::options::Options;
use crate::refusals::GenError;
use crate::sites::sites_of;
use crate::sizes::code_size;
use crate::words::code_of;
use checkpoint_place::Plan;
use flat_code::FlatProgram;
use stack_certificate::{Certificate, FunctionFacts, SiteFacts, global_addresses, table_addresses};
use stack_image::Image;
use std::alloc::{AllocError, Global};

// The maximum number of words of code.
const MOST_WORDS: u64 = 200_000;

// The certificate.
fn certificate_of(
    alloc: Global,
    flat: &FlatProgram,
    plan: &Plan,
    options: Options,
    needs: &[u32],
) -> Result<Certificate, AllocError>
    requires plan { IsPlanFor (program_code flat.now) plan.now options.max_path }
    requires fits { code_words (program_code flat.now) plan.now ≤ 200000 }
    requires needs { AreNeeds (program_code flat.now) plan.now needs.now }
    ensures { IfOk result (λ certificate. IsCertificateOf (program_code flat.now) plan.now options certificate) }
{
    let sites = sites_of(alloc, flat, plan, needs)?;
    let functions = facts_of(alloc, flat, plan)?;
    Ok(Certificate {
        chunk: options.chunk,
        max_path: options.max_path,
        functions: FunctionFacts::new(functions),
        sites: SiteFacts::new(sites),
    })
}

// The image under a certificate.
fn image_of(
    alloc: Global,
    flat: &FlatProgram,
    plan: &Plan,
    certificate: &Certificate,
    needs: Vec<u32>,
) -> Result<Image, AllocError>
    requires plan { IsPlanFor (program_code flat.now) plan.now certificate.now.max_path }
    requires fits { code_words (program_code flat.now) plan.now ≤ 200000 }
    requires needs { AreNeeds (program_code flat.now) plan.now needs.items }
    requires facts { HasFacts (program_code flat.now) plan.now certificate.now }
    ensures { IfOk result (λ image. IsImageOf (program_code flat.now) certificate.now image) }
{
    let layout = Layout {
        flat,
        plan,
        certificate,
        needs,
        globals: global_addresses(alloc, flat)?,
        tables: table_addresses(alloc, flat)?,
    };
    Ok(Image {
        code: code_of(alloc, &layout)?,
        globals: global_words(alloc, flat)?,
        tables: table_words(alloc, flat, certificate)?,
        entries: entries(alloc, certificate)?,
    })
}

/// Returns the image and the certificate of a program of flat code, by a plan, for chunks and paths of these
/// sizes in bytes: those of specs/Layout.antt.
///
/// # Errors
///
/// `CodeTooLarge` exactly if the code has more than 200,000 words; `Memory` if an allocation fails, or if
/// there are more than 2^32 functions.
pub fn generate(
    alloc: Global,
    flat: &FlatProgram,
    plan: &Plan,
    options: Options,
) -> Result<(Image, Certificate), GenError>
    requires options { AreInRange options }
    requires plan { IsPlanFor (program_code flat.now) plan.now options.max_path }
    // The refusal. It is returned even if there is no memory.
    ensures refused { length (program_code flat.now).functions ≤ 2 ^ 32 → 200000 < code_words (program_code flat.now) plan.now →
        result ≡ Err (GenError.CodeTooLarge (min (code_words (program_code flat.now) plan.now) (2 ^ 64 - 1))) }
    ensures only_memory { code_words (program_code flat.now) plan.now ≤ 200000 → IsOkUnless result GenError.Memory }
    ensures certificate { IfOk result (λ pair. IsCertificateOf (program_code flat.now) plan.now options pair.1) }
    ensures image { IfOk result (λ pair. IsImageOf (program_code flat.now) pair.1 pair.0) }
    ensures valid { IfOk result (λ pair. IsValid (program_code flat.now) pair.0 pair.1) }
{
    if flat.functions().len() > 1 << 32 {
        return Err(GenError::Memory);
    }
    let words = code_size(flat, plan);
    if words > MOST_WORDS {
        return Err(GenError::CodeTooLarge { words });
    }
    let needs = table_needs(alloc, flat, plan)?;
    let certificate = certificate_of(alloc, flat, plan, options, needs.as_slice())?;
    let image = image_of(alloc, flat, plan, &certificate, needs)?;
    Ok((image, certificate))
}
