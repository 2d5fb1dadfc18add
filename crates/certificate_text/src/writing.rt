// Writing a certificate as its text.
ghost use Rattle.std.specs.Prelude.{◌≡◌, ◌^◌, ◌<◌, ◌∷◌, [], ◌++◌, OnOk, IfOk, map};
ghost use Rattle.std.specs.List.{AllByRecursion};
ghost use Rattle.cap_text.specs.Decimals.{canonical_decimal};
ghost use Rattle.cap_text.specs.Pieces.{after_each};
ghost use Rattle.cap_text.specs.TextLines.{ended_lines};
ghost use Rattle.certificate_text.specs.Text.{spelling, function_line, site_line, kind_fields, IsWithinLimits, HoldsWords, HoldsFunctionWords, HoldsSiteWords, HoldsKindWords, AreWords};

use cap_text::put_dec;
use stack_certificate::{Certificate, FunctionFact, LinkKind, SiteFact};
use std::alloc::{AllocError, Global};

/// Returns the text of a certificate, from which `read_cert` reads it: a title line, the size of a chunk in bytes, the
/// maximum bound, the number of functions and a line for each, the number of sites and a line for each. The certificate
/// keeps the limits: at most 4,096 functions with 4,096 places each, and 65,535 sites, whose numbers increase. The
/// format is Capriccio's own.
#[tactic(auto, unfolding(crate::specs::Text::spelling))]
pub fn write_cert(alloc: Global, certificate: &Certificate) -> Result<Vec<u8>, AllocError>
    requires { IsWithinLimits certificate.now }
    ensures spelled { IfOk result (λ text. text.items ≡ spelling certificate.now) }
    ensures words { OnOk result (HoldsWords certificate.now) }
{
    let mut text = Vec::from_slice(alloc, b"capriccio certificate 1\n")?;
    let functions = certificate.functions.as_slice();
    let sites = certificate.sites.as_slice();
    put_number_line(&mut text, b"chunk ", certificate.chunk)?;
    put_number_line(&mut text, b"max-path ", certificate.max_path)?;
    put_number_line(&mut text, b"functions ", functions.len() as u32)?;
    put_functions(&mut text, functions)?;
    put_number_line(&mut text, b"sites ", sites.len() as u32)?;
    put_sites(&mut text, sites)?;
    Ok(text)
}

// Appends a line that consists of a start and a number.
fn put_number_line(text: &mut Vec<u8>, start: &[u8], number: u32) -> Result<(), AllocError>
    ensures line { OnOk result (text.new.items ≡ text.old.items ++ ((start.now ++ canonical_decimal number) ++ 10 ∷ [])) }
    ensures word { number < 2 ^ 32 }
{
    text.extend_from_slice(start)?;
    put_number(text, number)?;
    Ok(text.push(b'\n')?)
}

// Appends a number.
fn put_number(text: &mut Vec<u8>, number: u32) -> Result<(), AllocError>
    ensures { OnOk result (text.new.items ≡ text.old.items ++ canonical_decimal number) }
{
    put_dec(text, i128::from(number))
}

// Appends a field: a space and a number.
fn put_field(text: &mut Vec<u8>, number: u32) -> Result<(), AllocError>
    ensures { OnOk result (text.new.items ≡ text.old.items ++ 32 ∷ canonical_decimal number) }
{
    text.push(b' ')?;
    put_number(text, number)
}

// Appends each number as a field.
fn put_fields(text: &mut Vec<u8>, numbers: &[u32]) -> Result<(), AllocError>
    ensures fields { OnOk result (text.new.items ≡ text.old.items ++ after_each 32 (map canonical_decimal numbers.now)) }
    ensures words { AreWords numbers.now }
{
    for number in numbers {
        put_field(text, *number)?;
    }
    Ok(())
}

// Appends the line of each function.
fn put_functions(text: &mut Vec<u8>, facts: &[FunctionFact]) -> Result<(), AllocError>
    ensures lines { OnOk result (text.new.items ≡ text.old.items ++ ended_lines (map function_line facts.now)) }
    ensures words { OnOk result (AllByRecursion HoldsFunctionWords facts.now) }
{
    for fact in facts {
        put_function(text, fact)?;
    }
    Ok(())
}

// Appends the line of a function.
fn put_function(text: &mut Vec<u8>, fact: &FunctionFact) -> Result<(), AllocError>
    ensures line { OnOk result (text.new.items ≡ text.old.items ++ (function_line fact.now ++ 10 ∷ [])) }
    ensures words { OnOk result (HoldsFunctionWords fact.now) }
{
    text.extend_from_slice(b"function")?;
    put_fields(
        text,
        &[fact.entry, fact.words, fact.frame, fact.ra, fact.bound],
    )?;
    put_fields(text, fact.places.as_slice())?;
    Ok(text.push(b'\n')?)
}

// Appends the line of each site.
fn put_sites(text: &mut Vec<u8>, facts: &[SiteFact]) -> Result<(), AllocError>
    ensures lines { OnOk result (text.new.items ≡ text.old.items ++ ended_lines (map site_line facts.now)) }
    ensures words { OnOk result (AllByRecursion HoldsSiteWords facts.now) }
{
    for fact in facts {
        put_site(text, fact)?;
    }
    Ok(())
}

// Appends the line of a site.
fn put_site(text: &mut Vec<u8>, fact: &SiteFact) -> Result<(), AllocError>
    ensures line { OnOk result (text.new.items ≡ text.old.items ++ (site_line fact.now ++ 10 ∷ [])) }
    ensures words { OnOk result (HoldsSiteWords fact.now) }
{
    text.extend_from_slice(b"site")?;
    put_field(text, fact.number)?;
    put_kind(text, &fact.kind)?;
    Ok(text.push(b'\n')?)
}

// Appends the link kind of a site.
fn put_kind(text: &mut Vec<u8>, kind: &LinkKind) -> Result<(), AllocError>
    ensures fields { OnOk result (text.new.items ≡ text.old.items ++ after_each 32 (kind_fields kind.now)) }
    ensures words { OnOk result (HoldsKindWords kind.now) }
{
    match kind {
        LinkKind::Plain => text.extend_from_slice(b" plain"),
        LinkKind::Linked { need } => {
            text.extend_from_slice(b" linked")?;
            put_field(text, *need)
        }
        LinkKind::Spawned { need } => {
            text.extend_from_slice(b" spawn")?;
            put_field(text, *need)
        }
    }
}
