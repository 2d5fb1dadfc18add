// Reading a certificate from its text.
ghost use Rattle.std.specs.Prelude.{◌≡◌, ℕ, ◌+◌, ◌^◌, ◌<◌, ◌≤◌, List, [], ◌∷◌, ◌++◌, length, map, IfOk, IfErr, MatchResult, ◌⊎◌, None};
ghost use Rattle.std.specs.Bool.{MatchBool};
ghost use Rattle.std.specs.List.{AllByRecursion};
ghost use Rattle.cap_text.specs.TextLines.{ended_lines};
ghost use Rattle.stack_certificate.specs.declared.certificates.Certificate.{Certificate};
ghost use Rattle.certificate_text.specs.declared.errors.CertError.TheVariants.{Line, Memory};
ghost use Rattle.certificate_text.specs.Text.{spelling, title_line, function_line, site_line, IsWithinLimits, HoldsWords, HasFewPlaces, HoldsFunctionWords, HoldsSiteWords, Rises};
ghost use Rattle.certificate_text.specs.FirstRefused.{IsFirstRefused, IsCauseOf};
ghost use Rattle.certificate_text.specs.FirstRefused.{Title, Functions, Sites};
ghost use Rattle.certificate_text.specs.Reading.{head_lines, BreaksIn};

use crate::errors::CertError;
use crate::fact_lines::{is_same, read_function, read_site};
use crate::text_rest::TextRest;
use stack_certificate::{Certificate, FunctionFact, FunctionFacts, SiteFact, SiteFacts};
use std::alloc::Global;

/// The maximum number of functions.
const MOST_FUNCTIONS: u32 = 4_096;

/// The maximum number of sites.
const MOST_SITES: u32 = 65_535;

/// The number of the first line of a function.
const FIRST_FUNCTION_LINE: u32 = 5;

/// Reads a certificate from all of the bytes. The format is Capriccio's own.
///
/// # Errors
///
/// `Line` with the first line, counted from 1, that breaks the format; a line that is missing or one too many has the
/// number of its place, and a last line without LF is refused by its number. `Memory` if an allocation fails, instead
/// of either.
pub fn read_cert(alloc: Global, bytes: &[u8]) -> Result<Certificate, CertError>
    // The bytes are the spelling of the certificate.
    ensures spelled { IfOk result (λ certificate. bytes.now ≡ spelling certificate) }
    ensures limits { IfOk result IsWithinLimits }
    ensures words { IfOk result HoldsWords }

    // The spelling of a certificate is read as that certificate, unless an allocation fails.
    ensures again { (certificate : Certificate) → IsWithinLimits certificate → HoldsWords certificate → bytes.now ≡ spelling certificate →
        MatchResult result (λ read. read ≡ certificate) (λ error. error ≡ Memory) }

    // The refused line, if there is one and no allocation fails.
    ensures refused { IfErr result (IsCauseOf bytes.now) }
    ensures exact { (number : ℕ) → IsFirstRefused bytes.now number →
        MatchResult result (λ _. ⊥) (λ error. (error ≡ Line number) ⊎ (error ≡ Memory)) }
{
    read_parts(alloc, bytes)
}

// The parts of the text, one after another.
fn read_parts(alloc: Global, bytes: &[u8]) -> Result<Certificate, CertError>
    ensures spelled { IfOk result (λ certificate. bytes.now ≡ spelling certificate) }
    ensures limits { IfOk result IsWithinLimits }
    ensures words { IfOk result HoldsWords }
    ensures refused { IfErr result (IsCauseOf bytes.now) }
{
    let mut rest = TextRest::new(bytes);
    let head = read_head(&mut rest)?;
    let functions = read_functions(alloc, &mut rest, head.functions)?;
    let number = FIRST_FUNCTION_LINE + head.functions;
    let Some(sites) = rest.number_line(b"sites ", MOST_SITES) else {
        return Err(CertError::Line { number });
    };
    let facts = read_sites(alloc, &mut rest, sites, number + 1)?;
    if !rest.is_over() {
        let number = number + 1 + sites;
        return Err(CertError::Line { number });
    }
    Ok(Certificate {
        chunk: head.chunk,
        max_path: head.max_path,
        functions: FunctionFacts::new(functions),
        sites: SiteFacts::new(facts),
    })
}

// The numbers in the first lines.
#[derive(Clone, Copy)]
struct Head {
    chunk: u32,
    max_path: u32,
    functions: u32,
}

// The lines before those of the functions.
fn read_head(rest: &mut TextRest) -> Result<Head, CertError>
    ensures found { IfOk result (λ head. (head.chunk < 2 ^ 32) × (head.max_path < 2 ^ 32) × (head.functions ≤ 4096)
        × (rest.old ≡ ended_lines (head_lines head) ++ rest.new)) }
    ensures refused { IfErr result (BreaksIn Title rest.old 1) }
{
    if !read_title(rest) {
        return Err(CertError::Line { number: 1 });
    }
    let Some(chunk) = rest.number_line(b"chunk ", u32::MAX) else {
        return Err(CertError::Line { number: 2 });
    };
    let Some(max_path) = rest.number_line(b"max-path ", u32::MAX) else {
        return Err(CertError::Line { number: 3 });
    };
    let Some(functions) = rest.number_line(b"functions ", MOST_FUNCTIONS) else {
        return Err(CertError::Line { number: 4 });
    };
    Ok(Head {
        chunk,
        max_path,
        functions,
    })
}

// Reads the first line, and returns whether it was right.
fn read_title(rest: &mut TextRest) -> bool
    ensures { MatchBool result (rest.old ≡ title_line ++ 10 ∷ rest.new) ((more : List ℕ) → rest.old ≡ title_line ++ 10 ∷ more → ⊥) }
{
    match rest.next_line() {
        Some(line) => is_same(line, b"capriccio certificate 1"),
        None => false,
    }
}

// The lines of this number of functions.
fn read_functions(
    alloc: Global,
    rest: &mut TextRest,
    count: u32,
) -> Result<Vec<FunctionFact>, CertError>
    requires { count ≤ 4096 }
    ensures found { IfOk result (λ facts. (length facts.items ≡ count) × AllByRecursion HasFewPlaces facts.items
        × AllByRecursion HoldsFunctionWords facts.items × (rest.old ≡ ended_lines (map function_line facts.items) ++ rest.new)) }
    ensures refused { IfErr result (BreaksIn (Functions count) rest.old 5) }
{
    let mut facts = Vec::new(alloc);
    for number in FIRST_FUNCTION_LINE..FIRST_FUNCTION_LINE + count {
        let Some(line) = rest.next_line() else {
            return Err(CertError::Line { number });
        };
        let Some(fact) = read_function(alloc, line)? else {
            return Err(CertError::Line { number });
        };
        facts.push(fact)?;
    }
    Ok(facts)
}

// The lines of this number of sites, from the line with this number on.
fn read_sites(
    alloc: Global,
    rest: &mut TextRest,
    count: u32,
    first: u32,
) -> Result<Vec<SiteFact>, CertError>
    requires count { count ≤ 65535 }
    requires first { first ≤ 5000 }
    ensures found { IfOk result (λ facts. (length facts.items ≡ count) × Rises None facts.items
        × AllByRecursion HoldsSiteWords facts.items × (rest.old ≡ ended_lines (map site_line facts.items) ++ rest.new)) }
    ensures refused { IfErr result (BreaksIn (Sites count None) rest.old first) }
{
    let mut facts: Vec<SiteFact> = Vec::new(alloc);
    let mut last = None;
    for number in first..first + count {
        let Some(line) = rest.next_line() else {
            return Err(CertError::Line { number });
        };
        let Some(fact) = read_site(line, last) else {
            return Err(CertError::Line { number });
        };
        last = Some(fact.number);
        facts.push(fact)?;
    }
    Ok(facts)
}
