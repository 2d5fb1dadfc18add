// Reading the line of a function and the line of a site.
ghost use Rattle.std.specs.Prelude.{◌≡◌, ℕ, List, [], ◌∷◌, ◌++◌, ◌^◌, ◌<◌, ◌≤◌, IfSome, IfNone, IfOk, length, map};
ghost use Rattle.std.specs.Bool.{MatchBool};
ghost use Rattle.cap_text.specs.Decimals.{canonical_decimal};
ghost use Rattle.stack_certificate.specs.declared.functions.FunctionFact.{FunctionFact};
ghost use Rattle.stack_certificate.specs.declared.sites.LinkKind.{LinkKind};
ghost use Rattle.stack_certificate.specs.declared.sites.SiteFact.{SiteFact};
ghost use Rattle.certificate_text.specs.declared.fact_lines.FunctionHead.{FunctionHead};
ghost use Rattle.certificate_text.specs.Heads.{head_numbers};
ghost use Rattle.certificate_text.specs.Text.{function_line, function_numbers, site_line, kind_fields, HasFewPlaces, HoldsFunctionWords, HoldsSiteWords, HoldsKindWords, AreWords, IsAbove};

use cap_text::Fields;
use cap_word::Words;
use stack_certificate::{FunctionFact, LinkKind, SiteFact};
use std::alloc::{AllocError, Global};

/// The maximum number of places of a function.
const MOST_PLACES: usize = 4_096;

/// Returns the fact of the function that a line spells, if it spells one.
pub(crate) fn read_function(alloc: Global, line: &[u8]) -> Result<Option<FunctionFact>, AllocError>
    ensures found { IfOk result (λ read. IfSome read (λ fact.
        HasFewPlaces fact × HoldsFunctionWords fact × (line.now ≡ function_line fact))) }
    ensures none { IfOk result (λ read. IfNone read
        ((fact : FunctionFact) → HasFewPlaces fact → HoldsFunctionWords fact → line.now ≡ function_line fact → ⊥)) }
{
    let mut fields = Fields::new(line, b' ');
    let Some(word) = fields.next() else {
        return Ok(None);
    };
    if !is_same(word, b"function") {
        return Ok(None);
    }
    read_function_numbers(alloc, &mut fields)
}

// The numbers of a function's line before its places.
#[derive(Clone, Copy)]
struct FunctionHead {
    entry: u32,
    words: u32,
    frame: u32,
    ra: u32,
    bound: u32,
}

// The fact with the numbers in the remaining fields.
fn read_function_numbers(
    alloc: Global,
    fields: &mut Fields,
) -> Result<Option<FunctionFact>, AllocError>
    ensures found { IfOk result (λ read. IfSome read (λ fact.
        HasFewPlaces fact × HoldsFunctionWords fact × (fields.old ≡ map canonical_decimal (function_numbers fact)))) }
    ensures none { IfOk result (λ read. IfNone read
        ((fact : FunctionFact) → HasFewPlaces fact → HoldsFunctionWords fact → fields.old ≡ map canonical_decimal (function_numbers fact) → ⊥)) }
{
    let Some(head) = read_head(fields) else {
        return Ok(None);
    };
    let Some(places) = read_places(alloc, fields)? else {
        return Ok(None);
    };
    Ok(Some(FunctionFact {
        entry: head.entry,
        words: head.words,
        frame: head.frame,
        ra: head.ra,
        bound: head.bound,
        places,
    }))
}

// The numbers in the next five fields.
fn read_head(fields: &mut Fields) -> Option<FunctionHead>
    ensures found { IfSome result (λ head. AreWords (head_numbers head) × (fields.old ≡ map canonical_decimal (head_numbers head) ++ fields.new)) }
    ensures none { IfNone result ((head : FunctionHead) (rest : List (List ℕ)) → AreWords (head_numbers head)
        → fields.old ≡ map canonical_decimal (head_numbers head) ++ rest → ⊥) }
{
    let entry = fields.word()?;
    let words = fields.word()?;
    let frame = fields.word()?;
    let ra = fields.word()?;
    let bound = fields.word()?;
    Some(FunctionHead {
        entry,
        words,
        frame,
        ra,
        bound,
    })
}

// The places in all remaining fields, at most 4,096.
fn read_places(alloc: Global, fields: &mut Fields) -> Result<Option<Words>, AllocError>
    ensures found { IfOk result (λ read. IfSome read (λ places.
        (length places ≤ 4096) × AreWords places × (fields.old ≡ map canonical_decimal places))) }
    ensures none { IfOk result (λ read. IfNone read
        ((places : List ℕ) → length places ≤ 4096 → AreWords places → fields.old ≡ map canonical_decimal places → ⊥)) }
{
    let mut places = Vec::new(alloc);
    while !fields.is_over() {
        if places.len() == MOST_PLACES {
            return Ok(None);
        }
        let Some(place) = fields.word() else {
            return Ok(None);
        };
        places.push(place)?;
    }
    Ok(Some(Words::new(places)))
}

/// Returns the fact of the site that a line spells, if it spells one whose number is above the
/// last.
pub(crate) fn read_site(line: &[u8], last: Option<u32>) -> Option<SiteFact>
    ensures found { IfSome result (λ fact. IsAbove last fact.number × HoldsSiteWords fact × (line.now ≡ site_line fact)) }
    ensures none { IfNone result
        ((fact : SiteFact) → IsAbove last fact.number → HoldsSiteWords fact → line.now ≡ site_line fact → ⊥) }
{
    let mut fields = Fields::new(line, b' ');
    let word = fields.next()?;
    if !is_same(word, b"site") {
        return None;
    }
    let number = fields.word()?;
    if !is_above(last, number) {
        return None;
    }
    let kind = read_kind(&mut fields)?;
    Some(SiteFact { number, kind })
}

// Whether a number is above the last, if there is a last.
fn is_above(last: Option<u32>, number: u32) -> bool
    ensures { MatchBool result (IsAbove last number) (¬ IsAbove last number) }
{
    match last {
        None => true,
        Some(last) => last < number,
    }
}

// The link kind of a site, which all remaining fields spell.
fn read_kind(fields: &mut Fields) -> Option<LinkKind>
    ensures found { IfSome result (λ kind. HoldsKindWords kind × (fields.old ≡ kind_fields kind)) }
    ensures none { IfNone result ((kind : LinkKind) → HoldsKindWords kind → fields.old ≡ kind_fields kind → ⊥) }
{
    let word = fields.next()?;
    if is_same(word, b"plain") {
        fields.end()?;
        Some(LinkKind::Plain)
    } else if is_same(word, b"linked") {
        let need = read_need(fields)?;
        Some(LinkKind::Linked { need })
    } else if is_same(word, b"spawn") {
        let need = read_need(fields)?;
        Some(LinkKind::Spawned { need })
    } else {
        None
    }
}

// A number in the last field of the line.
fn read_need(fields: &mut Fields) -> Option<u32>
    ensures found { IfSome result (λ n. (n < 2 ^ 32) × (fields.old ≡ canonical_decimal n ∷ [])) }
    ensures none { IfNone result ((n : ℕ) → n < 2 ^ 32 → fields.old ≡ canonical_decimal n ∷ [] → ⊥) }
{
    let need = fields.word()?;
    fields.end()?;
    Some(need)
}

/// Returns whether two texts are equal.
pub(crate) fn is_same(text: &[u8], other: &[u8]) -> bool
    ensures { MatchBool result (text.now ≡ other.now) (text.now ≡ other.now → ⊥) }
{
    text == other
}
