// Reading the lists on a line: a key's sites and an edge's averages.
ghost use Rattle.std.specs.Prelude.{◌≡◌, ℕ, ℤ, List, IfSome, IfNone, map};
ghost use Rattle.cap_text.specs.Decimals.{canonical_decimal, canonical_integer};
ghost use Rattle.schedule_log.specs.EntryRanges.{FitsAverages, FitsKey};
ghost use Rattle.schedule_log.specs.EntryText.{key_field};

use crate::Averages;
use cap_text::Fields;
use cap_word::SiteKey;

// A key: one to eight sites separated by `<`.
pub fn read_key(field: &[u8]) -> Option<SiteKey>
    ensures found { IfSome result (λ key. FitsKey key × (field.now ≡ key_field key)) }
    ensures none { IfNone result ((key : List ℕ) → FitsKey key → field.now ≡ key_field key → ⊥) }
{
    let mut sites = Fields::new(field, b'<');
    read_sites(&mut sites)
}

// One to eight sites, in all remaining fields.
fn read_sites(fields: &mut Fields) -> Option<SiteKey>
    ensures found { IfSome result (λ key. FitsKey key × (fields.old ≡ map canonical_decimal key)) }
    ensures none { IfNone result ((key : List ℕ) → FitsKey key → fields.old ≡ map canonical_decimal key → ⊥) }
{
    let mut sites = [0; SiteKey::MOST];
    let mut count = 0;
    while !fields.is_over() {
        if count == SiteKey::MOST {
            return None;
        }
        sites[count] = fields.word()?;
        count += 1;
    }
    if count == 0 {
        return None;
    }
    Some(SiteKey::new(&sites[..count]))
}

// One to eight averages, at the end of the line.
pub fn read_averages(fields: &mut Fields) -> Option<Averages>
    ensures found { IfSome result (λ values. FitsAverages values × (fields.old ≡ map canonical_integer values)) }
    ensures none { IfNone result
        ((values : List ℤ) → FitsAverages values → fields.old ≡ map canonical_integer values → ⊥) }
{
    let mut values = [0; Averages::MOST];
    let mut count = 0;
    while !fields.is_over() {
        if count == Averages::MOST {
            return None;
        }
        values[count] = fields.wide()?;
        count += 1;
    }
    if count == 0 {
        return None;
    }
    Some(Averages::new(&values[..count]))
}
