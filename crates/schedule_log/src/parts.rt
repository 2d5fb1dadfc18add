// Reading the parts of a line.
ghost use Rattle.std.specs.Prelude.{◌≡◌, ℕ, ℤ, List, [], ◌∷◌, ◌++◌, ◌^◌, ◌<◌, IfSome, IfNone, IfOk, OnErr, FitsSigned, codes};
ghost use Rattle.std.specs.Bool.{MatchBool};
ghost use Rattle.std.specs.Int.{w32};
ghost use Rattle.cap_text.specs.Decimals.{canonical_decimal, canonical_integer};
ghost use Rattle.cap_word.specs.declared.stops.Stop.{Stop};
ghost use Rattle.cap_word.specs.declared.traps.TrapKind.{TrapKind};
ghost use Rattle.schedule_log.specs.EntryRanges.{FitsItem};
ghost use Rattle.schedule_log.specs.EntryText.{cause_fields, item_fields, trap_field};
ghost use Rattle.schedule_log.specs.Readings.{SpellsItem, SpellsNoCut, SpellsNoItem, SpellsNoStop, SpellsStop};
ghost use Rattle.schedule_log.specs.declared.entries.Item.{Item};

use crate::{Item, StopLine};
use cap_text::Fields;
use cap_word::{Stop, TrapKind};

// Whether two texts are equal.
#[inline(always)]
pub fn is_same(text: &[u8], other: &[u8]) -> bool
    ensures { MatchBool result (text.now ≡ other.now) (text.now ≡ other.now → ⊥) }
{
    text == other
}

// A signed number at the end of the line.
#[inline(always)]
pub fn last_signed(fields: &mut Fields) -> Option<i32>
    ensures found { IfSome result (λ z. (fields.old ≡ canonical_integer z ∷ []) × FitsSigned w32 z) }
    ensures none { IfNone result ((z : ℤ) → FitsSigned w32 z → fields.old ≡ canonical_integer z ∷ [] → ⊥) }
{
    let value = fields.signed()?;
    fields.end()?;
    Some(value)
}

// A number of 64 bits at the end of the line.
pub fn last_count(fields: &mut Fields) -> Option<u64>
    ensures found { IfSome result (λ n. (fields.old ≡ canonical_decimal n ∷ []) × (n < 2 ^ 64)) }
    ensures none { IfNone result ((n : ℕ) → n < 2 ^ 64 → fields.old ≡ canonical_decimal n ∷ [] → ⊥) }
{
    let count = fields.count()?;
    fields.end()?;
    Some(count)
}

// A number of 32 bits at the end of the line.
#[inline(always)]
pub fn last_word(fields: &mut Fields) -> Option<u32>
    ensures found { IfSome result (λ n. (fields.old ≡ canonical_decimal n ∷ []) × (n < 2 ^ 32)) }
    ensures none { IfNone result ((n : ℕ) → n < 2 ^ 32 → fields.old ≡ canonical_decimal n ∷ [] → ⊥) }
{
    let word = fields.word()?;
    fields.end()?;
    Some(word)
}

// A number of 32 bits, and a signed one at the end of the line.
#[inline(always)]
pub fn word_and_signed(fields: &mut Fields) -> Option<(u32, i32)>
    ensures found { IfSome result (λ pair. (fields.old ≡ canonical_decimal pair.0 ∷ canonical_integer pair.1 ∷ [])
        × (pair.0 < 2 ^ 32) × FitsSigned w32 pair.1) }
    ensures none { IfNone result ((n : ℕ) (z : ℤ) → n < 2 ^ 32 → FitsSigned w32 z
        → fields.old ≡ canonical_decimal n ∷ canonical_integer z ∷ [] → ⊥) }
{
    let word = fields.word()?;
    let value = last_signed(fields)?;
    Some((word, value))
}

// The cost of a segment and the free chunks after it, at the end of the line.
#[inline(always)]
pub fn read_segment(fields: &mut Fields) -> Option<(u64, u32)>
    ensures found { IfSome result (λ pair. (fields.old ≡ canonical_decimal pair.0 ∷ canonical_decimal pair.1 ∷ [])
        × (pair.0 < 2 ^ 64) × (pair.1 < 2 ^ 32)) }
    ensures none { IfNone result ((cost free : ℕ) → cost < 2 ^ 64 → free < 2 ^ 32
        → fields.old ≡ canonical_decimal cost ∷ canonical_decimal free ∷ [] → ⊥) }
{
    let cost = fields.count()?;
    let free = last_word(fields)?;
    Some((cost, free))
}

// An item, at the end of the line.
#[inline(always)]
pub fn read_item(fields: &mut Fields) -> Option<Item>
    ensures found { IfSome result (SpellsItem fields.old) }
    ensures none { IfNone result (SpellsNoItem fields.old) }
{
    let word = fields.next()?;
    if is_same(word, b"arrive") {
        let value = last_signed(fields)?;
        Some(Item::Arrive { value })
    } else if is_same(word, b"data") {
        let (channel, value) = word_and_signed(fields)?;
        Some(Item::Data { channel, value })
    } else {
        None
    }
}

// A clock and an item, at the end of the line.
#[inline(always)]
pub fn clock_and_item(fields: &mut Fields) -> Option<(u64, Item)>
    ensures found { IfSome result (λ pair. (pair.0 < 2 ^ 64) × FitsItem pair.1
        × (fields.old ≡ canonical_decimal pair.0 ∷ item_fields pair.1)) }
    ensures none { IfNone result ((clock : ℕ) (item : Item) → clock < 2 ^ 64 → FitsItem item
        → fields.old ≡ canonical_decimal clock ∷ item_fields item → ⊥) }
{
    let clock = fields.count()?;
    let item = read_item(fields)?;
    Some((clock, item))
}

// The kind of a trap.
pub fn read_trap(fields: &mut Fields) -> Option<TrapKind>
    ensures found { IfSome result (λ kind. fields.old ≡ trap_field kind ∷ fields.new) }
    ensures none { IfNone result ((kind : TrapKind) (rest : List (List ℕ)) → fields.old ≡ trap_field kind ∷ rest → ⊥) }
{
    let word = fields.next()?;
    if is_same(word, b"index") {
        Some(TrapKind::Index)
    } else if is_same(word, b"table") {
        Some(TrapKind::Table)
    } else if is_same(word, b"resource") {
        Some(TrapKind::Resource)
    } else if is_same(word, b"channel") {
        Some(TrapKind::Channel)
    } else {
        None
    }
}

// The cut of a thread's segment that the word names, at the end of the line.
pub fn read_cut(word: &[u8], fields: &mut Fields) -> Option<StopLine>
    ensures found { IfSome result (SpellsStop (word.now ∷ fields.old)) }
    ensures none { IfNone result (SpellsNoCut (word.now ∷ fields.old)) }
{
    let thread = fields.word()?;
    let stop = read_cause(word, fields)?;
    let (cost, free) = read_segment(fields)?;
    Some(StopLine::Cut {
        thread,
        stop,
        cost,
        free,
    })
}

// Why a segment was cut off, by the word and the fields after the thread.
pub fn read_cause(word: &[u8], fields: &mut Fields) -> Option<Stop>
    ensures found { IfSome result (λ stop. (thread : ℕ)
        → word.now ∷ canonical_decimal thread ∷ fields.old ≡ cause_fields thread stop ++ fields.new) }
    ensures none { IfNone result ((stop : Stop) (thread : ℕ) (rest : List (List ℕ))
        → word.now ∷ canonical_decimal thread ∷ fields.old ≡ cause_fields thread stop ++ rest → ⊥) }
{
    if is_same(word, b"trap") {
        let kind = read_trap(fields)?;
        Some(Stop::Trap(kind))
    } else if is_same(word, b"nochunk") {
        Some(Stop::NoChunk)
    } else if is_same(word, b"fuel") {
        Some(Stop::Fuel)
    } else if is_same(word, b"threads") {
        Some(Stop::Threads)
    } else {
        None
    }
}

// Why the run stopped, at the end of the line.
#[inline(never)]
pub fn read_stop(fields: &mut Fields) -> Option<StopLine>
    ensures found { IfSome result (SpellsStop fields.old) }
    ensures none { IfNone result (SpellsNoStop fields.old) }
{
    let word = fields.next()?;
    if is_same(word, b"done") {
        fields.end()?;
        Some(StopLine::Done)
    } else if is_same(word, b"idle") {
        fields.end()?;
        Some(StopLine::Idle)
    } else if is_same(word, b"trace") {
        let line = last_count(fields)?;
        Some(StopLine::Trace { line })
    } else {
        read_cut(word, fields)
    }
}
