// Reading a line.
ghost use Rattle.std.specs.Prelude.{◌≡◌, IfSome, IfNone, IfOk, OnErr, codes};
ghost use Rattle.schedule_log.specs.declared.entries.Entry.{Entry};
ghost use Rattle.schedule_log.specs.EntryRanges.{FitsEntry, IsLogLine};
ghost use Rattle.schedule_log.specs.EntryText.{entry_text};
ghost use Rattle.schedule_log.specs.Readings.{SpellsEntry, SpellsNoEntry};

use crate::Entry;
use crate::lists::{read_averages, read_key};
use crate::parts::{clock_and_item, is_same, last_word, read_segment, read_stop, word_and_signed};
use cap_text::Fields;
use thiserror::Error;

/// Why bytes aren't a line of the log.
#[derive(Clone, Copy, Debug, PartialEq, Eq, Error)]
pub enum LogError {
    /// They aren't the text of an entry.
    #[error("the line is not that of a log")]
    Line,
}

/// Returns the entry with the text `line`, which has no line feed. It doesn't allocate.
///
/// # Errors
///
/// `Line` exactly if no entry has this text.
#[inline(always)]
pub fn read_entry(line: &[u8]) -> Result<Entry, LogError>
    ensures read { IfOk result (λ entry. FitsEntry entry × (entry_text entry ≡ line.now)) }
    ensures refused { OnErr result (¬ IsLogLine line.now) }
    ensures back { (entry : Entry) → FitsEntry entry → entry_text entry ≡ line.now → result ≡ Ok entry }
{
    entry_of(line).ok_or(LogError::Line)
}

#[inline(always)]
fn entry_of(line: &[u8]) -> Option<Entry>
    ensures found { IfSome result (λ entry. FitsEntry entry × (entry_text entry ≡ line.now)) }
    ensures none { IfNone result (¬ IsLogLine line.now) }
{
    let mut fields = Fields::new(line, b' ');
    let word = fields.next()?;
    read_line(word, &mut fields)
}

#[inline(always)]
fn read_line(word: &[u8], fields: &mut Fields) -> Option<Entry>
    ensures found { IfSome result (SpellsEntry word.now fields.old) }
    ensures none { IfNone result (SpellsNoEntry word.now fields.old) }
{
    if is_same(word, b"run") {
        read_run(fields)
    } else if is_same(word, b"out") {
        let (thread, value) = word_and_signed(fields)?;
        Some(Entry::Out { thread, value })
    } else if is_same(word, b"block") {
        read_block(fields)
    } else if is_same(word, b"end") {
        read_end(fields)
    } else {
        read_rare(word, fields)
    }
}

// A line other than `run`, `out`, `block` and `end`.
#[inline(always)]
fn read_rare(word: &[u8], fields: &mut Fields) -> Option<Entry>
    requires run { word.now ≡ codes "run" → ⊥ }
    requires out { word.now ≡ codes "out" → ⊥ }
    requires block { word.now ≡ codes "block" → ⊥ }
    requires end { word.now ≡ codes "end" → ⊥ }
    ensures found { IfSome result (SpellsEntry word.now fields.old) }
    ensures none { IfNone result (SpellsNoEntry word.now fields.old) }
{
    if is_same(word, b"event") {
        let (clock, item) = clock_and_item(fields)?;
        Some(Entry::Event { clock, item })
    } else if is_same(word, b"drop") {
        let (clock, item) = clock_and_item(fields)?;
        Some(Entry::Dropped { clock, item })
    } else if is_same(word, b"edge") {
        read_edge(fields)
    } else if is_same(word, b"stop") {
        let stop = read_stop(fields)?;
        Some(Entry::Stop(stop))
    } else {
        None
    }
}

#[inline(always)]
fn read_run(fields: &mut Fields) -> Option<Entry>
    ensures found { IfSome result (SpellsEntry (codes "run") fields.old) }
    ensures none { IfNone result (SpellsNoEntry (codes "run") fields.old) }
{
    let clock = fields.count()?;
    let thread = fields.word()?;
    let node = last_word(fields)?;
    Some(Entry::Run {
        clock,
        thread,
        node,
    })
}

#[inline(always)]
fn read_block(fields: &mut Fields) -> Option<Entry>
    ensures found { IfSome result (SpellsEntry (codes "block") fields.old) }
    ensures none { IfNone result (SpellsNoEntry (codes "block") fields.old) }
{
    let thread = fields.word()?;
    let node = fields.word()?;
    let sites = fields.next()?;
    let key = read_key(sites)?;
    let (cost, free) = read_segment(fields)?;
    Some(Entry::Block {
        thread,
        node,
        key,
        cost,
        free,
    })
}

#[inline(always)]
fn read_end(fields: &mut Fields) -> Option<Entry>
    ensures found { IfSome result (SpellsEntry (codes "end") fields.old) }
    ensures none { IfNone result (SpellsNoEntry (codes "end") fields.old) }
{
    let thread = fields.word()?;
    let (cost, free) = read_segment(fields)?;
    Some(Entry::End { thread, cost, free })
}

#[inline(never)]
fn read_edge(fields: &mut Fields) -> Option<Entry>
    ensures found { IfSome result (SpellsEntry (codes "edge") fields.old) }
    ensures none { IfNone result (SpellsNoEntry (codes "edge") fields.old) }
{
    let from = fields.word()?;
    let to = fields.word()?;
    let count = fields.count()?;
    let cost = fields.wide()?;
    let changes = read_averages(fields)?;
    Some(Entry::Edge {
        from,
        to,
        count,
        cost,
        changes,
    })
}
