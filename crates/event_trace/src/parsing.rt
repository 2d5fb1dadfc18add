// Parsing a line of a trace.
ghost use Rattle.std.specs.Prelude.{ℕ, ◌≤◌, MatchOption, IfSome, IfNone, length, codes};
ghost use Rattle.event_trace.specs.Lines.{SpellsOnly, HasNoEvent};
ghost use Rattle.event_trace.specs.LineFields.{FieldsSpell, FieldsSpellNone};

use super::{Event, EventKind};
use cap_text::Fields;

/// The latest time of an event.
const LATEST: u64 = 1_000_000_000_000_000;

/// The highest number of a channel.
const LAST_CHANNEL: u64 = 63;

/// Returns the event that a line of at most 64 bytes, without its LF, spells.
pub(crate) fn parse_line(line: &[u8]) -> Option<Event>
    requires { length line.now ≤ 64 }
    ensures { MatchOption result (HasNoEvent line.now) (λ event. SpellsOnly line.now event) }
{
    let mut fields = Fields::new(line, b' ');
    let word = fields.next()?;
    parse_fields(word, &mut fields)
}

/// Returns the event on a line that begins with this word, followed by these fields.
fn parse_fields(word: &[u8], fields: &mut Fields) -> Option<Event>
    ensures found { IfSome result (FieldsSpell word.now fields.old) }
    ensures none { IfNone result (FieldsSpellNone word.now fields.old) }
{
    if word == b"arrive".as_slice() {
        parse_arrive(fields)
    } else if word == b"data".as_slice() {
        parse_message(fields)
    } else {
        None
    }
}

/// Returns the request that the fields after `arrive` spell.
fn parse_arrive(fields: &mut Fields) -> Option<Event>
    ensures found { IfSome result (FieldsSpell (codes "arrive") fields.old) }
    ensures none { IfNone result (FieldsSpellNone (codes "arrive") fields.old) }
{
    let time = fields.number(LATEST)?;
    let value = fields.signed()?;
    fields.end()?;
    let kind = EventKind::Arrive {
        value: value.cast_unsigned(),
    };
    Some(Event { time, kind })
}

/// Returns the message that the fields after `data` spell.
fn parse_message(fields: &mut Fields) -> Option<Event>
    ensures found { IfSome result (FieldsSpell (codes "data") fields.old) }
    ensures none { IfNone result (FieldsSpellNone (codes "data") fields.old) }
{
    let time = fields.number(LATEST)?;
    let channel = fields.number(LAST_CHANNEL)?;
    let value = fields.signed()?;
    fields.end()?;
    let kind = EventKind::Message {
        channel: channel as u32,
        value: value.cast_unsigned(),
    };
    Some(Event { time, kind })
}
