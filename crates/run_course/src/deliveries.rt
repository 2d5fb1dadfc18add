ghost use Rattle.std.specs.Prelude.{◌≡◌};
ghost use Rattle.cap_word.specs.Word.{signed};
ghost use Rattle.choice_rules.specs.Deliveries as rules;
ghost use Rattle.run_course.specs.Lines.{coming_line};

use event_trace::EventKind;
use schedule_log::{Entry, Item};
use thread_core::Delivered;

/// Returns the line of an event at that clock.
pub(crate) fn coming_entry(clock: u64, kind: EventKind, delivered: Delivered) -> Entry
    ensures { result ≡ coming_line clock kind delivered }
{
    let item = item_of(kind);
    match delivered {
        Delivered::Queued => Entry::Event { clock, item },
        Delivered::Dropped => Entry::Dropped { clock, item },
    }
}

fn item_of(kind: EventKind) -> Item
    ensures { result ≡ rules.item_of kind }
{
    match kind {
        EventKind::Arrive { value } => Item::Arrive {
            value: signed_word(value),
        },
        EventKind::Message { channel, value } => Item::Data {
            channel,
            value: signed_word(value),
        },
    }
}

/// Returns the word as a signed number.
pub(crate) fn signed_word(value: u32) -> i32
    ensures { result ≡ signed value }
{
    value.cast_signed()
}
