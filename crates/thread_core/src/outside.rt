ghost use Rattle.std.specs.Prelude.{◌≡◌, ◌^◌, ◌≤◌, None};
ghost use Rattle.thread_core.specs.Making.{IsEventInRange, after_event, delivery_answer, after_wait};

use crate::world::World;
use event_trace::{Event, EventKind};

/// What `deliver` did with an event.
#[derive(Clone, Copy, Debug, PartialEq, Eq)]
pub enum Delivered {
    /// It joined its queue.
    Queued,
    /// Its queue was full.
    Dropped,
}

impl World {
    /// Delivers an event: it joins its queue, or is dropped exactly if that queue is full. No segment is in progress,
    /// and the channel of a message is below 64.
    pub fn deliver(&mut self, event: Event) -> Delivered
        requires between { self.old.machine.running ≡ None }
        requires in_range { IsEventInRange event.kind }
        ensures answer { result ≡ delivery_answer self.old event.kind }
        ensures after { self.new ≡ after_event self.old event.kind }
    {
        let queued = match event.kind {
            EventKind::Arrive { value } => self.state.exchange.arrive(word(value)),
            EventKind::Message { channel, value } => self.state.exchange.send(channel, word(value)),
        };
        if queued {
            Delivered::Queued
        } else {
            Delivered::Dropped
        }
    }

    /// Advances the clock to a time, which isn't past and is at most 2^63. No segment is in progress.
    pub fn advance(&mut self, to: u64)
        requires between { self.old.machine.running ≡ None }
        requires later { self.old.machine.clock ≤ to }
        requires possible { to ≤ 2 ^ 63 }
        ensures { self.new ≡ after_wait self.old to }
    {
        self.state.waits.advance(to);
    }
}

// Returns the same word. The caller of a function knows that the answer is a word.
fn word(value: u32) -> u32
    ensures { result ≡ value }
{
    value
}
