// Choice points: events, the clock, and the stops.
ghost use Rattle.std.specs.Prelude.{◌≡◌, ◌↔◌, ℕ, List, Option, OnOk, IfOk, IsTrue, false};
ghost use Rattle.choice_rules.specs.Clock.{is_due};
ghost use Rattle.choice_rules.specs.Deliveries as rules;
ghost use Rattle.choice_rules.specs.Trace.{Trace};
ghost use Rattle.lawful_reading.specs.Given.{Given};
ghost use Rattle.lawful_reading.specs.State.{State};
ghost use Rattle.schedule_reading.specs.Looks.{IsLookOf};

use crate::reading::{Next, Reading};
use crate::rulings::{Failure, Ruling, ruling_of};
use cap_io::Source;
use event_trace::{Event, EventKind, TraceError};
use resource_monitor::Measure;
use schedule_log::Item;

/// What is required at a choice point.
#[derive(Clone, Copy)]
pub enum Point {
    /// Every thread has ended.
    Done,
    /// The trace is over, and no thread will be ready again.
    Idle,
    /// The next line of the trace is refused.
    BadTrace {
        /// The number of the line, counted from 1.
        line: u64,
    },
    /// The next event is due.
    Comes {
        /// The event, as in the trace.
        event: Event,
    },
    /// A thread has to be chosen.
    Choice,
}

impl<C: Measure + Drop> Reading<'_, C> {
    ghost use Rattle.choice_rules.specs.Deliveries.{coming_entry};
    ghost use Rattle.schedule_reading.specs.Rulings.{CountsReads, GoesOnFrom, GoesOnSomehow, IsPoint, KeepsThreads, Rules, StandsBetween, StandsBetweenSomehow};
    ghost use Rattle.schedule_reading.specs.Stands.{IsLooked, IsTraceOf, Stands};
    ghost use Rattle.schedule_reading.specs.Told.{any_ready_in};
    ghost use Rattle.schedule_reading.specs.declared.reading.End.TheVariants.{NotYet};
    ghost use Rattle.schedule_reading.specs.declared.reading.Next.TheVariants.{Unread};

    /// Returns what is required at this choice point. The clock advances if it has to.
    pub fn point<S: Source>(&mut self, trace: &mut S) -> Result<Point, Failure>
        requires { StandsBetweenSomehow self.old }
        ensures is { (g : Given) (state : State) → StandsBetween g state self.old → IfOk result (IsPoint g state self.old (S.left trace.old) self.new (S.left trace.new)) }
        ensures counts { CountsReads result (S.faults trace.old) (S.faults trace.new) }
        ensures keeps { self.new ≡ record self.old { core = record self.old.core { threads = self.new.core.threads }; reader = self.new.reader; next = self.new.next } }
    {
        if self.threads.live() == 0 {
            return Ok(Point::Done);
        }
        match self.look(trace)? {
            Next::Unread => unreachable!(),
            Next::Refused(line) => Ok(Point::BadTrace { line }),
            Next::Over => Ok(self.point_before(None)),
            Next::Event(event) => Ok(self.point_before(Some(event))),
        }
    }

    /// Returns what is required if the next line of the trace isn't refused.
    fn point_before(&mut self, next: Option<Event>) -> Point
        requires { GoesOnSomehow self.old next }
        ensures is { (g : Given) (state : State) (told : Option (List ℕ)) → GoesOnFrom g state self.old next → IsPoint g state self.old told self.new told result }
        ensures keeps { KeepsThreads self.old self.new }
    {
        if let Some(event) = next {
            if event.time <= self.threads.clock() {
                return Point::Comes { event };
            }
        }
        if self.threads.any_ready() {
            return Point::Choice;
        }
        self.wait(next)
    }

    /// Returns what is required if no thread is ready and the next event isn't due: the clock advances to the next time
    /// at which something may happen.
    fn wait(&mut self, next: Option<Event>) -> Point
        requires goes { GoesOnSomehow self.old next }
        requires not_due { is_due next self.old.core.threads.waits.clock ≡ false }
        requires unready { any_ready_in self.old.core.threads ≡ false }
        ensures is { (g : Given) (state : State) (told : Option (List ℕ)) → GoesOnFrom g state self.old next → IsPoint g state self.old told self.new told result }
        ensures keeps { KeepsThreads self.old self.new }
    {
        match (next, self.threads.wake()) {
            (None, None) => Point::Idle,
            (None, Some(time)) => {
                self.threads.advance(time);
                Point::Choice
            }
            (Some(event), None) => {
                self.threads.advance(event.time);
                Point::Comes { event }
            }
            (Some(event), Some(time)) => {
                if event.time <= time {
                    self.threads.advance(event.time);
                    Point::Comes { event }
                } else {
                    self.threads.advance(time);
                    Point::Choice
                }
            }
        }
    }

    /// Examines the next line of the trace and returns what it is. The line stays until it is delivered.
    fn look<S: Source>(&mut self, trace: &mut S) -> Result<Next, Failure>
        requires { IsLooked self.old.reader self.old.next }
        ensures looks { (left : Trace) → IsTraceOf left self.old.reader self.old.next (S.left trace.old) → OnOk result (IsTraceOf left self.new.reader self.new.next (S.left trace.new)) }
        ensures looked { OnOk result (IsLooked self.new.reader self.new.next) }
        ensures is { IfOk result (λ next. (next ≡ self.new.next) × (next ≡ Unread → ⊥)) }
        ensures counts { CountsReads result (S.faults trace.old) (S.faults trace.new) }
        ensures keeps { self.new ≡ record self.old { reader = self.new.reader; next = self.new.next } }
    {
        if let Next::Unread = self.next {
            let answer = self.reader.next(trace);
            self.next = looked(answer)?;
        }
        Ok(self.next)
    }

    /// Judges a line `event` or `drop`.
    pub fn delivery<S: Source>(
        &mut self,
        trace: &mut S,
        clock: u64,
        item: Item,
        drops: bool,
    ) -> Result<Ruling, Failure>
        requires between { StandsBetweenSomehow self.old }
        requires before_end { self.old.end ≡ NotYet }
        ensures rules { (g : Given) (state : State) → Stands g state self.old → Rules g state self.old (coming_entry drops clock item) (S.left trace.old) self.new (S.left trace.new) result }
        ensures counts { CountsReads result (S.faults trace.old) (S.faults trace.new) }
    {
        match self.point(trace)? {
            Point::Comes { event } => {
                if clock != self.threads.clock() || !is_item_of(&item, event.kind) {
                    return Ok(Ruling::Refused);
                }
                self.next = Next::Unread;
                let queued = self.threads.deliver(event.kind);
                Ok(ruling_of(queued != drops))
            }
            _ => Ok(Ruling::Refused),
        }
    }
}

/// Returns the next line of the trace, from an answer of its reader.
fn looked(answer: Result<Option<Event>, TraceError>) -> Result<Next, Failure>
    ensures { IsLookOf answer result }
{
    match answer {
        Ok(None) => Ok(Next::Over),
        Ok(Some(event)) => Ok(Next::Event(event)),
        Err(TraceError::Line { number }) => Ok(Next::Refused(u64::from(number))),
        Err(TraceError::Order { number, .. }) => Ok(Next::Refused(u64::from(number))),
        Err(TraceError::ReadFault) => Err(Failure::Read),
    }
}

/// Checks whether a line's item is that of an event, with its words as signed numbers.
fn is_item_of(item: &Item, kind: EventKind) -> bool
    ensures { IsTrue result ↔ (item.now ≡ rules.item_of kind) }
{
    match (*item, kind) {
        (Item::Arrive { value }, EventKind::Arrive { value: word }) => {
            value == word.cast_signed()
        }
        (
            Item::Data { channel, value },
            EventKind::Message {
                channel: to,
                value: word,
            },
        ) => channel == to && value == word.cast_signed(),
        _ => false,
    }
}
