ghost use Rattle.std.specs.Prelude.{◌≡◌, None};
ghost use Rattle.lawful_log.specs.Setup.{Setup};
ghost use Rattle.lawful_log.specs.State.{State};
ghost use Rattle.run_course.specs.Counts.{CountsLook};
ghost use Rattle.run_course.specs.Looks.{LooksAt, Nears};
ghost use Rattle.run_course.specs.Stands.{StandsBetween};
ghost use Rattle.run_course.specs.Rest.{BackTo};
ghost use Rattle.thread_core.specs.Worlds.{Held};

use crate::course::Course;
use crate::ends::Failure;
use cap_io::Source;
use event_trace::{Event, TraceError};
use resource_monitor::Measure;

/// The next line of the trace, if it has been examined.
#[derive(Clone, Copy)]
pub enum Next {
    /// It hasn't been examined.
    Unread,
    /// It is an event.
    Event(Event),
    /// There is none.
    Over,
}

/// The result of examining the next line of the trace.
#[derive(Clone, Copy)]
pub enum Looked {
    /// An event, or no line.
    Comes { event: Option<Event> },
    /// A refused line.
    Refused { line: u64 },
}

impl<C: Measure + Drop> Course<C> {
    /// Examines the next line of the trace and returns what it is. The line stays until it is delivered.
    pub fn look<S: Source>(&mut self, trace: &mut S) -> Result<Looked, Failure>
        requires unrefused { self.old.reader.refused ≡ None }
        ensures looks { BackTo (S.left trace.old) (S.left trace.new) (λ before left.
            (g : Setup) (state : State) (held : Held) → StandsBetween g state self.old held before →
            LooksAt g state before self.new held left result) }
        ensures rest { self.new ≡ record self.old {
          reader = self.new.reader;
          next = self.new.next;
        } }
        ensures nears { Nears self.old self.new result }
        ensures counts { CountsLook result (S.faults trace.old) (S.faults trace.new) }
    {
        match self.next {
            Next::Event(event) => Ok(Looked::Comes { event: Some(event) }),
            Next::Over => Ok(Looked::Comes { event: None }),
            Next::Unread => self.read(trace),
        }
    }

    /// Reads the next line.
    fn read<S: Source>(&mut self, trace: &mut S) -> Result<Looked, Failure>
        requires unrefused { self.old.reader.refused ≡ None }
        requires unread { self.old.next ≡ Next.Unread }
        ensures looks { BackTo (S.left trace.old) (S.left trace.new) (λ before left.
            (g : Setup) (state : State) (held : Held) → StandsBetween g state self.old held before →
            LooksAt g state before self.new held left result) }
        ensures rest { self.new ≡ record self.old {
          reader = self.new.reader;
          next = self.new.next;
        } }
        ensures nears { Nears self.old self.new result }
        ensures counts { CountsLook result (S.faults trace.old) (S.faults trace.new) }
    {
        match self.reader.next(trace) {
            Ok(None) => {
                self.next = Next::Over;
                Ok(Looked::Comes { event: None })
            }
            Ok(Some(event)) => {
                self.next = Next::Event(event);
                Ok(Looked::Comes { event: Some(event) })
            }
            Err(TraceError::Line { number }) => Ok(Looked::Refused {
                line: u64::from(number),
            }),
            Err(TraceError::Order { number, .. }) => Ok(Looked::Refused {
                line: u64::from(number),
            }),
            Err(TraceError::ReadFault) => Err(Failure::Read),
        }
    }
}
