// The causes of stops: what is required at a choice point, or what the running thread does next.
ghost use Rattle.std.specs.Prelude.{◌≡◌, ◌↔◌, ◌+◌, ◌≤◌, IsTrue, OnOk};
ghost use Rattle.lawful_reading.specs.Given.{Given};
ghost use Rattle.lawful_reading.specs.State.{State};
ghost use Rattle.schedule_reading.specs.Ending.{Fits};

use crate::events::Happening;
use crate::points::Point;
use crate::reading::{Reading, Under};
use crate::rulings::{Failure, Ruling, ruling_of};
use cap_io::Source;
use resource_monitor::Measure;

/// A stop at a choice point.
#[derive(Clone, Copy)]
pub enum Between {
    /// Every thread has ended.
    Done,
    /// The trace is over, and no thread will be ready again.
    Idle,
    /// The line of the trace of this number is refused.
    Trace(u64),
}

impl<'a, C: Measure + Drop> Reading<'a, C> {
    ghost use Rattle.schedule_reading.specs.Closing.{WithinSomehow};
    ghost use Rattle.schedule_reading.specs.Ending.{RulesCrowd, RulesStop, stop_line};
    ghost use Rattle.schedule_reading.specs.Rulings.{CountsReads};
    ghost use Rattle.schedule_reading.specs.Stands.{IsTold, Stands, StandsSomehow, StandsWithin};
    ghost use Rattle.schedule_reading.specs.declared.reading.End.TheVariants.{Stopped};

    /// Returns the ruling on a stop at a choice point: it is allowed if this is what is required there.
    pub fn stop_between<S: Source>(
        &mut self,
        trace: &mut S,
        stop: Between,
    ) -> Result<Ruling, Failure>
        requires stands { StandsSomehow self.old }
        requires going { self.old.end ≡ Stopped → ⊥ }
        ensures rules { (g : Given) (state : State) → Stands g state self.old → RulesStop g state self.old (S.left trace.old) (stop_line stop) result }
        ensures counts { CountsReads result (S.faults trace.old) (S.faults trace.new) }
        ensures trace { (g : Given) (state : State) → Stands g state self.old → IsTold state self.old (S.left trace.old) → OnOk result (IsTold state self.new (S.left trace.new)) }
    {
        if self.under.is_some() {
            return Ok(Ruling::Refused);
        }
        let point = self.point(trace)?;
        Ok(ruling_of(is_stop_of(point, stop)))
    }

    /// Checks whether this further cost spends the whole fuel.
    pub fn is_spent(&self, cost: u64) -> bool
        requires { self.now.core.cost ≤ self.now.core.policy.fuel }
        ensures { IsTrue result ↔ (self.now.core.cost + cost ≡ self.now.core.policy.fuel) }
    {
        cost == self.policy.fuel - self.cost
    }

    /// Returns the ruling on a stop by too many threads: it is allowed if the thread next starts one while the maximum
    /// number is live. It needs the steps up to the start, without the start itself.
    pub fn crowd(&mut self, under: &mut Under<'a>) -> Result<Ruling, Failure>
        requires { WithinSomehow self.old.core under.old }
        ensures rules { (g : Given) (state : State) → StandsWithin g state self.old.core under.old → RulesCrowd g state result }
        ensures rest { self.new ≡ record self.old { core = self.new.core } }
    {
        let mut left = self.left + 1;
        match self.happen(under, &mut left, true)? {
            Happening::OutOfSteps => Ok(Ruling::OutOfSteps),
            Happening::IsCrowded => {
                self.left = left;
                Ok(Ruling::Allowed)
            }
            _ => Ok(if left == 0 {
                Ruling::OutOfSteps
            } else {
                Ruling::Refused
            }),
        }
    }
}

/// Checks whether what is required at a choice point is this stop.
fn is_stop_of(point: Point, stop: Between) -> bool
    ensures { IsTrue result ↔ Fits point stop }
{
    match (point, stop) {
        (Point::Done, Between::Done) => true,
        (Point::Idle, Between::Idle) => true,
        (Point::BadTrace { line }, Between::Trace(number)) => line == number,
        _ => false,
    }
}
