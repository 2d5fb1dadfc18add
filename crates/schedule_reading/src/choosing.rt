// The choice of a thread.
ghost use Rattle.std.specs.Prelude.{◌≡◌};
ghost use Rattle.lawful_reading.specs.Given.{Given};
ghost use Rattle.lawful_reading.specs.State.{State};

use crate::points::Point;
use crate::reading::{Reading, Under};
use crate::rulings::{Failure, Ruling};
use cap_io::Source;
use resource_monitor::Measure;

impl<C: Measure + Drop> Reading<'_, C> {
    ghost use Rattle.schedule_log.specs.declared.entries.Entry.{Entry};
    ghost use Rattle.schedule_reading.specs.Rulings.{Chooses, ChoosesSomehow, CountsReads, Rules, RulesChoice, StandsBetweenSomehow};
    ghost use Rattle.schedule_reading.specs.Stands.{Stands};
    ghost use Rattle.schedule_reading.specs.declared.reading.End.TheVariants.{NotYet};

    /// Judges a line `run`: it is allowed if it names the lawful choice, whose segment then begins.
    pub fn choice<S: Source>(
        &mut self,
        trace: &mut S,
        clock: u64,
        number: u32,
        node: u32,
    ) -> Result<Ruling, Failure>
        requires between { StandsBetweenSomehow self.old }
        requires before_end { self.old.end ≡ NotYet }
        ensures rules { (g : Given) (state : State) → Stands g state self.old → Rules g state self.old (Entry.Run clock number node) (S.left trace.old) self.new (S.left trace.new) result }
        ensures counts { CountsReads result (S.faults trace.old) (S.faults trace.new) }
    {
        let Point::Choice = self.point(trace)? else {
            return Ok(Ruling::Refused);
        };
        if clock != self.threads.clock() {
            return Ok(Ruling::Refused);
        }
        self.take(number, node)
    }

    /// Makes the lawful choice and begins its segment, unless the line names another one.
    fn take(&mut self, number: u32, node: u32) -> Result<Ruling, Failure>
        requires { ChoosesSomehow self.old.core }
        ensures rules { (g : Given) (state : State) → Chooses g state self.old.core → RulesChoice g state self.old.core number node self.new.core self.new.under result }
        ensures rest { self.new ≡ record self.old { core = self.new.core; under = self.new.under } }
    {
        let before = self.uses();
        self.monitor.observe(before);
        let taken = self
            .scheduler
            .take_choice(&self.graph, &self.monitor, &self.threads);
        let Some(choice) = taken else { unreachable!() };
        if choice.thread.number != number || choice.node != node {
            return Ok(Ruling::Refused);
        }
        let thread = self
            .threads
            .begin(&self.interpreter, &mut self.globals, choice.thread)?;
        self.under = Some(Under {
            choice,
            before,
            thread,
        });
        Ok(Ruling::Allowed)
    }
}
