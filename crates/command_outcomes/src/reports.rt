// The end of a command that doesn't do what its words ask: the status, and the line on standard error.
ghost use Rattle.command_outcomes.specs.declared.stops.Stop.TheVariants.{Refused};
ghost use Rattle.command_outcomes.specs.Steps.{IsFinished};

use crate::cause_lines::line_of;
use crate::faults::Fault;
use crate::stops::{Cause, Stop};
use crate::telling::tell;
use cap_io::Sink;
use std::alloc::Global;

/// Writes to standard error why a command ended early, and returns the status.
pub fn finish<E: Sink>(alloc: Global, err: &mut E, stop: Stop) -> u8
    ensures { IsFinished stop (E.taken err.old) (E.taken err.new) (E.faults err.old)
        (E.faults err.new) result }
{
    match stop {
        Stop::Refused(cause) => tell_cause(alloc, err, &cause),
        Stop::Failed(fault) => tell(err, fault.line(), fault.status()),
    }
}

/// Writes the line of a refusal, and returns the status.
fn tell_cause<E: Sink>(alloc: Global, err: &mut E, cause: &Cause) -> u8
    ensures { IsFinished (Refused cause.now) (E.taken err.old) (E.taken err.new) (E.faults err.old)
        (E.faults err.new) result }
{
    match line_of(alloc, cause) {
        Ok(line) => tell(err, line.as_slice(), cause.status()),
        Err(_) => tell(err, Fault::Memory.line(), Fault::Memory.status()),
    }
}
