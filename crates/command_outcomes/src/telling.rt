// Writes texts and lines to sinks.
ghost use Rattle.std.specs.Prelude.{◌≢◌, []};
ghost use Rattle.command_outcomes.specs.Done.{IsTold};
ghost use Rattle.command_outcomes.specs.Steps.{IsPrinted};

use crate::faults::Fault;
use crate::stops::Stop;
use cap_io::{Sink, SinkError, put_all};

/// Writes a text to the output, and returns the status that belongs to it.
pub fn print<K: Sink>(out: &mut K, text: &[u8], status: u8) -> Result<u8, Stop>
    ensures { IsPrinted status text.now (K.taken out.old) (K.taken out.new) (K.faults out.old)
        (K.faults out.new) result }
{
    match put_all(out, text) {
        Ok(()) => Ok(status),
        Err(SinkError::Failed) => Err(Stop::Failed(Fault::Write)),
        Err(SinkError::Memory) => Err(Stop::Failed(Fault::Memory)),
    }
}

/// Writes a line to standard error, and returns the status: the given one, or that of out of memory.
pub fn tell<E: Sink>(err: &mut E, line: &[u8], status: u8) -> u8
    requires { line.now ≢ [] }
    ensures { IsTold status line.now (E.taken err.old) (E.taken err.new) (E.faults err.old)
        (E.faults err.new) result }
{
    match put_all(err, line) {
        Ok(()) => status,
        Err(SinkError::Failed) => status,
        Err(SinkError::Memory) => Fault::Memory.status(),
    }
}
