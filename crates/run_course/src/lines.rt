// The lines of a log, through a buffered writer.
ghost use Rattle.std.specs.Prelude.{◌≡◌, ◌∷◌, [], ◌++◌, None, OnOk};
ghost use Rattle.run_course.specs.Counts.{CountsPart};
ghost use Rattle.run_course.specs.Lines.{put_failure};
ghost use Rattle.run_course.specs.Output.{PutsText, output_of};
ghost use Rattle.schedule_log.specs.EntryText.{entry_text};

use crate::ends::Failure;
use crate::fitting::line_fits;
use cap_io::Sink;
use schedule_log::{Entry, LogWriter, PutError};

/// Writes the line of an entry to the buffer, which is flushed to the sink when it is full.
pub fn write_line<K: Sink>(
    writer: &mut LogWriter,
    out: &mut K,
    entry: &Entry,
) -> Result<(), Failure>
    requires { writer.old.refused ≡ None }
    ensures bytes { PutsText (output_of writer.old (K.taken out.old))
        (output_of writer.new (K.taken out.new)) (entry_text entry.now ++ 10 ∷ []) result }
    ensures counts { CountsPart result (K.faults out.old) (K.faults out.new) }
    ensures unrefused { OnOk result (writer.new.refused ≡ None) }
{
    line_fits(entry);
    match writer.put(out, entry) {
        Ok(()) => Ok(()),
        Err(refusal) => Err(failure_of(refusal)),
    }
}

/// Returns the failure of a run whose log couldn't be written.
pub fn failure_of(refusal: PutError) -> Failure
    ensures { result ≡ put_failure refusal }
{
    match refusal {
        PutError::WriteFault => Failure::Write,
        PutError::Memory => Failure::Memory,
    }
}
