// A writer of a log.
ghost use Rattle.std.specs.Prelude.{◌≡◌, ◌≤◌, ◌∷◌, [], ◌++◌, length, OnOk, IfOk, IfSome, None, Err};
ghost use Rattle.std.specs.Io.KnownBytes.{Appends, append_known};
ghost use Rattle.cap_io.specs.Writes.{Puts};
ghost use Rattle.schedule_log.specs.EntryText.{entry_text};
ghost use Rattle.schedule_log.specs.Puts.{CountsPut};
ghost use Rattle.schedule_log.specs.Writing.{KeepsAnswer, TakesPrefix};

use crate::Entry;
use crate::writing::write_line;
use buffered_writer::{BufferedWriter, PutError};
use cap_io::Sink;
use std::alloc::{AllocError, Global};
use std::marker::Model;

/// Writes entries to a sink through a buffer of 4,096 bytes, which is flushed when it is full and at the end. Contracts
/// see the bytes in the buffer, which the sink hasn't taken yet, and the first refusal, if there was one.
#[derive(Drop)]
pub struct LogWriter {
    bytes: BufferedWriter,
}

impl Model for LogWriter {
    ghost use Rattle.schedule_log.specs.Writing.{WriterState};

    ghost Value = { WriterState };

    ghost view = { λ w. w.bytes };
}

impl LogWriter {
    /// Returns a writer with an empty buffer, which it allocates.
    pub fn new(alloc: Global) -> Result<LogWriter, AllocError>
        ensures { IfOk result (λ writer. writer ≡ record { held = []; refused = None }) }
    {
        Ok(LogWriter {
            bytes: BufferedWriter::new(alloc)?,
        })
    }

    /// Writes the line of `entry` and its line feed: the bytes that `out` took, followed by those in the buffer, grow
    /// by exactly these.
    ///
    /// # Errors
    ///
    /// `WriteFault` only if the count of faults of `out` rose in this call, or is at its maximum, or if it was the
    /// refusal before; `Memory` only if `out` was out of memory, or if it was the refusal before: the writer itself
    /// doesn't allocate. After either, `out` took a prefix of the buffer followed by the line, and each later call
    /// returns the same refusal, without a write. The buffer has at most 4,096 bytes.
    pub fn put<K: Sink>(&mut self, out: &mut K, entry: &Entry) -> Result<(), PutError>
        ensures again { IfSome self.old.refused (λ refusal. result ≡ Err refusal × self.new ≡ self.old × out.new ≡ out.old) }
        ensures grows { OnOk result (Appends (append_known (K.taken out.old) self.old.held)
            (append_known (K.taken out.new) self.new.held) (entry_text entry.now ++ 10 ∷ [])) }
        ensures prefix { TakesPrefix (K.taken out.old) (K.taken out.new)
            (self.old.held ++ (entry_text entry.now ++ 10 ∷ [])) }
        ensures kept { KeepsAnswer self.new result }
        ensures counts { self.old.refused ≡ None → CountsPut result (K.faults out.old) (K.faults out.new) }
        ensures never_falls { K.faults out.old ≤ K.faults out.new }
        ensures most { length self.new.held ≤ 4096 }
    {
        self.bytes.answer()?;
        write_line(&mut self.bytes, out, entry);
        self.bytes.answer()
    }

    /// Flushes the buffer at the end of the log.
    ///
    /// # Errors
    ///
    /// `WriteFault` only if the count of faults of `out` rose in this call, or is at its maximum, or if it was the
    /// refusal before; `Memory` only if `out` was out of memory, or if it was the refusal before: the writer itself
    /// doesn't allocate. After either, `out` took a prefix of the buffer, and nothing of it if `put` returned this
    /// refusal before.
    pub fn finish<K: Sink>(self, out: &mut K) -> Result<(), PutError>
        ensures again { IfSome self.refused (λ refusal. result ≡ Err refusal × out.new ≡ out.old) }
        ensures bytes { Puts (K.taken out.old) (K.taken out.new) self.held result }
        ensures counts { self.refused ≡ None → CountsPut result (K.faults out.old) (K.faults out.new) }
        ensures never_falls { K.faults out.old ≤ K.faults out.new }
    {
        self.bytes.finish(out)
    }
}
