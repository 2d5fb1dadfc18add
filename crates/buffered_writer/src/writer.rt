// The buffer, and writing through it.
ghost use Rattle.std.specs.Prelude.{◌≡◌, ◌≤◌, ◌<◌, ◌∷◌, [], ◌++◌, length, true, false, IfOk, IfSome, IsSome, None, Err};
ghost use Rattle.cap_io.specs.Writes.{Puts};
ghost use Rattle.buffered_writer.specs.Puts.{CountsPut};
ghost use Rattle.buffered_writer.specs.Writing.{KeepsAnswer, Writes, log_state};

use cap_io::{Sink, SinkError, put_all};
use std::alloc::{AllocError, Global};
use std::marker::Model;
use thiserror::Error;

/// The maximum number of bytes in the buffer.
const BUFFER_BYTES: usize = 4096;

/// Why bytes weren't written.
#[derive(Clone, Copy, Debug, PartialEq, Eq, Error)]
pub enum PutError {
    /// A write failed: the sink counted a fault.
    #[error("a write failed")]
    WriteFault,
    /// An allocation failed, here or in the sink.
    #[error("out of memory")]
    Memory,
}

/// Writes bytes to a sink through a buffer of 4,096 bytes, which is flushed when it is full and at the end. Contracts
/// see the bytes in the buffer, which the sink hasn't taken yet, and the first refusal, if there was one.
#[derive(Drop)]
pub struct BufferedWriter {
    held: Vec<u8>,
    refused: Option<PutError>,
}

impl Model for BufferedWriter {
    ghost use Rattle.std.specs.Prelude.{◌≤◌, vec_len, vec_capacity};
    ghost use Rattle.buffered_writer.specs.Writing.{WriterState};

    ghost Value = { WriterState };

    ghost view = { λ w. record { held = w.held.items; refused = w.refused } };

    ghost invariant = { λ w. (vec_len w.held ≤ 4096) × (4096 ≤ vec_capacity w.held) };
}

impl BufferedWriter {
    /// Returns a writer with an empty buffer, which it allocates.
    pub fn new(alloc: Global) -> Result<BufferedWriter, AllocError>
        ensures { IfOk result (λ writer. writer ≡ record { held = []; refused = None }) }
    {
        Ok(BufferedWriter {
            held: Vec::with_capacity(alloc, BUFFER_BYTES)?,
            refused: None,
        })
    }

    /// Writes these bytes, unless there was a refusal: the bytes that `out` took, followed by those in the buffer, grow
    /// by exactly these. It doesn't allocate.
    ///
    /// A refusal is kept, and `answer` returns it: `WriteFault` only if the count of faults of `out` rose in this call,
    /// or is at its maximum; `Memory` only if `out` was out of memory. Then `out` took a prefix of the buffer followed
    /// by the bytes.
    pub fn write<K: Sink>(&mut self, out: &mut K, bytes: &[u8])
        ensures { Writes (log_state self.old (K.taken out.old) (K.faults out.old))
            (log_state self.new (K.taken out.new) (K.faults out.new)) bytes.now }
    {
        for byte in bytes {
            self.write_byte(out, *byte);
        }
    }

    /// Writes one byte, like `write`.
    pub fn write_byte<K: Sink>(&mut self, out: &mut K, byte: u8)
        ensures { Writes (log_state self.old (K.taken out.old) (K.faults out.old))
            (log_state self.new (K.taken out.new) (K.faults out.new)) (byte ∷ []) }
    {
        self.make_room(out);
        self.hold(byte);
    }

    /// Returns the first refusal, if there was one.
    pub fn answer(&self) -> Result<(), PutError>
        ensures kept { KeepsAnswer self.now result }
        ensures most { length self.now.held ≤ 4096 }
    {
        match self.refused {
            None => Ok(()),
            Some(refusal) => Err(refusal),
        }
    }

    /// Flushes the buffer at the end of the text.
    ///
    /// # Errors
    ///
    /// `WriteFault` only if the count of faults of `out` rose in this call, or is at its maximum, or if it was the
    /// refusal before; `Memory` only if `out` was out of memory, or if it was the refusal before: the writer itself
    /// doesn't allocate. After either, `out` took a prefix of the buffer, and nothing of it if there was a refusal
    /// before.
    pub fn finish<K: Sink>(self, out: &mut K) -> Result<(), PutError>
        ensures again { IfSome self.refused (λ refusal. result ≡ Err refusal × out.new ≡ out.old) }
        ensures bytes { Puts (K.taken out.old) (K.taken out.new) self.held result }
        ensures counts { self.refused ≡ None → CountsPut result (K.faults out.old) (K.faults out.new) }
        ensures never_falls { K.faults out.old ≤ K.faults out.new }
    {
        match self.refused {
            Some(earlier) => Err(earlier),
            None => send(out, &self.held),
        }
    }

    /// Makes room for a byte, unless there was a refusal.
    fn make_room<K: Sink>(&mut self, out: &mut K)
        ensures bytes { Writes (log_state self.old (K.taken out.old) (K.faults out.old))
            (log_state self.new (K.taken out.new) (K.faults out.new)) [] }
        ensures room { self.new.refused ≡ None → length self.new.held < 4096 }
    {
        if self.is_full() {
            self.flush(out);
        }
    }

    /// Returns whether the buffer is full and there was no refusal.
    fn is_full(&self) -> bool
        ensures room { result ≡ false → self.now.refused ≡ None → length self.now.held < 4096 }
        ensures unrefused { result ≡ true → self.now.refused ≡ None }
    {
        self.refused.is_none() && self.held.len() == BUFFER_BYTES
    }

    /// Appends one byte to the buffer, unless there was a refusal.
    fn hold(&mut self, byte: u8)
        requires { self.old.refused ≡ None → length self.old.held < 4096 }
        ensures refused { self.new.refused ≡ self.old.refused }
        ensures more { self.old.refused ≡ None → self.new.held ≡ self.old.held ++ byte ∷ [] }
        ensures stays { IsSome self.old.refused → self.new ≡ self.old }
    {
        if self.refused.is_none() {
            self.held.push_reserved(byte);
        }
    }

    /// Writes the buffer to the sink, and empties it if the sink took all of it.
    fn flush<K: Sink>(&mut self, out: &mut K)
        requires { self.old.refused ≡ None }
        ensures bytes { Writes (log_state self.old (K.taken out.old) (K.faults out.old))
            (log_state self.new (K.taken out.new) (K.faults out.new)) [] }
        ensures empty { self.new.refused ≡ None → self.new.held ≡ [] }
    {
        match send(out, &self.held) {
            Ok(()) => self.held.clear(),
            Err(refusal) => self.refused = Some(refusal),
        }
    }
}

/// Writes these bytes to the sink.
fn send<K: Sink>(out: &mut K, bytes: &[u8]) -> Result<(), PutError>
    ensures bytes { Puts (K.taken out.old) (K.taken out.new) bytes.now result }
    ensures counts { CountsPut result (K.faults out.old) (K.faults out.new) }
    ensures never_falls { K.faults out.old ≤ K.faults out.new }
{
    match put_all(out, bytes) {
        Ok(()) => Ok(()),
        Err(SinkError::Failed) => Err(PutError::WriteFault),
        Err(SinkError::Memory) => Err(PutError::Memory),
    }
}
