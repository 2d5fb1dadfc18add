// Objects that take bytes.
ghost use Rattle.std.specs.Prelude.{ℕ, ◌^◌, ◌<◌, ◌≤◌, List, length, IfOk, Option};
ghost use Rattle.std.specs.Io.KnownBytes.{WriteAppends};
ghost use Rattle.cap_io.specs.Writes.{CountsWrites};

use thiserror::Error;

/// Why a sink refused a piece: it counted a fault, or an allocation failed.
#[derive(Clone, Copy, Debug, PartialEq, Eq, Error)]
pub enum SinkError {
    #[error("a write failed")]
    Failed,
    #[error("out of memory")]
    Memory,
}

/// An object that takes bytes in order, like an open file or a pipe.
///
/// `faults` is its count of faults, and `taken` has the bytes that it took so far, if it exposes them.
pub trait Sink {
    ghost faults: { Self → ℕ };

    ghost taken: { Self → Option (List ℕ) };

    /// Takes a prefix of `piece` and returns its length, as `std::io::Write::write` does. If it returns 0 for a piece
    /// that isn't empty, or `SinkError::Failed`, the count of faults rose, or is at its maximum; otherwise the count
    /// is unchanged. After a refusal nothing is taken.
    fn write(&mut self, piece: &[u8]) -> Result<usize, SinkError>
        ensures bound { IfOk result (λ n. n ≤ length piece.now) }
        ensures bytes { WriteAppends (taken self.old) (taken self.new) result piece.now }
        ensures counts { CountsWrites result (length piece.now) (faults self.old) (faults self.new) }
        ensures never_falls { faults self.old ≤ faults self.new }
        ensures fits { faults self.new < 2 ^ 64 };
}
