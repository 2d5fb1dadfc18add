// Writing a whole piece.
ghost use Rattle.std.specs.Prelude.{◌≤◌};
ghost use Rattle.cap_io.specs.Writes.{Puts, CountsPuts};

use super::{Sink, SinkError};

/// Writes all of `piece`, with several calls of `write` if necessary.
///
/// # Errors
///
/// The refusal of the sink; or Failed if `write` returns 0 while bytes are left. So Failed is returned only if the
/// sink's count of faults rose, or is at its maximum; otherwise the count is unchanged. After a refusal a prefix of the
/// piece was taken.
pub fn put_all<K: Sink>(out: &mut K, piece: &[u8]) -> Result<(), SinkError>
    ensures bytes { Puts (K.taken out.old) (K.taken out.new) piece.now result }
    ensures counts { CountsPuts result (K.faults out.old) (K.faults out.new) }
    ensures never_falls { K.faults out.old ≤ K.faults out.new }
{
    let mut rest = piece;
    while !rest.is_empty() {
        match out.write(rest)? {
            0 => return Err(SinkError::Failed),
            taken => rest = &rest[taken..],
        }
    }
    Ok(())
}
