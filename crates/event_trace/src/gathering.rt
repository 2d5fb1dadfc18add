// Reading a line from a source byte by byte.
ghost use Rattle.std.specs.Prelude.{◌≡◌, ◌≤◌, IfOk, Ok, vec_len, vec_capacity};
ghost use Rattle.std.specs.Io.KnownBytes.{prepend_known};
ghost use Rattle.event_trace.specs.Gathering.{Gathers, LeavesTail, IsShort, KeepsAtEnd, CountsFaults};
ghost use Rattle.event_trace.specs.Lines.{HasWholeLine};

use crate::blocks::Block;
use cap_io::{Failed, Source};

/// The maximum number of bytes of a line, without its LF.
pub(crate) const MOST_BYTES: usize = 64;

/// How a line ended.
#[derive(Clone, Copy)]
pub(crate) enum Ending {
    /// With its LF, or with the end of the trace after at least one byte.
    Line,
    /// There is no line: the trace has ended.
    End,
    /// It has more than 64 bytes.
    TooLong,
}

/// Reads the next line of the buffered bytes followed by those of the source, without its LF, into `line`, and
/// replaces the old contents; it uses only the capacity of `line`. It doesn't read from the source if a whole line
/// is buffered.
pub(crate) fn read_line<S: Source>(
    line: &mut Vec<u8>,
    block: &mut Block,
    source: &mut S,
) -> Result<Ending, Failed>
    requires { 64 ≤ vec_capacity line.old }
    ensures room { 64 ≤ vec_capacity line.new }
    ensures short { IfOk result (λ ending. IsShort ending line.new.items) }
    ensures told { Gathers (prepend_known block.old (S.left source.old)) (prepend_known block.new (S.left source.new))
        line.new.items result }
    ensures end { IfOk result (λ ending. KeepsAtEnd ending block.old block.new) }
    ensures idle { HasWholeLine block.old → source.new ≡ source.old }
    ensures tail { LeavesTail (S.left source.old) (S.left source.new) }
    ensures counts { CountsFaults result (S.faults source.old) (S.faults source.new) }
    ensures never_falls { S.faults source.old ≤ S.faults source.new }
{
    line.clear();
    loop {
        let Some(byte) = block.next_byte(source)? else {
            return Ok(if line.is_empty() {
                Ending::End
            } else {
                Ending::Line
            });
        };
        if byte == b'\n' {
            return Ok(Ending::Line);
        }
        if line.len() == MOST_BYTES {
            return Ok(Ending::TooLong);
        }
        line.push_reserved(byte);
    }
}
