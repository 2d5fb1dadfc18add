// Objects that provide bytes.
ghost use Rattle.std.specs.Prelude.{ℕ, ◌^◌, ◌<◌, ◌≤◌, List, Option};
ghost use Rattle.std.specs.Io.KnownBytes.{ReadConsumes};
ghost use Rattle.cap_io.specs.Reads.{FillsPrefix, CountsReads};

/// A call failed, and its object counted a fault.
#[derive(Clone, Copy, PartialEq, Eq)]
pub struct Failed;

/// An object that provides bytes in order, like an open file or a pipe.
///
/// `faults` is its count of faults, and `left` has the bytes that it will still provide, if it exposes them.
pub trait Source {
    ghost faults: { Self → ℕ };

    ghost left: { Self → Option (List ℕ) };

    /// Fills a prefix of `buf` with the next bytes and returns their number, as `std::io::Read::read` does; for a
    /// buffer that isn't empty, 0 means the end. The rest of `buf` is unchanged. It returns Failed only if the
    /// count of faults rose, or is at its maximum; then no byte is lost and `buf` is unchanged.
    fn read(&mut self, buf: &mut [u8]) -> Result<usize, Failed>
        ensures fills { FillsPrefix result buf.old buf.new }
        ensures bytes { ReadConsumes (left self.old) (left self.new) result buf.new }
        ensures counts { CountsReads result (faults self.old) (faults self.new) }
        ensures never_falls { faults self.old ≤ faults self.new }
        ensures fits { faults self.new < 2 ^ 64 };
}
