// Bytes copied to the front of a buffer.
ghost use Rattle.std.specs.Prelude.{◌≡◌, length, take, drop, min};

/// Copies the first bytes of `from` to the front of `to`, as many as fit, and returns their number.
pub(crate) fn copy_front(from: &[u8], to: &mut [u8]) -> usize
    ensures count { result ≡ min (length from.now) (length to.old) }
    ensures front { take result to.new ≡ take result from.now }
    ensures rest { drop result to.new ≡ drop result to.old }
    ensures len { length to.new ≡ length to.old }
{
    let count = from.len().min(to.len());
    to[..count].copy_from_slice(&from[..count]);
    count
}
