// Writing a number.
ghost use Rattle.std.specs.Prelude.{◌≡◌, ◌+◌, ◌<◌, ◌≤◌, ◌++◌, length, vec_len, vec_capacity, OnOk, OnErr};
ghost use Rattle.cap_text.specs.Decimals.{canonical_integer};

use itoa::Buffer;
use std::alloc::AllocError;

/// Appends the canonical decimal of `value` to `out`: its digits in base ten, after a `-` if it is negative.
///
/// # Errors
///
/// `AllocError` if an allocation fails; `out` is then unchanged. This happens only if the number doesn't fit the
/// capacity of `out`, which never decreases.
pub fn put_dec(out: &mut Vec<u8>, value: i128) -> Result<(), AllocError>
    ensures ok { OnOk result (out.new.items ≡ out.old.items ++ canonical_integer value) }
    ensures err { OnErr result (out.new.items ≡ out.old.items) }
    ensures full { OnErr result
        (vec_capacity out.old < vec_len out.old + length (canonical_integer value)) }
    ensures capacity { vec_capacity out.old ≤ vec_capacity out.new }
{
    let mut buffer = Buffer::new();
    out.extend_from_slice(buffer.format(value).as_bytes())
}
