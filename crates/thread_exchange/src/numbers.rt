ghost use Rattle.std.specs.Prelude.{◌≡◌, ◌<◌, ◌^◌};
ghost use Rattle.c_mean.specs.ModelledCalls as table;

/// Checks whether a word is negative as a signed number.
pub(crate) fn is_negative(word: u32) -> bool
    ensures { result ≡ table.is_negative word }
{
    word >= 0x8000_0000
}

/// Returns the number of ticks for which `sleep` and `waitfor` wait: 0 if the word is negative as a signed number.
pub fn ticks_of(word: u32) -> u64
    ensures ticks { result ≡ table.ticks_of word }
    ensures small { result < 2 ^ 31 }
{
    if is_negative(word) { 0 } else { word as u64 }
}
