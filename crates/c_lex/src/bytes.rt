// The classes of bytes in tokens.
ghost use Rattle.std.specs.Prelude.{◌≡◌};
ghost use Rattle.c_lex.specs.Bytes.{is_white_space, is_letter, is_word_byte};

/// Returns whether the byte is space, tab, LF, vertical tab, form feed or CR (ISO/IEC 9899:2018,
/// 6.4, white-space characters).
pub(crate) fn is_white_space(byte: u8) -> bool
    ensures { result ≡ is_white_space byte }
{
    byte == b' ' || (byte >= 9 && byte <= 13)
}

/// Returns whether the byte is an ASCII letter or `_` (ISO/IEC 9899:2018, 6.4.2.1, nondigit).
pub(crate) fn is_letter(byte: u8) -> bool
    ensures { result ≡ is_letter byte }
{
    byte.is_ascii_alphabetic() || byte == b'_'
}

/// Returns whether the byte is a letter, a digit or `_`, the bytes of words.
pub(crate) fn is_word_byte(byte: u8) -> bool
    ensures { result ≡ is_word_byte byte }
{
    is_letter(byte) || byte.is_ascii_digit()
}
