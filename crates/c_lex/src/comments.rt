// The length of a comment.
ghost use Rattle.std.specs.Prelude.{ℕ, ◌≡◌, ◌≢◌, ◌+◌, ◌<◌, ◌≤◌, length, slice_index, take, drop, codes, IfSome, IfNone};
ghost use Rattle.c_lex.specs.Gaps.{Lacks, IsLineComment, IsBlockComment};
ghost use Rattle.c_lex.specs.Marks.{BeginsWith};
ghost use Rattle.c_lex.specs.Tokens.{IsOpenComment};

// The index of the first LF, or the text's length.
fn line_length(text: &[u8]) -> usize
    ensures within { result ≤ length text.now }
    ensures one_line { (k : ℕ) → k < result → slice_index text.now k ≢ 10 }
    ensures ended { result < length text.now → slice_index text.now result ≡ 10 }
{
    for (place, byte) in text.iter().enumerate() {
        if *byte == b'\n' {
            return place;
        }
    }
    text.len()
}

// The index of the first `*/`.
fn end_of_comment(text: &[u8]) -> Option<usize>
    ensures within { IfSome result (λ place. place + 1 < length text.now) }
    ensures star { IfSome result (λ place. slice_index text.now place ≡ 42) }
    ensures slash { IfSome result (λ place. slice_index text.now (place + 1) ≡ 47) }
    ensures first { IfSome result (λ place. (k : ℕ) → k < place → slice_index text.now k ≡ 42 → slice_index text.now (k + 1) ≢ 47) }
    ensures none { IfNone result ((k : ℕ) → slice_index text.now k ≡ 42 → slice_index text.now (k + 1) ≢ 47) }
{
    let mut place = 0;
    while place < text.len() {
        if text[place] == b'*' && place + 1 < text.len() && text[place + 1] == b'/' {
            return Some(place);
        }
        place += 1;
    }
    None
}

/// Returns the length of the comment that begins with `//`: up to the next LF, which it doesn't
/// include, or up to the end (ISO/IEC 9899:2018, 6.4.9).
pub(crate) fn line_comment_length(text: &[u8]) -> usize
    requires { BeginsWith text.now (codes "//") }
    ensures within { result ≤ length text.now }
    ensures comment { IsLineComment (take result text.now) (drop result text.now) }
{
    2 + line_length(&text[2..])
}

/// Returns the length of the comment that begins with `/*`: up to the next `*/`, or `None` if there is
/// none (ISO/IEC 9899:2018, 6.4.9).
pub(crate) fn block_comment_length(text: &[u8]) -> Option<usize>
    requires { BeginsWith text.now (codes "/*") }
    ensures within { IfSome result (λ end. end ≤ length text.now) }
    ensures comment { IfSome result (λ end. IsBlockComment (take end text.now)) }
    ensures none { IfNone result (IsOpenComment text.now) }
{
    let place = end_of_comment(&text[2..])?;
    Some(2 + place + 2)
}
