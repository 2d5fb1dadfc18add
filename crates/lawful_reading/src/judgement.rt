// The judgement on a log.

/// The judgement on a log. Lines are counted from 1.
#[derive(Clone, Copy)]
pub enum Judgement {
    /// Every line is allowed, and the last is a stop.
    Lawful,
    /// `line` is the first line that isn't allowed, or the number of lines plus 1 if all are allowed and none is a
    /// stop.
    Unlawful { line: u64 },
    /// All earlier lines are allowed, and `line` needs, together with them, more steps than the limit.
    Steps { line: u64 },
}
