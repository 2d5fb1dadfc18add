// The lines of a report that show numbers, each with its text as a clause.

use std::fmt;

/// The numbers of requests that came, were dropped, were taken and were answered.
#[derive(Clone, Copy)]
pub struct RequestsLine {
    /// The requests that came.
    pub came: u64,
    /// The requests that were dropped.
    pub dropped: u64,
    /// The requests that were taken.
    pub taken: u64,
    /// The requests that were answered.
    pub answered: u64,
}

impl fmt::Display for RequestsLine {
    ghost use Rattle.std.specs.Prelude.{Some};
    ghost use Rattle.report_lines.specs.Lines.{requests_line};

    ghost output = { λ line. Some (requests_line line) };

    fn fmt<W: fmt::Write>(&self, f: &mut fmt::Formatter<W>) -> fmt::Result {
        let came = self.came;
        let dropped = self.dropped;
        let taken = self.taken;
        let answered = self.answered;
        write!(
            f,
            "requests: {came} came, {dropped} dropped, {taken} taken, {answered} answered"
        )
    }
}

/// The waits at a place: their number, and their lengths in ticks.
#[derive(Clone, Copy)]
pub struct WaitsPart {
    /// The number of waits.
    pub count: u64,
    /// The sum of their lengths.
    pub total: u128,
    /// Half of the waits have at most this length.
    pub median: u64,
    /// 99 percent of the waits have at most this length.
    pub ninety_ninth: u64,
    /// The greatest length.
    pub greatest: u64,
}

impl fmt::Display for WaitsPart {
    ghost use Rattle.std.specs.Prelude.{Some};
    ghost use Rattle.report_lines.specs.Lines.{waits_part};

    ghost output = { λ part. Some (waits_part part) };

    fn fmt<W: fmt::Write>(&self, f: &mut fmt::Formatter<W>) -> fmt::Result {
        let count = self.count;
        let total = self.total;
        let median = self.median;
        let ninety_ninth = self.ninety_ninth;
        let greatest = self.greatest;
        write!(f, "{count}, {total}, {median}, {ninety_ninth}, {greatest}")
    }
}

/// The maximum number of chunks held between segments, and the number of all chunks.
#[derive(Clone, Copy)]
pub struct ChunksLine {
    /// The maximum number of held chunks.
    pub most_held: u32,
    /// The number of all chunks.
    pub chunks: u32,
}

impl fmt::Display for ChunksLine {
    ghost use Rattle.std.specs.Prelude.{Some};
    ghost use Rattle.report_lines.specs.Lines.{chunks_line};

    ghost output = { λ line. Some (chunks_line line) };

    fn fmt<W: fmt::Write>(&self, f: &mut fmt::Formatter<W>) -> fmt::Result {
        let most_held = self.most_held;
        let chunks = self.chunks;
        write!(
            f,
            "chunks: at most {most_held} of {chunks} held between segments"
        )
    }
}
