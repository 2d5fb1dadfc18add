ghost use Rattle.std.specs.Prelude.{◌≡◌, ◌≤◌};
ghost use Rattle.run_history.specs.Spells.{open_with, pressure_with};

use crate::happenings::Happening;

/// The thresholds at which the gate closes and opens.
#[derive(Clone, Copy)]
pub struct Marks {
    /// The number of all chunks.
    pub chunks: u32,
    /// The pressure in thousandths at which it closes.
    pub high: u32,
    /// The pressure at which it opens again.
    pub low: u32,
    /// The knee of the pressure curve, in thousandths of the chunks, at most 999.
    pub knee: u32,
}

/// How often the gate has been closed so far, and for how long.
#[derive(Clone, Copy)]
pub struct Spells {
    /// The clock since which it has been closed, if it is.
    pub since: Option<u64>,
    /// How often it was closed, including now.
    pub times: u64,
    /// The number of ticks for which it was closed in all, without the current time.
    pub ticks: u64,
}

impl Spells {
    ghost use Rattle.std.specs.Prelude.{◌≡◌, ◌≤◌, IfSome, Some, None, true, false};
    ghost use Rattle.run_history.specs.Spells.{always_open, at_start, closed_until, is_open, turned, with_happening};

    /// Returns a gate that was never closed.
    pub fn new() -> Spells
        ensures { result ≡ always_open }
    {
        Spells {
            since: None,
            times: 0,
            ticks: 0,
        }
    }

    /// Returns the state at the start of a run, at which the first thread holds a chunk.
    pub fn start(marks: Marks) -> Spells
        requires { marks.knee ≤ 999 }
        ensures { result ≡ at_start marks }
    {
        if is_open_with(marks, true, marks.chunks.saturating_sub(1)) {
            Spells::new()
        } else {
            Spells {
                since: Some(0),
                times: 1,
                ticks: 0,
            }
        }
    }

    /// Returns the number of ticks for which the gate was closed in all, in a run that ended at that clock. Returns
    /// `None` only if it is 2^64 or more.
    pub fn closed_until(self, ended: u64) -> Option<u64>
        ensures { IfSome result (λ ticks. ticks ≡ closed_until ended self) }
    {
        match self.since {
            None => Some(self.ticks),
            Some(since) => self.ticks.checked_add(ended.saturating_sub(since)),
        }
    }

    /// Adds the happening of the next entry. Returns `None` only if a clock is before the one since which the gate has
    /// been closed, or a count would be 2^64 or more, which happens in no run.
    pub fn with(self, marks: Marks, told: Happening) -> Option<Spells>
        requires { marks.knee ≤ 999 }
        ensures { IfSome result (λ spells. spells ≡ with_happening marks told self) }
    {
        match told {
            Happening::Came { .. } => Some(self),
            Happening::Lost { .. } => Some(self),
            Happening::Started { .. } => Some(self),
            Happening::Waited(_) => Some(self),
            Happening::Put { .. } => Some(self),
            Happening::Ran { segment, free } => {
                let is_open = is_open_with(marks, self.is_open(), free);
                self.turn(is_open, segment.ended)
            }
            Happening::Nothing => Some(self),
        }
    }

    /// Checks whether the gate is open.
    pub fn is_open(self) -> bool
        ensures { result ≡ is_open self }
    {
        self.since.is_none()
    }

    /// Opens or closes the gate at that clock. Returns `None` only if that clock is before the one since which it has
    /// been closed, or a count would be 2^64 or more.
    pub fn turn(self, is_open: bool, clock: u64) -> Option<Spells>
        ensures { IfSome result (λ spells. spells ≡ turned self.since is_open clock self) }
    {
        match self.since {
            None => {
                if is_open {
                    return Some(self);
                }
                let times = self.times.checked_add(1)?;
                Some(Spells {
                    since: Some(clock),
                    times,
                    ticks: self.ticks,
                })
            }
            Some(since) => {
                if !is_open {
                    return Some(self);
                }
                let length = clock.checked_sub(since)?;
                let ticks = self.ticks.checked_add(length)?;
                Some(Spells {
                    since: None,
                    times: self.times,
                    ticks,
                })
            }
        }
    }
}

/// Checks whether the gate is open after a segment that left this number of chunks free.
fn is_open_with(marks: Marks, was_open: bool, free: u32) -> bool
    requires { marks.knee ≤ 999 }
    ensures { result ≡ open_with marks was_open free }
{
    let pressure = pressure_of(marks, free);
    if u64::from(marks.high) <= pressure {
        false
    } else if pressure <= u64::from(marks.low) {
        true
    } else {
        was_open
    }
}

/// Returns the pressure on chunks, in thousandths, if this number is free.
fn pressure_of(marks: Marks, free: u32) -> u64
    requires { marks.knee ≤ 999 }
    ensures { result ≡ pressure_with marks free }
{
    if marks.chunks == 0 {
        return 0;
    }
    let cap = u64::from(marks.chunks);
    let used = u64::from(marks.chunks.saturating_sub(free));
    let knee = u64::from(marks.knee);
    if 1000 * used <= knee * cap {
        0
    } else {
        1000 * (1000 * used - knee * cap) / ((1000 - knee) * cap)
    }
}
