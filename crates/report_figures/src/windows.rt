ghost use Rattle.std.specs.Prelude.{◌≡◌, ◌-◌};
ghost use Rattle.report_figures.specs.Columns.{column_at};
ghost use Rattle.report_figures.specs.Windows.{is_within};

use crate::columns::{COLUMNS, column_of};

/// The clocks from one to another, both included.
#[derive(Clone, Copy)]
pub struct Window {
    /// The first clock.
    pub from: u64,
    /// The last clock.
    pub to: u64,
}

impl Window {
    /// Checks whether the clock is in the window.
    pub fn has(self, clock: u64) -> bool
        ensures { result ≡ is_within self.from self.to clock }
    {
        self.from <= clock && clock <= self.to
    }

    /// Returns the number of ticks from the first clock to the last, or 0 if the last comes before the first.
    pub fn ticks(self) -> u64
        ensures { result ≡ self.to - self.from }
    {
        self.to.saturating_sub(self.from)
    }

    /// Returns the column, from 0, of a clock in a timeline: the first column for an earlier clock, and the last for a
    /// later one.
    pub fn column(self, clock: u64) -> u32
        ensures { result ≡ column_at (clock - self.from) (self.to - self.from) }
    {
        column_of(clock.saturating_sub(self.from), self.ticks())
    }

    /// Returns the first clock of a column, or the window's last clock for a column past the last.
    pub fn clock(self, column: u32) -> u64 {
        let columns = u128::from(COLUMNS);
        let part = u128::from(column.min(COLUMNS)) * u128::from(self.ticks());
        let ticks = u64::try_from(part.div_ceil(columns)).unwrap_or(self.ticks());
        self.from.saturating_add(ticks)
    }
}
