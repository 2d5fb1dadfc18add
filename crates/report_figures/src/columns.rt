ghost use Rattle.std.specs.Prelude.{◌≡◌, ◌<◌, ◌≤◌};
ghost use Rattle.report_figures.specs.Columns.{column_at};

/// The number of columns of a timeline.
pub const COLUMNS: u32 = 1200;

/// Returns the column, from 0, of a clock in a picture of a run that ended at the clock `end`; a later clock is in the
/// last column.
pub fn column_of(clock: u64, end: u64) -> u32
    ensures column { result ≡ column_at clock end }
    ensures inside { result < 1200 }
{
    if clock >= end {
        return COLUMNS - 1;
    }
    let scaled = u128::from(clock) * u128::from(COLUMNS) / u128::from(end);
    scaled as u32
}
