// A list of ticks whose memory is used again.
ghost use Rattle.std.specs.Prelude.{◌≡◌, ◌-◌, length, take};

use report_figures::TickList;

/// Removes the numbers from that place on. The list keeps its memory.
pub(crate) fn cut(ticks: &mut TickList, count: usize)
    ensures small { ticks.new.small.items ≡ take count ticks.old.small.items }
    ensures large { ticks.new.large.items ≡ take (count - length ticks.old.small.items) ticks.old.large.items }
{
    let behind = count.saturating_sub(ticks.small.len());
    ticks.small.truncate(count);
    ticks.large.truncate(behind);
}
