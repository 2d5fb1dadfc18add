ghost use Rattle.std.specs.Prelude.{◌≡◌, ◌<◌, ◌≤◌, [], length, Some, IfOk, IfSome, IfNone, IsPermutation, OnErr, OnOk, slice_get};
ghost use Rattle.report_figures.specs.Ranks.{place_at, IsReadOff, IsSpread};
ghost use Rattle.report_figures.specs.Ticks.{ticks_in};

use crate::TickList;
use std::alloc::AllocError;

/// The spread of some numbers: each field except `count` is one of them.
#[derive(Clone, Copy)]
pub struct Spread {
    /// The number of numbers, at least one.
    pub count: u64,
    /// The least number.
    pub least: u64,
    /// Half of them are at most this.
    pub median: u64,
    /// 90 percent of them are at most this.
    pub ninetieth: u64,
    /// 99 percent of them are at most this.
    pub ninety_ninth: u64,
    /// The greatest number.
    pub greatest: u64,
}

/// Returns the spread of the numbers, or `None` if there are none, and leaves them sorted.
///
/// # Errors
///
/// `AllocError` if an allocation fails; only a list with numbers in 8 bytes allocates.
pub fn spread_of(numbers: &mut TickList) -> Result<Option<Spread>, AllocError>
    ensures spread { IfOk result (λ read. IfSome read (IsSpread (ticks_in numbers.old))) }
    ensures none { IfOk result (λ read. IfNone read (ticks_in numbers.old ≡ [])) }
    ensures same { OnOk result (IsPermutation (ticks_in numbers.old) (ticks_in numbers.new)) }
    ensures refused { OnErr result (numbers.old.large.items ≡ [] → ⊥) }
{
    numbers.sort()?;
    if numbers.len() == 0 {
        return Ok(None);
    }
    let read = read_off(numbers);
    Ok(Some(read))
}

/// Returns the spread of sorted numbers.
fn read_off(in_order: &TickList) -> Spread
    requires { 1 ≤ length (ticks_in in_order.now) }
    ensures { IsReadOff (ticks_in in_order.now) result }
{
    let count = in_order.len();
    let least = number_at(in_order, 0);
    let median = number_at(in_order, place_of(count, 50));
    let ninetieth = number_at(in_order, place_of(count, 90));
    let ninety_ninth = number_at(in_order, place_of(count, 99));
    let greatest = number_at(in_order, count - 1);
    Spread {
        count: count as u64,
        least,
        median,
        ninetieth,
        ninety_ninth,
        greatest,
    }
}

/// Returns the number at a place.
fn number_at(numbers: &TickList, place: usize) -> u64
    requires { place < length (ticks_in numbers.now) }
    ensures { slice_get (ticks_in numbers.now) place ≡ Some result }
{
    numbers.at(place)
}

/// Returns the place, from 0, of the nearest rank for this many hundredths.
fn place_of(count: usize, hundredths: u8) -> usize
    requires some { 1 ≤ count }
    requires most { hundredths ≤ 100 }
    ensures place { result ≡ place_at hundredths count }
    ensures inside { result < count }
{
    let product = u128::from(hundredths) * (count as u128);
    let rank = (product + 99) / 100;
    (rank as usize).saturating_sub(1)
}
