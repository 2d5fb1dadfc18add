// The lines of a segment.
ghost use Rattle.std.specs.Prelude.{◌≡◌, ◌≤◌, ◌+◌, ◌<◌, ◌↔◌, IsTrue, None, Ok};
ghost use Rattle.lawful_reading.specs.Given.{Given};
ghost use Rattle.lawful_reading.specs.State.{State};
ghost use Rattle.schedule_log.specs.declared.entries.Entry.{Entry};
ghost use Rattle.schedule_reading.specs.Closing.{EndsSegment, HasProceeded, IsClosing, IsWithin, RulesWithin, WithinSomehow};
ghost use Rattle.schedule_reading.specs.Stands.{IsEnd, StandsWithin};
ghost use Rattle.schedule_reading.specs.declared.events.Happening.TheVariants.{IsCrowded};

use cap_word::SiteKey;
use resource_monitor::Measure;
use schedule_reading::{Failure, Happening, Reading, Ruling, Under, is_key_of, ruling_of};

/// The node of threads that have ended.
const END: u32 = 1;

/// Runs the thread in progress to what it does next, within the remaining steps.
pub(crate) fn proceed<'a, C: Measure + Drop>(
    reading: &mut Reading<'a, C>,
    under: &mut Under<'a>,
) -> Result<Happening, Failure>
    requires { WithinSomehow reading.old.core under.old }
    ensures proceeds { (g : Given) (state : State) → StandsWithin g state reading.old.core under.old → HasProceeded g state reading.old.core under.old reading.new.core under.new result }
    ensures alone { result ≡ Ok IsCrowded → ⊥ }
    ensures rest { reading.new ≡ record reading.old { core = reading.new.core } }
{
    let mut left = reading.left;
    let happened = reading.happen(under, &mut left, false);
    reading.left = left;
    happened
}

/// Judges a line `out`.
pub(crate) fn out<'a, C: Measure + Drop>(
    reading: &mut Reading<'a, C>,
    mut under: Under<'a>,
    thread: u32,
    value: i32,
) -> Result<Ruling, Failure>
    requires { WithinSomehow reading.old.core under }
    ensures { (g : Given) (state : State) → StandsWithin g state reading.old.core under.entry → IsEnd g state reading.old.end → RulesWithin g state reading.old (Entry.Out thread value) reading.new result }
{
    let happening = proceed(reading, &mut under)?;
    let number = under.choice.thread.number;
    reading.under = Some(under);
    match happening {
        Happening::OutOfSteps => Ok(Ruling::OutOfSteps),
        Happening::Puts(word) => Ok(ruling_of(reading.is_output(number, word, thread, value))),
        _ => Ok(Ruling::Refused),
    }
}

/// Judges a line `block`.
pub(crate) fn block<'a, C: Measure + Drop>(
    reading: &mut Reading<'a, C>,
    mut under: Under<'a>,
    thread: u32,
    node: u32,
    key: &SiteKey,
    cost: u64,
    free: u32,
) -> Result<Ruling, Failure>
    requires under { reading.old.under ≡ None }
    requires within { WithinSomehow reading.old.core under }
    ensures { (g : Given) (state : State) → StandsWithin g state reading.old.core under.entry → IsEnd g state reading.old.end → RulesWithin g state reading.old (Entry.Block thread node key.now cost free) reading.new result }
{
    match proceed(reading, &mut under)? {
        Happening::OutOfSteps => Ok(Ruling::OutOfSteps),
        Happening::Blocks(block) => {
            if !ends_segment(reading, under.choice.thread.number, thread, cost, free) {
                return Ok(Ruling::Refused);
            }
            if !is_key_of(&under.thread, key) {
                return Ok(Ruling::Refused);
            }
            let at = reading.graph.node_of(key)?;
            if at != node {
                return Ok(Ruling::Refused);
            }
            reading.rest_at(under, node, block, cost, free)?;
            Ok(Ruling::Allowed)
        }
        _ => Ok(Ruling::Refused),
    }
}

/// Judges a line `end`.
pub(crate) fn end_line<'a, C: Measure + Drop>(
    reading: &mut Reading<'a, C>,
    under: &mut Under<'a>,
    thread: u32,
    cost: u64,
    free: u32,
) -> Result<Ruling, Failure>
    requires under { reading.old.under ≡ None }
    requires within { WithinSomehow reading.old.core under.old }
    ensures { (g : Given) (state : State) → StandsWithin g state reading.old.core under.old → IsEnd g state reading.old.end → RulesWithin g state reading.old (Entry.End thread cost free) reading.new result }
{
    match proceed(reading, under)? {
        Happening::OutOfSteps => Ok(Ruling::OutOfSteps),
        Happening::Ends => {
            if !ends_segment(reading, under.choice.thread.number, thread, cost, free) {
                return Ok(Ruling::Refused);
            }
            reading.close(under, END, cost, free)?;
            reading.threads.end(under.choice.thread);
            Ok(Ruling::Allowed)
        }
        _ => Ok(Ruling::Refused),
    }
}

/// Checks whether a line with this thread, cost and number of free chunks may end the segment of the thread `number`.
fn ends_segment<C: Measure + Drop>(
    reading: &Reading<'_, C>,
    number: u32,
    thread: u32,
    cost: u64,
    free: u32,
) -> bool
    requires { reading.now.core.cost ≤ reading.now.core.policy.fuel }
    ensures { IsTrue result ↔ EndsSegment reading.now number thread cost free }
{
    reading.is_before_end() && thread == number && is_closing(reading, cost, free)
}

/// Checks whether a cost and a number of free chunks are possible at a segment's end.
fn is_closing<C: Measure + Drop>(reading: &Reading<'_, C>, cost: u64, free: u32) -> bool
    requires { reading.now.core.cost ≤ reading.now.core.policy.fuel }
    ensures { IsTrue result ↔ IsClosing reading.now.core cost free }
{
    cost >= 1 && is_within(reading, cost, free)
}

/// Checks whether a cost and a number of free chunks are possible: the total cost is at most the fuel, and at most all
/// chunks are free.
pub(crate) fn is_within<C: Measure + Drop>(reading: &Reading<'_, C>, cost: u64, free: u32) -> bool
    requires { reading.now.core.cost ≤ reading.now.core.policy.fuel }
    ensures { IsTrue result ↔ IsWithin reading.now.core cost free }
{
    cost <= reading.policy.fuel - reading.cost && free <= reading.policy.chunks
}
