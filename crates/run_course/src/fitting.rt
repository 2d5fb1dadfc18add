// Entries fit their types: each number of an entry is in the range of its field, so its line is read back. These
// functions have no effect at run time: the contract is the theorem.
ghost use Rattle.std.specs.Prelude.{◌<◌, ◌^◌, ◌∷◌, [], ◌++◌, FitsSigned};
ghost use Rattle.std.specs.Int.{w32, w128};
ghost use Rattle.std.specs.List.{AllByRecursion};
ghost use Rattle.run_course.specs.Output.{IsFitText};
ghost use Rattle.schedule_log.specs.EntryRanges.{FitsAverages, FitsEntry, FitsItem, FitsKey, FitsStop};
ghost use Rattle.schedule_log.specs.EntryText.{entry_text};

use cap_word::SiteKey;
use schedule_log::{Averages, Entry, Item, StopLine};

/// Law: the line of an entry is the text of one that fits its types.
pub(crate) fn line_fits(entry: &Entry)
    ensures { IsFitText (entry_text entry.now ++ 10 ∷ []) }
{
    entry_fits(entry);
}

fn entry_fits(entry: &Entry)
    ensures { FitsEntry entry.now }
{
    match entry {
        Entry::Event { clock, item } => came_fits(*clock, item),
        Entry::Dropped { clock, item } => came_fits(*clock, item),
        Entry::Run {
            clock,
            thread,
            node,
        } => run_fits(*clock, *thread, *node),
        Entry::Out { thread, value } => out_fits(*thread, *value),
        Entry::Block {
            thread,
            node,
            key,
            cost,
            free,
        } => block_fits(*thread, *node, key, *cost, *free),
        Entry::End { thread, cost, free } => end_fits(*thread, *cost, *free),
        Entry::Edge {
            from,
            to,
            count,
            cost,
            changes,
        } => edge_fits(*from, *to, *count, *cost, changes),
        Entry::Stop(stop) => stop_fits(stop),
    }
}

fn came_fits(clock: u64, item: &Item)
    ensures clock { clock < 2 ^ 64 }
    ensures item { FitsItem item.now }
{
    match item {
        Item::Arrive { value } => value_fits(*value),
        Item::Data { channel, value } => out_fits(*channel, *value),
    }
}

fn value_fits(value: i32)
    ensures { FitsSigned w32 value }
{}

fn run_fits(clock: u64, thread: u32, node: u32)
    ensures clock { clock < 2 ^ 64 }
    ensures thread { thread < 2 ^ 32 }
    ensures node { node < 2 ^ 32 }
{}

fn out_fits(number: u32, value: i32)
    ensures number { number < 2 ^ 32 }
    ensures value { FitsSigned w32 value }
{}

fn block_fits(thread: u32, node: u32, key: &SiteKey, cost: u64, free: u32)
    ensures thread { thread < 2 ^ 32 }
    ensures node { node < 2 ^ 32 }
    ensures key { FitsKey key.now }
    ensures cost { cost < 2 ^ 64 }
    ensures free { free < 2 ^ 32 }
{
    words_fit(key.sites());
}

fn end_fits(thread: u32, cost: u64, free: u32)
    ensures thread { thread < 2 ^ 32 }
    ensures cost { cost < 2 ^ 64 }
    ensures free { free < 2 ^ 32 }
{}

fn edge_fits(from: u32, to: u32, count: u64, cost: i128, changes: &Averages)
    ensures from { from < 2 ^ 32 }
    ensures to { to < 2 ^ 32 }
    ensures count { count < 2 ^ 64 }
    ensures cost { FitsSigned w128 cost }
    ensures changes { FitsAverages changes.now }
{
    averages_fit(changes.values());
}

fn stop_fits(stop: &StopLine)
    ensures { FitsStop stop.now }
{
    match stop {
        StopLine::Done => {}
        StopLine::Idle => {}
        StopLine::Trace { line } => line_number_fits(*line),
        StopLine::Cut {
            thread,
            cost,
            free,
            ..
        } => end_fits(*thread, *cost, *free),
    }
}

fn line_number_fits(line: u64)
    ensures { line < 2 ^ 64 }
{}

fn words_fit(words: &[u32])
    ensures { AllByRecursion (λ site. site < 2 ^ 32) words.now }
{
    let _count = words.len();
}

fn averages_fit(averages: &[i128])
    ensures { AllByRecursion (FitsSigned w128) averages.now }
{
    for average in averages {
        let _average = *average;
    }
}
