// Writing a line.
ghost use Rattle.std.specs.Prelude.{◌≡◌, ◌≤◌, ◌∷◌, [], ◌++◌, map, codes, None};
ghost use Rattle.cap_io.specs.Writes.{Puts};
ghost use Rattle.schedule_log.specs.Puts.{CountsPut};
ghost use Rattle.schedule_log.specs.Writing.{Writes, log_state};
ghost use Rattle.cap_text.specs.Decimals.{canonical_decimal, canonical_integer};
ghost use Rattle.schedule_log.specs.EntryText.{after_blanks, cause_fields, entry_text, item_fields, key_field, more_sites, stop_fields, trap_field};

use crate::{Averages, Entry, Item, LogWriter, StopLine};
use buffered_writer::{BufferedWriter, PutError};
use cap_io::Sink;
use cap_word::{SiteKey, Stop, TrapKind};
use itoa::Buffer;
use std::alloc::Global;

/// Writes the line of `entry` to `out`, and its line feed.
///
/// # Errors
///
/// `WriteFault` only if the sink's count of faults rose, or is at its maximum; `Memory` if an allocation fails, here or
/// in the sink. After either, a prefix of the line was taken.
pub fn put_entry<K: Sink>(alloc: Global, out: &mut K, entry: &Entry) -> Result<(), PutError>
    ensures bytes { Puts (K.taken out.old) (K.taken out.new) (entry_text entry.now ++ 10 ∷ []) result }
    ensures counts { CountsPut result (K.faults out.old) (K.faults out.new) }
    ensures never_falls { K.faults out.old ≤ K.faults out.new }
{
    match LogWriter::new(alloc) {
        Ok(writer) => put_alone(writer, out, entry),
        Err(_) => Err(PutError::Memory),
    }
}

// `put_entry` through a new writer.
fn put_alone<K: Sink>(mut writer: LogWriter, out: &mut K, entry: &Entry) -> Result<(), PutError>
    requires { writer ≡ record { held = []; refused = None } }
    ensures bytes { Puts (K.taken out.old) (K.taken out.new) (entry_text entry.now ++ 10 ∷ []) result }
    ensures counts { CountsPut result (K.faults out.old) (K.faults out.new) }
    ensures never_falls { K.faults out.old ≤ K.faults out.new }
{
    match writer.put(out, entry) {
        Ok(()) => writer.finish(out),
        Err(refusal) => {
            drop(writer);
            Err(refusal)
        }
    }
}

// Writes an entry's line and its line feed, unless there was a refusal. The functions below write parts of a line in
// the same way.
pub(crate) fn write_line<K: Sink>(writer: &mut BufferedWriter, out: &mut K, entry: &Entry)
    ensures { Writes (log_state writer.old (K.taken out.old) (K.faults out.old))
        (log_state writer.new (K.taken out.new) (K.faults out.new)) (entry_text entry.now ++ 10 ∷ []) }
{
    write_entry(writer, out, entry);
    writer.write_byte(out, b'\n');
}

#[tactic(auto, unfolding(crate::specs::EntryText::entry_text))]
fn write_entry<K: Sink>(writer: &mut BufferedWriter, out: &mut K, entry: &Entry)
    ensures { Writes (log_state writer.old (K.taken out.old) (K.faults out.old))
        (log_state writer.new (K.taken out.new) (K.faults out.new)) (entry_text entry.now) }
{
    match entry {
        Entry::Event { clock, item } => write_event(writer, out, *clock, item),
        Entry::Dropped { clock, item } => write_dropped(writer, out, *clock, item),
        Entry::Run {
            clock,
            thread,
            node,
        } => write_run(writer, out, *clock, *thread, *node),
        Entry::Out { thread, value } => write_out(writer, out, *thread, *value),
        Entry::Block {
            thread,
            node,
            key,
            cost,
            free,
        } => write_block(writer, out, *thread, *node, key, *cost, *free),
        Entry::End { thread, cost, free } => write_end(writer, out, *thread, *cost, *free),
        Entry::Edge {
            from,
            to,
            count,
            cost,
            changes,
        } => write_edge(writer, out, *from, *to, *count, *cost, changes),
        Entry::Stop(stop) => write_last(writer, out, stop),
    }
}

fn write_event<K: Sink>(writer: &mut BufferedWriter, out: &mut K, clock: u64, item: &Item)
    ensures { Writes (log_state writer.old (K.taken out.old) (K.faults out.old))
        (log_state writer.new (K.taken out.new) (K.faults out.new)) (codes "event" ++ after_blanks (canonical_decimal clock ∷ item_fields item.now)) }
{
    writer.write(out, b"event");
    write_number(writer, out, clock);
    write_item(writer, out, item);
}

fn write_dropped<K: Sink>(writer: &mut BufferedWriter, out: &mut K, clock: u64, item: &Item)
    ensures { Writes (log_state writer.old (K.taken out.old) (K.faults out.old))
        (log_state writer.new (K.taken out.new) (K.faults out.new)) (codes "drop" ++ after_blanks (canonical_decimal clock ∷ item_fields item.now)) }
{
    writer.write(out, b"drop");
    write_number(writer, out, clock);
    write_item(writer, out, item);
}

fn write_run<K: Sink>(writer: &mut BufferedWriter, out: &mut K, clock: u64, thread: u32, node: u32)
    ensures { Writes (log_state writer.old (K.taken out.old) (K.faults out.old))
        (log_state writer.new (K.taken out.new) (K.faults out.new)) (codes "run"
        ++ after_blanks (canonical_decimal clock ∷ canonical_decimal thread ∷ canonical_decimal node ∷ [])) }
{
    writer.write(out, b"run");
    write_number(writer, out, clock);
    write_word(writer, out, thread);
    write_word(writer, out, node);
}

fn write_out<K: Sink>(writer: &mut BufferedWriter, out: &mut K, thread: u32, value: i32)
    ensures { Writes (log_state writer.old (K.taken out.old) (K.faults out.old))
        (log_state writer.new (K.taken out.new) (K.faults out.new)) (codes "out"
        ++ after_blanks (canonical_decimal thread ∷ canonical_integer value ∷ [])) }
{
    writer.write(out, b"out");
    write_word(writer, out, thread);
    write_signed(writer, out, value);
}

fn write_block<K: Sink>(
    writer: &mut BufferedWriter,
    out: &mut K,
    thread: u32,
    node: u32,
    key: &SiteKey,
    cost: u64,
    free: u32,
)
    ensures { Writes (log_state writer.old (K.taken out.old) (K.faults out.old))
        (log_state writer.new (K.taken out.new) (K.faults out.new)) (codes "block"
        ++ after_blanks (canonical_decimal thread ∷ canonical_decimal node ∷ key_field key.now
        ∷ canonical_decimal cost ∷ canonical_decimal free ∷ [])) }
{
    writer.write(out, b"block");
    write_word(writer, out, thread);
    write_word(writer, out, node);
    write_key(writer, out, key);
    write_segment(writer, out, cost, free);
}

fn write_end<K: Sink>(writer: &mut BufferedWriter, out: &mut K, thread: u32, cost: u64, free: u32)
    ensures { Writes (log_state writer.old (K.taken out.old) (K.faults out.old))
        (log_state writer.new (K.taken out.new) (K.faults out.new)) (codes "end"
        ++ after_blanks (canonical_decimal thread ∷ canonical_decimal cost ∷ canonical_decimal free ∷ [])) }
{
    writer.write(out, b"end");
    write_word(writer, out, thread);
    write_segment(writer, out, cost, free);
}

fn write_edge<K: Sink>(
    writer: &mut BufferedWriter,
    out: &mut K,
    from: u32,
    to: u32,
    count: u64,
    cost: i128,
    changes: &Averages,
)
    ensures { Writes (log_state writer.old (K.taken out.old) (K.faults out.old))
        (log_state writer.new (K.taken out.new) (K.faults out.new)) (codes "edge"
        ++ after_blanks (canonical_decimal from ∷ canonical_decimal to ∷ canonical_decimal count
        ∷ canonical_integer cost ∷ map canonical_integer changes.now)) }
{
    writer.write(out, b"edge");
    write_word(writer, out, from);
    write_word(writer, out, to);
    write_number(writer, out, count);
    write_integer(writer, out, cost);
    write_averages(writer, out, changes);
}

// A stop line.
fn write_last<K: Sink>(writer: &mut BufferedWriter, out: &mut K, stop: &StopLine)
    ensures { Writes (log_state writer.old (K.taken out.old) (K.faults out.old))
        (log_state writer.new (K.taken out.new) (K.faults out.new)) (codes "stop" ++ after_blanks (stop_fields stop.now)) }
{
    writer.write(out, b"stop");
    write_stop(writer, out, stop);
}

// A space and a field with a natural number.
fn write_number<K: Sink>(writer: &mut BufferedWriter, out: &mut K, number: u64)
    ensures { Writes (log_state writer.old (K.taken out.old) (K.faults out.old))
        (log_state writer.new (K.taken out.new) (K.faults out.new)) (32 ∷ canonical_decimal number) }
{
    write_after(writer, out, b' ', number);
}

// A space and a field with a number of 32 bits.
fn write_word<K: Sink>(writer: &mut BufferedWriter, out: &mut K, number: u32)
    ensures { Writes (log_state writer.old (K.taken out.old) (K.faults out.old))
        (log_state writer.new (K.taken out.new) (K.faults out.new)) (32 ∷ canonical_decimal number) }
{
    write_number(writer, out, u64::from(number));
}

// A `<` and a site.
fn write_site<K: Sink>(writer: &mut BufferedWriter, out: &mut K, site: u32)
    ensures { Writes (log_state writer.old (K.taken out.old) (K.faults out.old))
        (log_state writer.new (K.taken out.new) (K.faults out.new)) (60 ∷ canonical_decimal site) }
{
    write_after(writer, out, b'<', u64::from(site));
}

// That byte and a natural number.
fn write_after<K: Sink>(writer: &mut BufferedWriter, out: &mut K, separator: u8, number: u64)
    ensures { Writes (log_state writer.old (K.taken out.old) (K.faults out.old))
        (log_state writer.new (K.taken out.new) (K.faults out.new)) (separator ∷ canonical_decimal number) }
{
    writer.write_byte(out, separator);
    write_digits(writer, out, i128::from(number));
}

// A space and a field with an integer.
fn write_integer<K: Sink>(writer: &mut BufferedWriter, out: &mut K, number: i128)
    ensures { Writes (log_state writer.old (K.taken out.old) (K.faults out.old))
        (log_state writer.new (K.taken out.new) (K.faults out.new)) (32 ∷ canonical_integer number) }
{
    writer.write_byte(out, b' ');
    write_digits(writer, out, number);
}

// An integer.
fn write_digits<K: Sink>(writer: &mut BufferedWriter, out: &mut K, number: i128)
    ensures { Writes (log_state writer.old (K.taken out.old) (K.faults out.old))
        (log_state writer.new (K.taken out.new) (K.faults out.new)) (canonical_integer number) }
{
    let mut buffer = Buffer::new();
    writer.write(out, buffer.format(number).as_bytes());
}

// A space and a field with a word as a signed number.
fn write_signed<K: Sink>(writer: &mut BufferedWriter, out: &mut K, value: i32)
    ensures { Writes (log_state writer.old (K.taken out.old) (K.faults out.old))
        (log_state writer.new (K.taken out.new) (K.faults out.new)) (32 ∷ canonical_integer value) }
{
    write_integer(writer, out, i128::from(value));
}

// A space and a key: its sites separated by `<`.
fn write_key<K: Sink>(writer: &mut BufferedWriter, out: &mut K, key: &SiteKey)
    ensures { Writes (log_state writer.old (K.taken out.old) (K.faults out.old))
        (log_state writer.new (K.taken out.new) (K.faults out.new)) (32 ∷ key_field key.now) }
{
    let sites = key.sites();
    write_word(writer, out, sites[0]);
    write_sites(writer, out, &sites[1..]);
}

// The sites after the first, each preceded by `<`.
fn write_sites<K: Sink>(writer: &mut BufferedWriter, out: &mut K, sites: &[u32])
    ensures { Writes (log_state writer.old (K.taken out.old) (K.faults out.old))
        (log_state writer.new (K.taken out.new) (K.faults out.new)) (more_sites sites.now) }
{
    for site in sites {
        write_site(writer, out, *site);
    }
}

// The averages, each preceded by a space.
fn write_averages<K: Sink>(writer: &mut BufferedWriter, out: &mut K, averages: &Averages)
    ensures { Writes (log_state writer.old (K.taken out.old) (K.faults out.old))
        (log_state writer.new (K.taken out.new) (K.faults out.new)) (after_blanks (map canonical_integer averages.now)) }
{
    for value in averages.values() {
        write_integer(writer, out, *value);
    }
}

fn write_item<K: Sink>(writer: &mut BufferedWriter, out: &mut K, item: &Item)
    ensures { Writes (log_state writer.old (K.taken out.old) (K.faults out.old))
        (log_state writer.new (K.taken out.new) (K.faults out.new)) (after_blanks (item_fields item.now)) }
{
    match item {
        Item::Arrive { value } => write_arrival(writer, out, *value),
        Item::Data { channel, value } => write_message(writer, out, *channel, *value),
    }
}

fn write_arrival<K: Sink>(writer: &mut BufferedWriter, out: &mut K, value: i32)
    ensures { Writes (log_state writer.old (K.taken out.old) (K.faults out.old))
        (log_state writer.new (K.taken out.new) (K.faults out.new)) (after_blanks (codes "arrive" ∷ canonical_integer value ∷ [])) }
{
    writer.write(out, b" arrive");
    write_signed(writer, out, value);
}

fn write_message<K: Sink>(writer: &mut BufferedWriter, out: &mut K, channel: u32, value: i32)
    ensures { Writes (log_state writer.old (K.taken out.old) (K.faults out.old))
        (log_state writer.new (K.taken out.new) (K.faults out.new)) (after_blanks (codes "data" ∷ canonical_decimal channel ∷ canonical_integer value ∷ [])) }
{
    writer.write(out, b" data");
    write_word(writer, out, channel);
    write_signed(writer, out, value);
}

// The cost of a segment and the free chunks after it.
fn write_segment<K: Sink>(writer: &mut BufferedWriter, out: &mut K, cost: u64, free: u32)
    ensures { Writes (log_state writer.old (K.taken out.old) (K.faults out.old))
        (log_state writer.new (K.taken out.new) (K.faults out.new)) (after_blanks (canonical_decimal cost ∷ canonical_decimal free ∷ [])) }
{
    write_number(writer, out, cost);
    write_word(writer, out, free);
}

fn write_stop<K: Sink>(writer: &mut BufferedWriter, out: &mut K, stop: &StopLine)
    ensures { Writes (log_state writer.old (K.taken out.old) (K.faults out.old))
        (log_state writer.new (K.taken out.new) (K.faults out.new)) (after_blanks (stop_fields stop.now)) }
{
    match stop {
        StopLine::Done => writer.write(out, b" done"),
        StopLine::Idle => writer.write(out, b" idle"),
        StopLine::Trace { line } => write_refused(writer, out, *line),
        StopLine::Cut {
            thread,
            stop,
            cost,
            free,
        } => write_cut(writer, out, *thread, stop, *cost, *free),
    }
}

fn write_refused<K: Sink>(writer: &mut BufferedWriter, out: &mut K, line: u64)
    ensures { Writes (log_state writer.old (K.taken out.old) (K.faults out.old))
        (log_state writer.new (K.taken out.new) (K.faults out.new)) (after_blanks (codes "trace" ∷ canonical_decimal line ∷ [])) }
{
    writer.write(out, b" trace");
    write_number(writer, out, line);
}

fn write_cut<K: Sink>(
    writer: &mut BufferedWriter,
    out: &mut K,
    thread: u32,
    stop: &Stop,
    cost: u64,
    free: u32,
)
    ensures { Writes (log_state writer.old (K.taken out.old) (K.faults out.old))
        (log_state writer.new (K.taken out.new) (K.faults out.new)) (after_blanks (cause_fields thread stop.now
        ++ (canonical_decimal cost ∷ canonical_decimal free ∷ []))) }
{
    write_cause(writer, out, thread, stop);
    write_segment(writer, out, cost, free);
}

// Why a segment was cut off, and its thread.
fn write_cause<K: Sink>(writer: &mut BufferedWriter, out: &mut K, thread: u32, stop: &Stop)
    ensures { Writes (log_state writer.old (K.taken out.old) (K.faults out.old))
        (log_state writer.new (K.taken out.new) (K.faults out.new)) (after_blanks (cause_fields thread stop.now)) }
{
    match stop {
        Stop::Trap(kind) => write_trap(writer, out, thread, *kind),
        Stop::NoChunk => write_name(writer, out, b" nochunk", thread),
        Stop::Fuel => write_name(writer, out, b" fuel", thread),
        Stop::Threads => write_name(writer, out, b" threads", thread),
    }
}

fn write_trap<K: Sink>(writer: &mut BufferedWriter, out: &mut K, thread: u32, kind: TrapKind)
    ensures { Writes (log_state writer.old (K.taken out.old) (K.faults out.old))
        (log_state writer.new (K.taken out.new) (K.faults out.new)) (after_blanks (codes "trap" ∷ canonical_decimal thread ∷ trap_field kind ∷ [])) }
{
    write_name(writer, out, b" trap", thread);
    writer.write_byte(out, b' ');
    writer.write(out, trap_word(kind));
}

// That text and a number.
fn write_name<K: Sink>(writer: &mut BufferedWriter, out: &mut K, name: &[u8], thread: u32)
    ensures { Writes (log_state writer.old (K.taken out.old) (K.faults out.old))
        (log_state writer.new (K.taken out.new) (K.faults out.new)) (name.now ++ 32 ∷ canonical_decimal thread) }
{
    writer.write(out, name);
    write_word(writer, out, thread);
}

fn trap_word(kind: TrapKind) -> &'static [u8]
    ensures { result.now ≡ trap_field kind }
{
    match kind {
        TrapKind::Index => b"index",
        TrapKind::Table => b"table",
        TrapKind::Resource => b"resource",
        TrapKind::Channel => b"channel",
    }
}
