// Traces read from sources in memory, in pieces of several sizes and with failing reads.
ghost use Rattle.std.specs.Prelude.{◌≤◌};

use cap_io::{CleanSource, MemSource, Source};
use cap_text::put_dec;
use event_trace::{Event, EventKind, TraceError, TraceReader};
use std::alloc::Global;

// In place of the channel of a message in a row: an arrival.
const ARRIVAL: u32 = 64;

// Returns an event as numbers: its time, its channel or ARRIVAL, and its value.
fn numbers_of(event: Event) -> (u64, u32, u32) {
    match event.kind {
        EventKind::Arrive { value } => (event.time, ARRIVAL, value),
        EventKind::Message { channel, value } => (event.time, channel, value),
    }
}

const NONE: (u64, u64, u64) = (0, 0, 0);

const READ_FAULT: (u64, u64, u64) = (0, 1, 0);

const LINE_2: (u64, u64, u64) = (2, 0, 0);

const FALLING: (u64, u64, u64) = (2, 6, 7);

// Returns a refusal as numbers: the line, its time and the earlier one.
fn refusal_of(error: TraceError) -> (u64, u64, u64) {
    match error {
        TraceError::Line { number } => (u64::from(number), 0, 0),
        TraceError::Order {
            number,
            time,
            earlier,
        } => (u64::from(number), time, earlier),
        TraceError::ReadFault => READ_FAULT,
    }
}

// Checks whether a reader returns in ten calls these events and then, if there is one, this refusal at each call. An
// event after it would be among them.
fn gives<S: Source>(
    alloc: Global,
    source: &mut S,
    want: &[(u64, u32, u32)],
    refusal: (u64, u64, u64),
) -> bool {
    let Ok(mut reader) = TraceReader::new(alloc) else {
        return false;
    };
    let mut left = want;
    let mut same = true;
    let mut last = NONE;
    for _ in 0..10 {
        match reader.next(source) {
            Ok(Some(event)) => match left.split_first() {
                Some((first, rest)) => {
                    same = same && numbers_of(event) == *first;
                    left = rest;
                }
                None => same = false,
            },
            Ok(None) => same = same && last == NONE,
            Err(error) => {
                let refused = refusal_of(error);
                same = same && (last == NONE || last == refused);
                last = refused;
            }
        }
    }
    drop(reader);
    same && left.is_empty() && last == refusal
}

const TRACE: &[u8] = b"arrive 0 0
data 0 0 -1
arrive 5 -107
data 1000000000000000 63 -2147483648
arrive 1000000000000000 2147483647
data 1000000000000000 7 9";

const EVENTS: &[(u64, u32, u32)] = &[
    (0, ARRIVAL, 0),
    (0, 0, 4_294_967_295),
    (5, ARRIVAL, 4_294_967_189),
    (1_000_000_000_000_000, 63, 2_147_483_648),
    (1_000_000_000_000_000, ARRIVAL, 2_147_483_647),
    (1_000_000_000_000_000, 7, 9),
];

// Checks whether a source that returns `per_call` bytes a call and fails at these calls gives these events and this
// refusal.
fn memory_gives(
    alloc: Global,
    bytes: &[u8],
    per_call: u32,
    fails: &[u64],
    want: &[(u64, u32, u32)],
    refusal: (u64, u64, u64),
) -> bool
    requires { 1 ≤ per_call }
{
    let Ok(bytes) = Vec::from_slice(alloc, bytes) else {
        return false;
    };
    let Ok(fails) = Vec::from_slice(alloc, fails) else {
        drop(bytes);
        return false;
    };
    let mut source = MemSource::new(bytes, per_call, fails);
    let right = gives(alloc, &mut source, want, refusal);
    drop(source);
    right
}

#[test]
fn events_come_in_order_whatever_the_pieces(rt: HostRuntime) {
    let mut right = true;
    for per_call in [1, 2, 3, 100] {
        right = right && memory_gives(rt.alloc(), TRACE, per_call, &[], EVENTS, NONE);
    }
    assert!(rt; right);
}

// Lines after one of time 7. The last has 65 bytes.
const REFUSED: &[&[u8]] = &[
    b"",
    b" ",
    b"arrive  7 1",
    b"arrive 7  1",
    b" arrive 7 1",
    b"arrive 7 1 ",
    b"arrive 7",
    b"arrive 7 ",
    b"arrive",
    b"Arrive 7 1",
    b"arrive 07 1",
    b"arrive 7 01",
    b"arrive 7 -0",
    b"arrive 7 +1",
    b"arrive 7 2147483648",
    b"arrive 1000000000000001 0",
    b"data 7 64 0",
    b"data 7 0",
    b"arrive 7 1\r",
    b"11111111111111111111111111111111111111111111111111111111111111111",
];

// Checks whether a line after one of time 7 is refused like this, each time.
fn is_refused(alloc: Global, line: &[u8], refusal: (u64, u64, u64)) -> bool {
    let mut text = Vec::new(alloc);
    let whole = text.extend_from_slice(b"arrive 7 7\n").is_ok()
        && text.extend_from_slice(line).is_ok()
        && text.extend_from_slice(b"\narrive 8 8\n").is_ok();
    let mut source = CleanSource::new(text);
    let right = gives(alloc, &mut source, &[(7, ARRIVAL, 7)], refusal);
    drop(source);
    whole && right
}

#[test]
fn other_lines_are_refused_for_good(rt: HostRuntime) {
    let mut right = is_refused(rt.alloc(), b"arrive 6 0", FALLING);
    for line in REFUSED {
        right = right && is_refused(rt.alloc(), line, LINE_2);
    }
    assert!(rt; right);
}

#[test]
fn each_read_may_fail(rt: HostRuntime) {
    let alloc = rt.alloc();
    let line = b"arrive 0 7\n";
    // The read that meets the end, after the eleven reads of a line of eleven bytes.
    let mut right = memory_gives(alloc, line, 1, &[12], &[(0, ARRIVAL, 7)], READ_FAULT);
    for call in 1..=11 {
        right = right && memory_gives(alloc, line, 1, &[call], &[], READ_FAULT);
    }
    assert!(rt; right);
}

/// The number of lines of a long trace: each has 17 bytes with its LF, and 18 from time 1,000 on, so that each block of
/// 4,096 bytes ends within one.
const LONG_LINES: u64 = 1_000;

// Returns a trace of that many lines `arrive T 12345`, with T from 100 on, whose length is no multiple of a block.
fn long_trace(alloc: Global) -> Option<Vec<u8>> {
    let mut text = Vec::new(alloc);
    for line in 0..LONG_LINES {
        let whole = text.extend_from_slice(b"arrive ").is_ok()
            && put_dec(&mut text, i128::from(line) + 100).is_ok()
            && text.extend_from_slice(b" 12345\n").is_ok();
        if !whole {
            drop(text);
            return None;
        }
    }
    Some(text)
}

// Checks whether a source gives the events of the long trace, one after another, and then no more.
fn gives_long<S: Source>(alloc: Global, source: &mut S) -> bool {
    let Ok(mut reader) = TraceReader::new(alloc) else {
        return false;
    };
    let mut same = true;
    for line in 0..LONG_LINES {
        same = same && next_is(&mut reader, source, line + 100);
    }
    let over = matches!(reader.next(source), Ok(None));
    drop(reader);
    same && over
}

// Checks whether the next event is the arrival of 12345 at that time.
fn next_is<S: Source>(reader: &mut TraceReader, source: &mut S, time: u64) -> bool {
    match reader.next(source) {
        Ok(Some(event)) => numbers_of(event) == (time, ARRIVAL, 12_345),
        Ok(None) | Err(_) => false,
    }
}

// Checks whether a source that returns `per_call` bytes a call gives the long trace.
fn long_in_pieces(alloc: Global, per_call: u32) -> bool
    requires { 1 ≤ per_call }
{
    let Some(text) = long_trace(alloc) else {
        return false;
    };
    let mut source = MemSource::new(text, per_call, Vec::new(alloc));
    let right = gives_long(alloc, &mut source);
    drop(source);
    right
}

#[test]
fn lines_go_on_across_the_end_of_a_block(rt: HostRuntime) {
    let mut right = true;
    for per_call in [7, 4095, 4096, 5000, 100_000] {
        right = right && long_in_pieces(rt.alloc(), per_call);
    }
    assert!(rt; right);
}

#[test]
fn nothing_is_read_while_a_whole_line_is_held(rt: HostRuntime) {
    let alloc = rt.alloc();
    let events = [(0, ARRIVAL, 1), (1, ARRIVAL, 2), (2, ARRIVAL, 3)];
    // The second read comes after the three lines of the first one.
    let lines = b"arrive 0 1\narrive 1 2\narrive 2 3\n";
    let mut right = memory_gives(alloc, lines, 100, &[2], &events, READ_FAULT);
    // It comes for the rest of a line that the first one cut off.
    right = right && memory_gives(alloc, lines, 30, &[2], &events[..2], READ_FAULT);
    assert!(rt; right);
}
