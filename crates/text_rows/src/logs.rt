// Lines of the log.
ghost use Rattle.std.specs.Prelude.{◌≤◌};

use cap_io::{CleanSink, MemSink, Sink};
use cap_word::{SiteKey, Stop, TrapKind};
use schedule_log::{
    Averages, Entry, Item, LogError, LogWriter, PutError, StopLine, put_entry, read_entry,
};
use std::alloc::Global;

// One line of each kind, from the format's table.
const LINES: &[&[u8]] = &[
    b"event 100 arrive 0\n",
    b"event 7 data 63 -2147483648\n",
    b"drop 31 data 0 8\n",
    b"run 31 1 0\n",
    b"out 1 -107\n",
    b"block 1 2 0 16 1022\n",
    b"block 0 2 0<1<1<1<1<1<1<1 344 6\n",
    b"end 0 31 1022\n",
    b"edge 0 2 2 4096 0 0\n",
    b"edge 4 2 3 7680 0 -256\n",
    b"stop done\n",
    b"stop idle\n",
    b"stop trace 5\n",
    b"stop trap 0 index 44 1023\n",
    b"stop nochunk 0 43 0\n",
    b"stop fuel 0 16 1023\n",
    b"stop threads 0 1048560 1\n",
];

const OTHERS: &[&[u8]] = &[
    b"",
    b" ",
    b"stop",
    b"stop ",
    b"halt",
    b"run  31 1 0",
    b"run 31 1 0 ",
    b" run 31 1 0",
    b"run 31 1",
    b"run 031 1 0",
    b"run 31 1 0 0",
    b"run 31 1 4294967296",
    b"run 18446744073709551616 1 0",
    b"out 1 -0",
    b"out 1 2147483648",
    b"out 1 +7",
    b"edge 0 2 2 4096",
    b"edge 0 2 2 4096 1 2 3 4 5 6 7 8 9",
    b"block 0 2 1<2<3<4<5<6<7<8<9 344 6",
    b"block 0 2  344 6",
    b"block 0 2 1< 344 6",
    b"stop trap 0 stack 44 1023",
    b"stop done\n",
    b"event 5 data 8",
];

// Checks whether an entry is written as this line and a line feed.
fn is_put(alloc: Global, entry: &Entry, want: &[u8]) -> bool {
    let mut out = CleanSink::new(alloc);
    let put = put_entry(alloc, &mut out, entry).is_ok() && out.bytes() == want;
    drop(out);
    put
}

// Checks whether a line is read, and its entry is written as the same line.
fn comes_back(alloc: Global, line: &[u8]) -> bool {
    match line.split_last() {
        Some((_, text)) => match read_entry(text) {
            Ok(entry) => is_put(alloc, &entry, line),
            Err(LogError::Line) => false,
        },
        None => false,
    }
}

#[test]
fn each_line_is_read_and_printed_as_it_was(rt: HostRuntime) {
    let mut right = true;
    for line in LINES {
        right = right && comes_back(rt.alloc(), line);
    }
    assert!(rt; right);
}

#[test]
fn other_lines_are_refused(rt: HostRuntime) {
    let mut right = true;
    for line in OTHERS {
        right = right && read_entry(line).is_err();
    }
    assert!(rt; right);
}

const DROPPED: Entry = Entry::Dropped {
    clock: 18_446_744_073_709_551_615,
    item: Item::Data {
        channel: 3,
        value: -1,
    },
};

const CUT: Entry = Entry::Stop(StopLine::Cut {
    thread: 1,
    stop: Stop::Trap(TrapKind::Resource),
    cost: 2,
    free: 3,
});

#[test]
fn entries_have_the_lines_of_the_table(rt: HostRuntime) {
    let block = Entry::Block {
        thread: 4,
        node: 9,
        key: SiteKey::new(&[12, 3]),
        cost: 5,
        free: 6,
    };
    let edge = Entry::Edge {
        from: 1,
        to: 2,
        count: 3,
        cost: 768,
        changes: Averages::new(&[-256, 170_141_183_460_469_231_731_687_303_715_884_105_727]),
    };
    let alloc = rt.alloc();
    let right = is_put(alloc, &DROPPED, b"drop 18446744073709551615 data 3 -1\n")
        & is_put(alloc, &block, b"block 4 9 12<3 5 6\n")
        & is_put(
            alloc,
            &edge,
            b"edge 1 2 3 768 -256 170141183460469231731687303715884105727\n",
        )
        & is_put(alloc, &CUT, b"stop trap 1 resource 2 3\n");
    assert!(rt; right);
}

const END: Entry = Entry::End {
    thread: 0,
    cost: 31,
    free: 1022,
};

const END_LINE: &[u8] = b"end 0 31 1022\n";

// Checks whether a sink that takes `per_call` bytes a call and fails at call `failing` has a prefix of the line, and
// all of it if that call isn't made.
fn leaves_a_prefix(alloc: Global, per_call: u32, failing: u64) -> bool
    requires { 1 ≤ per_call }
{
    let Ok(fails) = Vec::from_slice(alloc, &[failing]) else {
        return false;
    };
    let calls = END_LINE.len().div_ceil(per_call as usize) as u64;
    let mut out = MemSink::new(alloc, per_call, fails);
    let answer = put_entry(alloc, &mut out, &END);
    let length = out.bytes().len();
    let prefix = END_LINE.starts_with(out.bytes());
    drop(out);
    match answer {
        Ok(()) => prefix && calls < failing && length == END_LINE.len(),
        Err(PutError::WriteFault) => prefix && failing <= calls,
        Err(PutError::Memory) => false,
    }
}

#[test]
fn a_failed_write_leaves_a_prefix(rt: HostRuntime) {
    let mut right = true;
    for failing in 1..=14 {
        for per_call in [1, 2, 100] {
            right = right && leaves_a_prefix(rt.alloc(), per_call, failing);
        }
    }
    assert!(rt; right);
}

/// The number of times that the lines go through a writer: 9,570 bytes, which are two of its buffers and a part of one.
const TIMES: u32 = 30;

// Returns the lines of the table, repeated.
fn long_log(alloc: Global) -> Option<Vec<u8>> {
    let mut text = Vec::new(alloc);
    for _ in 0..TIMES {
        for line in LINES {
            if text.extend_from_slice(line).is_err() {
                drop(text);
                return None;
            }
        }
    }
    Some(text)
}

// Writes the entries of the lines through a writer, repeated. Returns whether each was written and, if one wasn't, each
// later one and the end were refused too.
fn put_through<K: Sink>(alloc: Global, out: &mut K) -> Option<bool> {
    let Ok(mut writer) = LogWriter::new(alloc) else {
        return None;
    };
    let mut put = true;
    let mut lasts = true;
    for _ in 0..TIMES {
        for line in LINES {
            let answer = put_line(&mut writer, out, line);
            lasts = lasts && (put || !answer);
            put = put && answer;
        }
    }
    let finished = writer.finish(out).is_ok();
    if lasts && (put || !finished) {
        Some(finished)
    } else {
        None
    }
}

// Writes the entry of a line. Returns whether that succeeded.
fn put_line<K: Sink>(writer: &mut LogWriter, out: &mut K, line: &[u8]) -> bool {
    match line.split_last() {
        Some((_, text)) => match read_entry(text) {
            Ok(entry) => writer.put(out, &entry).is_ok(),
            Err(LogError::Line) => false,
        },
        None => false,
    }
}

// Checks whether a sink that takes `per_call` bytes a call and fails at call `failing`, 0 for none, has the whole long
// log, or `length` bytes of it if it failed.
fn leaves_of_log(alloc: Global, per_call: u32, failing: u64, length: Option<usize>) -> bool
    requires { 1 ≤ per_call }
{
    let Ok(fails) = Vec::from_slice(alloc, &[failing]) else {
        return false;
    };
    let mut out = MemSink::new(alloc, per_call, fails);
    let put = put_through(alloc, &mut out);
    let left = is_left(alloc, out.bytes(), length);
    drop(out);
    left && put == Some(length.is_none())
}

// Checks whether these bytes are the first `length` bytes of the long log, or all of it.
fn is_left(alloc: Global, bytes: &[u8], length: Option<usize>) -> bool {
    let Some(text) = long_log(alloc) else {
        return false;
    };
    let left = text.starts_with(bytes) && bytes.len() == length.unwrap_or(text.len());
    drop(text);
    left
}

#[test]
fn a_log_goes_through_a_writer_whole(rt: HostRuntime) {
    let mut right = true;
    for per_call in [1, 100, 4096, 100_000] {
        right = right && leaves_of_log(rt.alloc(), per_call, 0, None);
    }
    assert!(rt; right);
}

#[test]
fn each_write_of_a_log_may_fail(rt: HostRuntime) {
    let alloc = rt.alloc();
    let mut right = true;
    // A buffer of 4,096 bytes is three calls of 1,500 bytes, 1,500 and 1,096; the last has 1,378.
    for (failing, length) in FAILING {
        right = right && leaves_of_log(alloc, 1500, *failing, Some(*length));
    }
    right = right && leaves_of_log(alloc, 1500, 8, None);
    assert!(rt; right);
}

const FAILING: &[(u64, usize)] = &[
    (1, 0),
    (2, 1500),
    (3, 3000),
    (4, 4096),
    (5, 5596),
    (6, 7096),
    (7, 8192),
];
