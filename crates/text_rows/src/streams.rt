// The calls of each form through the traits, at concrete types and with ample memory.
ghost use Rattle.std.specs.Prelude.{◌≤◌, IfOk};

use cap_io::{
    CleanShelf, CleanSink, CleanSource, DirShelf, Failed, MemShelf, MemSink, MemSource, Shelf,
    ShelfError, Sink, SinkError, Source, StdSink, StdSource, put_all,
};
use std::alloc::{AllocError, Global};
use std::fs::File;
use std::io;
use std::io::{ErrorKind, Read, Write};
use std::test::Fail;

/// Checks whether a source returns these bytes, in reads of at most `room` up to the end, with `failures` failures,
/// each of which is retried.
fn gives<S: Source>(alloc: Global, source: &mut S, room: usize, want: &[u8], failures: u32) -> bool
    requires { room ≤ 16 }
{
    let mut bytes = Vec::new(alloc);
    let mut failed = 0u32;
    let mut kept = true;
    let mut block = [0u8; 16];
    for _ in 0..100 {
        match source.read(&mut block[..room]) {
            Ok(0) => break,
            Ok(count) => kept = kept && bytes.extend_from_slice(&block[..count]).is_ok(),
            Err(Failed) => failed = failed.saturating_add(1),
        }
    }
    let same = bytes.as_slice() == want;
    drop(bytes);
    kept && same && failed == failures
}

const LETTERS: &[u8] = b"abcdefgh";

/// Checks whether a source in memory that returns `per_call` bytes a call and fails at these two calls does so.
fn memory_gives(alloc: Global, per_call: u32, fails: [u64; 2], room: usize, failures: u32) -> bool
    requires call { 1 ≤ per_call }
    requires room { room ≤ 16 }
{
    let Ok(bytes) = Vec::from_slice(alloc, LETTERS) else {
        return false;
    };
    let Ok(fails) = Vec::from_slice(alloc, &fails) else {
        drop(bytes);
        return false;
    };
    let mut source = MemSource::new(bytes, per_call, fails);
    let right = gives(alloc, &mut source, room, LETTERS, failures);
    drop(source);
    right
}

fn clean_gives(alloc: Global) -> bool {
    let Ok(bytes) = Vec::from_slice(alloc, LETTERS) else {
        return false;
    };
    let mut source = CleanSource::new(bytes);
    let right = gives(alloc, &mut source, 5, LETTERS, 0);
    drop(source);
    right
}

#[test]
fn sources_give_their_bytes(rt: HostRuntime) {
    let alloc = rt.alloc();
    // The bytes of a call, the calls that fail, the size of a read, and the number of failures.
    let right = memory_gives(alloc, 1, [0, 0], 16, 0)
        & memory_gives(alloc, 3, [1, 3], 1, 2)
        & memory_gives(alloc, 3, [2, 2], 5, 1)
        & memory_gives(alloc, 100, [1, 2], 16, 2)
        & memory_gives(alloc, 8, [9, 9], 5, 0)
        & memory_gives(alloc, 8, [9, 9], 1, 1)
        & clean_gives(alloc);
    assert!(rt; right);
}

const DONE: u32 = 0;

const FAILED: u32 = 1;

fn number_of(answer: Result<(), SinkError>) -> u32 {
    match answer {
        Ok(()) => DONE,
        Err(SinkError::Failed) => FAILED,
        Err(SinkError::Memory) => 2,
    }
}

/// Writes two pieces, and returns the result of each.
fn put_two<K: Sink>(out: &mut K) -> (u32, u32) {
    let first = number_of(put_all(out, b"abcde"));
    let second = number_of(put_all(out, b"xyz"));
    (first, second)
}

/// Checks whether a sink in memory that takes `per_call` bytes a call and fails at these two calls takes both pieces
/// like this.
fn memory_takes(
    alloc: Global,
    per_call: u32,
    fails: [u64; 2],
    want: (u32, u32),
    bytes: &[u8],
) -> bool
    requires { 1 ≤ per_call }
{
    let Ok(fails) = Vec::from_slice(alloc, &fails) else {
        return false;
    };
    let mut sink = MemSink::new(alloc, per_call, fails);
    let right = put_two(&mut sink) == want && sink.bytes() == bytes;
    drop(sink);
    right
}

fn clean_takes(alloc: Global) -> bool {
    let mut sink = CleanSink::new(alloc);
    let right = put_two(&mut sink) == (DONE, DONE) && sink.bytes() == b"abcdexyz".as_slice();
    drop(sink);
    right
}

#[test]
fn sinks_take_whole_pieces(rt: HostRuntime) {
    let alloc = rt.alloc();
    let right = memory_takes(alloc, 2, [0, 0], (DONE, DONE), b"abcdexyz")
        & memory_takes(alloc, 2, [2, 4], (FAILED, FAILED), b"abxy")
        & memory_takes(alloc, 100, [1, 0], (FAILED, DONE), b"xyz")
        & clean_takes(alloc);
    assert!(rt; right);
}

/// Checks whether a file has these bytes, with a maximum size of `most`.
fn has<H: Shelf>(alloc: Global, shelf: &mut H, name: &str, most: u32, want: &[u8]) -> bool {
    match shelf.load(alloc, name, most) {
        Ok(bytes) => {
            let same = bytes.as_slice() == want;
            drop(bytes);
            same
        }
        Err(_) => false,
    }
}

/// Checks whether a load of at most 8 bytes fails like this.
fn is_refused<H: Shelf>(alloc: Global, shelf: &mut H, name: &str, want: ShelfError) -> bool {
    match shelf.load(alloc, name, 8) {
        Ok(bytes) => {
            drop(bytes);
            false
        }
        Err(error) => error == want,
    }
}

fn stores<H: Shelf>(alloc: Global, shelf: &mut H, name: &str, bytes: &[u8]) -> bool {
    shelf.store(alloc, name, bytes).is_ok()
}

fn store_fails<H: Shelf>(alloc: Global, shelf: &mut H, name: &str, bytes: &[u8]) -> bool {
    shelf.store(alloc, name, bytes) == Err(ShelfError::Failed)
}

fn file(alloc: Global, name: &str, bytes: &[u8]) -> Result<(String, Vec<u8>), AllocError> {
    Ok((String::from_str(alloc, name)?, bytes.to_vec(alloc)?))
}

fn files(alloc: Global) -> Result<Vec<(String, Vec<u8>)>, AllocError> {
    let eight = file(alloc, "cap_io_eight", b"12345678")?;
    let nine = file(alloc, "cap_io_nine", b"123456789")?;
    Ok(vec![in alloc; eight, nine]?)
}

/// Checks a shelf of `files` that doesn't fail: loads, stores over one of its files and in a new one, and loads again.
fn keeps_files<H: Shelf>(alloc: Global, shelf: &mut H) -> bool {
    has(alloc, shelf, "cap_io_eight", 8, b"12345678")
        & has(alloc, shelf, "cap_io_nine", 9, b"123456789")
        & is_refused(alloc, shelf, "cap_io_nine", ShelfError::TooLong)
        & is_refused(alloc, shelf, "cap_io_none", ShelfError::Absent)
        & stores(alloc, shelf, "cap_io_eight", b"new")
        & stores(alloc, shelf, "cap_io_none", b"")
        & has(alloc, shelf, "cap_io_eight", 8, b"new")
        & has(alloc, shelf, "cap_io_none", 8, b"")
}

fn memory_keeps_files(alloc: Global) -> bool {
    let Ok(files) = files(alloc) else {
        return false;
    };
    let mut shelf = MemShelf::new(alloc, files, Vec::new(alloc));
    let right = keeps_files(alloc, &mut shelf);
    drop(shelf);
    right
}

fn clean_keeps_files(alloc: Global) -> bool {
    let Ok(files) = files(alloc) else {
        return false;
    };
    let mut shelf = CleanShelf::new(alloc, files);
    let right = keeps_files(alloc, &mut shelf);
    drop(shelf);
    right
}

/// Returns a shelf in memory that fails at its first call, and stores 2 bytes of its third and all of its fourth.
fn failing_shelf(alloc: Global) -> Result<MemShelf, AllocError> {
    let fails = vec![in alloc; (1, 0), (3, 2), (4, 9)]?;
    Ok(MemShelf::new(alloc, files(alloc)?, fails))
}

fn fails_where_it_is_told(alloc: Global) -> bool {
    let Ok(mut shelf) = failing_shelf(alloc) else {
        return false;
    };
    let right = is_refused(alloc, &mut shelf, "cap_io_none", ShelfError::Failed)
        & has(alloc, &mut shelf, "cap_io_eight", 8, b"12345678")
        & store_fails(alloc, &mut shelf, "cap_io_eight", b"abc")
        & store_fails(alloc, &mut shelf, "cap_io_none", b"abc")
        & has(alloc, &mut shelf, "cap_io_eight", 8, b"ab")
        & has(alloc, &mut shelf, "cap_io_none", 8, b"abc");
    drop(shelf);
    right
}

#[test]
fn shelves_keep_files(rt: HostRuntime) {
    let alloc = rt.alloc();
    assert!(rt;
        memory_keeps_files(alloc) & clean_keeps_files(alloc) & fails_where_it_is_told(alloc)
    );
}

/// A stream whose second call fails, and which takes at most three bytes a call, and none at its fourth.
#[derive(Drop)]
struct Flaky {
    calls: u32,
}

impl Flaky {
    fn count(&mut self, room: usize) -> io::Result<usize>
        ensures { IfOk result (λ n. n ≤ room) }
    {
        self.calls = self.calls.saturating_add(1);
        match self.calls {
            2 => Err(io::Error::from(ErrorKind::BrokenPipe)),
            4 => Ok(0),
            _ => Ok(room.min(3)),
        }
    }
}

impl Read for Flaky {
    fn read(&mut self, buf: &mut [u8]) -> io::Result<usize> {
        let count = self.count(buf.len())?;
        buf.fill(b'z');
        Ok(count)
    }
}

impl Write for Flaky {
    fn write(&mut self, buf: &[u8]) -> io::Result<usize> {
        self.count(buf.len())
    }

    fn flush(&mut self) -> io::Result<()> {
        Ok(())
    }
}

#[test]
fn streams_fail_and_go_on(rt: HostRuntime) {
    let mut source = StdSource::new(Flaky { calls: 0 });
    let mut block = *b"......";
    let mut right = source.read(&mut block[..2]) == Ok(2) && block == *b"zz....";
    right = right && source.read(&mut block) == Err(Failed) && source.read(&mut block) == Ok(3);
    right = right && source.read(&mut block) == Ok(0) && block == *b"zzz...";
    let mut sink = StdSink::new(Flaky { calls: 0 });
    right = right && sink.write(b"abcdef") == Ok(3);
    right = right && put_two(&mut sink) == (FAILED, DONE) && put_two(&mut sink) == (FAILED, DONE);
    assert!(rt; right);
}

#[test]
fn the_present_folder_keeps_files(rt: HostRuntime) -> Result<(), Fail> {
    let alloc = rt.alloc();
    let mut shelf = DirShelf::new(rt);
    let right = stores(alloc, &mut shelf, "cap_io_eight", b"12345678")
        & stores(alloc, &mut shelf, "cap_io_nine", b"123456789")
        & keeps_files(alloc, &mut shelf)
        & is_refused(alloc, &mut shelf, ".", ShelfError::Failed)
        & is_refused(alloc, &mut shelf, "cap_io_eight/x", ShelfError::Failed)
        & store_fails(alloc, &mut shelf, ".", b"");
    assert!(rt; right);
    for name in ["cap_io_eight", "cap_io_nine", "cap_io_none"] {
        std::fs::remove_file(&rt, name)?;
    }
    Ok(())
}

#[test]
fn files_are_streams(rt: HostRuntime) -> Result<(), Fail> {
    let mut sink = StdSink::new(File::create(&rt, "cap_io_stream")?);
    let mut right = put_two(&mut sink) == (DONE, DONE);
    drop(sink);
    let mut source = StdSource::new(File::open(&rt, "cap_io_stream")?);
    right = right && gives(rt.alloc(), &mut source, 3, b"abcdexyz", 0);
    drop(source);
    assert!(rt; right);
    std::fs::remove_file(&rt, "cap_io_stream")?;
    Ok(())
}
