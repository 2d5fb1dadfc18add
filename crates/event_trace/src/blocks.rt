// The bytes of a source, read block by block and returned one by one.
ghost use Rattle.std.specs.Prelude.{◌≡◌, [], ◌∷◌, ◌<◌, ◌≤◌, length, MatchOption, IfOk, IfNone};
ghost use Rattle.std.specs.Io.KnownBytes.{prepend_known};
ghost use Rattle.event_trace.specs.Blocks.{FillsBlock, GivesByte, GivesHeld};
ghost use Rattle.event_trace.specs.Gathering.{LeavesTail, CountsFaults};

use cap_io::{Failed, Source};
use std::alloc::{AllocError, Global};
use std::marker::Model;

/// The maximum number of bytes of a block.
const BLOCK_BYTES: usize = 4096;

/// The bytes of a read that haven't been returned yet, in a buffer. Contracts see these bytes.
#[derive(Drop)]
pub(crate) struct Block {
    bytes: Vec<u8>,
    start: usize,
    end: usize,
}

impl Model for Block {
    ghost use Rattle.std.specs.Prelude.{ℕ, ◌≡◌, ◌≤◌, List, take, drop, vec_len};

    ghost Value = { List ℕ };

    ghost view = { λ b. drop b.start (take b.end b.bytes.items) };

    ghost invariant = { λ b. (b.start ≤ b.end) × (b.end ≤ 4096) × (vec_len b.bytes ≡ 4096) };
}

impl Block {
    /// Returns an empty block with room for a whole one.
    pub(crate) fn new(alloc: Global) -> Result<Block, AllocError>
        ensures { IfOk result (λ block. block ≡ []) }
    {
        Ok(Block {
            bytes: vec![in alloc; 0; BLOCK_BYTES]?,
            start: 0,
            end: 0,
        })
    }

    /// Returns the next byte, from the buffer or else from the source; `None` at the end. It reads only if the
    /// buffer is empty.
    pub(crate) fn next_byte<S: Source>(&mut self, source: &mut S) -> Result<Option<u8>, Failed>
        ensures bytes { GivesByte (prepend_known self.old (S.left source.old)) (prepend_known self.new (S.left source.new)) result }
        ensures held { 0 < length self.old → GivesHeld self.old self.new result × source.new ≡ source.old }
        ensures end { IfOk result (λ byte. IfNone byte ((self.old ≡ []) × (self.new ≡ []))) }
        ensures tail { LeavesTail (S.left source.old) (S.left source.new) }
        ensures counts { CountsFaults result (S.faults source.old) (S.faults source.new) }
        ensures never_falls { S.faults source.old ≤ S.faults source.new }
    {
        if let Some(byte) = self.take() {
            return Ok(Some(byte));
        }
        self.fill(source)?;
        Ok(self.take())
    }

    /// Removes the first byte of the buffer and returns it.
    fn take(&mut self) -> Option<u8>
        ensures { MatchOption result ((self.old ≡ []) × (self.new ≡ [])) (λ byte. self.old ≡ byte ∷ self.new) }
    {
        if self.start == self.end {
            return None;
        }
        let byte = self.bytes[self.start];
        self.start += 1;
        Some(byte)
    }

    /// Reads a block into the buffer, and replaces its contents.
    fn fill<S: Source>(&mut self, source: &mut S) -> Result<(), Failed>
        ensures bytes { FillsBlock (S.left source.old) (S.left source.new) self.new result }
        ensures counts { CountsFaults result (S.faults source.old) (S.faults source.new) }
        ensures never_falls { S.faults source.old ≤ S.faults source.new }
    {
        let count = source.read(&mut self.bytes)?;
        self.start = 0;
        self.end = count;
        Ok(())
    }
}
