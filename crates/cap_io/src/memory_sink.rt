// Sinks in memory.
ghost use Rattle.std.specs.Prelude.{◌≡◌, ◌^◌, ◌<◌, ◌≤◌, [], length, IfOk, OnErr, Some, ◌++◌};
ghost use Rattle.std.specs.Io.KnownBytes.{WriteAppends};
ghost use Rattle.cap_io.specs.Writes.{CountsWrites};
ghost use Rattle.cap_io.specs.Memory.{WritesMemory};

use super::{Sink, SinkError};
use std::alloc::Global;
use std::marker::Model;

/// A sink that keeps the bytes it takes and fails at given calls. Contracts see its contents: the bytes taken, the
/// maximum number of bytes per call, the number of calls, the calls that fail, and the number of faults.
#[derive(Drop)]
pub struct MemSink {
    bytes: Vec<u8>,
    per_call: u32,
    calls: u64,
    fails: Vec<u64>,
    faults: u64,
}

impl Model for MemSink {
    ghost use Rattle.std.specs.Prelude.{◌≤◌};
    ghost use Rattle.cap_io.specs.Memory.{SinkState};

    ghost Value = { SinkState };

    ghost view = { λ s. record { taken = s.bytes.items; per_call = s.per_call; calls = s.calls; fails = s.fails.items; faults = s.faults } };

    ghost invariant = { λ s. 1 ≤ s.per_call };
}

impl MemSink {
    /// Returns an empty sink that takes at most `per_call` bytes per call, at least 1, and fails at the calls that
    /// `fails` lists, counted from 1. It doesn't allocate.
    pub fn new(alloc: Global, per_call: u32, fails: Vec<u64>) -> Self
        requires { 1 ≤ per_call }
        ensures { result ≡ record { taken = []; per_call = per_call; calls = 0; fails = fails.items; faults = 0 } }
    {
        MemSink {
            bytes: Vec::new(alloc),
            per_call,
            calls: 0,
            fails,
            faults: 0,
        }
    }

    /// Returns the bytes taken.
    pub fn bytes(&self) -> &[u8]
        ensures { result.now ≡ self.now.taken }
    {
        self.bytes.as_slice()
    }
}

impl Sink for MemSink {
    ghost use Rattle.std.specs.Prelude.{Some};

    ghost faults = { λ s. s.faults };

    ghost taken = { λ s. Some s.taken };

    /// Takes bytes as the trait says; a call fails exactly if it is listed. Any other call takes the maximum number of
    /// bytes per call, or the whole piece if it is shorter, if there is memory for them.
    fn write(&mut self, piece: &[u8]) -> Result<usize, SinkError>
        ensures bound { IfOk result (λ n. n ≤ length piece.now) }
        ensures bytes { WriteAppends (Some self.old.taken) (Some self.new.taken) result piece.now }
        ensures counts { CountsWrites result (length piece.now) self.old.faults self.new.faults }
        ensures never_falls { self.old.faults ≤ self.new.faults }
        ensures fits { self.new.faults < 2 ^ 64 }
        ensures exact { WritesMemory self.old self.new piece.now result }
    {
        self.calls = self.calls.saturating_add(1);
        if self.fails.contains(&self.calls) {
            self.faults = self.faults.saturating_add(1);
            return Err(SinkError::Failed);
        }
        let count = (self.per_call as usize).min(piece.len());
        if self.bytes.extend_from_slice(&piece[..count]).is_err() {
            return Err(SinkError::Memory);
        }
        Ok(count)
    }
}

/// A sink that keeps the bytes it takes and never fails. Contracts see the bytes taken.
#[derive(Drop)]
pub struct CleanSink {
    bytes: Vec<u8>,
}

impl Model for CleanSink {
    ghost use Rattle.std.specs.Prelude.{ℕ, List};

    ghost Value = { List ℕ };

    ghost view = { λ s. s.bytes.items };
}

impl CleanSink {
    /// Returns an empty sink. It doesn't allocate.
    pub fn new(alloc: Global) -> Self
        ensures { result ≡ [] }
    {
        CleanSink {
            bytes: Vec::new(alloc),
        }
    }

    /// Returns the bytes taken.
    pub fn bytes(&self) -> &[u8]
        ensures { result.now ≡ self.now }
    {
        self.bytes.as_slice()
    }
}

impl Sink for CleanSink {
    ghost use Rattle.std.specs.Prelude.{Some};

    ghost faults = { λ _. 0 };

    ghost taken = { λ s. Some s };

    /// Takes bytes as the trait says: the whole piece, if there is memory for it.
    fn write(&mut self, piece: &[u8]) -> Result<usize, SinkError>
        ensures bound { IfOk result (λ n. n ≤ length piece.now) }
        ensures bytes { WriteAppends (Some self.old) (Some self.new) result piece.now }
        ensures never_fails { CountsWrites result (length piece.now) 0 0 }
        ensures ok { IfOk result (λ n. n ≡ length piece.now × self.new ≡ self.old ++ piece.now) }
        ensures err { OnErr result (self.new ≡ self.old) }
    {
        if self.bytes.extend_from_slice(piece).is_err() {
            return Err(SinkError::Memory);
        }
        Ok(piece.len())
    }
}
