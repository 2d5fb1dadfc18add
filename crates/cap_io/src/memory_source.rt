// Sources in memory.
ghost use Rattle.std.specs.Prelude.{◌≡◌, ◌^◌, ◌<◌, ◌≤◌, length, min, Ok, Some, drop};
ghost use Rattle.std.specs.Io.KnownBytes.{ReadConsumes};
ghost use Rattle.cap_io.specs.Reads.{FillsPrefix, CountsReads};
ghost use Rattle.cap_io.specs.Memory.{ReadsMemory};

use super::copies::copy_front;
use super::{Failed, Source};
use std::marker::Model;

/// A source of given bytes that fails at given calls. Contracts see its contents: the bytes left, the maximum number of
/// bytes per call, the number of calls, the calls that fail, and the number of faults.
#[derive(Drop)]
pub struct MemSource {
    bytes: Vec<u8>,
    at: usize,
    per_call: u32,
    calls: u64,
    fails: Vec<u64>,
    faults: u64,
}

impl Model for MemSource {
    ghost use Rattle.std.specs.Prelude.{◌≤◌, vec_len, drop};
    ghost use Rattle.cap_io.specs.Memory.{SourceState};

    ghost Value = { SourceState };

    ghost view = { λ s. record { left = drop s.at s.bytes.items; per_call = s.per_call; calls = s.calls; fails = s.fails.items; faults = s.faults } };

    ghost invariant = { λ s. (s.at ≤ vec_len s.bytes) × (1 ≤ s.per_call) };
}

impl MemSource {
    /// Returns a source of `bytes` that provides at most `per_call` of them per call, at least 1, and fails at the
    /// calls that `fails` lists, counted from 1.
    pub fn new(bytes: Vec<u8>, per_call: u32, fails: Vec<u64>) -> Self
        requires { 1 ≤ per_call }
        ensures { result ≡ record { left = bytes.items; per_call = per_call; calls = 0; fails = fails.items; faults = 0 } }
    {
        MemSource {
            bytes,
            at: 0,
            per_call,
            calls: 0,
            fails,
            faults: 0,
        }
    }
}

impl Source for MemSource {
    ghost use Rattle.std.specs.Prelude.{Some};

    ghost faults = { λ s. s.faults };

    ghost left = { λ s. Some s.left };

    /// Reads bytes as the trait says; a call fails exactly if it is listed. Any other call provides the maximum number
    /// of bytes per call, or fewer if fewer are left or the buffer is shorter.
    fn read(&mut self, buf: &mut [u8]) -> Result<usize, Failed>
        ensures fills { FillsPrefix result buf.old buf.new }
        ensures bytes { ReadConsumes (Some self.old.left) (Some self.new.left) result buf.new }
        ensures counts { CountsReads result self.old.faults self.new.faults }
        ensures never_falls { self.old.faults ≤ self.new.faults }
        ensures fits { self.new.faults < 2 ^ 64 }
        ensures exact { ReadsMemory self.old self.new (length buf.old) result }
    {
        self.calls = self.calls.saturating_add(1);
        if self.fails.contains(&self.calls) {
            self.faults = self.faults.saturating_add(1);
            return Err(Failed);
        }
        let most = (self.per_call as usize).min(self.bytes.len() - self.at);
        let count = copy_front(&self.bytes[self.at..self.at + most], buf);
        self.at += count;
        Ok(count)
    }
}

/// A source of given bytes that never fails. Contracts see the bytes that are left.
#[derive(Drop)]
pub struct CleanSource {
    bytes: Vec<u8>,
    at: usize,
}

impl Model for CleanSource {
    ghost use Rattle.std.specs.Prelude.{ℕ, ◌≤◌, List, vec_len, drop};

    ghost Value = { List ℕ };

    ghost view = { λ s. drop s.at s.bytes.items };

    ghost invariant = { λ s. s.at ≤ vec_len s.bytes };
}

impl CleanSource {
    /// Returns a source of `bytes`.
    pub fn new(bytes: Vec<u8>) -> Self
        ensures { result ≡ bytes.items }
    {
        CleanSource { bytes, at: 0 }
    }
}

impl Source for CleanSource {
    ghost use Rattle.std.specs.Prelude.{Some};

    ghost faults = { λ _. 0 };

    ghost left = { λ s. Some s };

    /// Reads bytes as the trait says: all that are left, or as many as the buffer holds if it is shorter.
    fn read(&mut self, buf: &mut [u8]) -> Result<usize, Failed>
        ensures fills { FillsPrefix result buf.old buf.new }
        ensures bytes { ReadConsumes (Some self.old) (Some self.new) result buf.new }
        ensures never_fails { CountsReads result 0 0 }
        ensures exact { let n = min (length self.old) (length buf.old) in result ≡ Ok n × self.new ≡ drop n self.old }
    {
        let count = copy_front(&self.bytes[self.at..], buf);
        self.at += count;
        Ok(count)
    }
}
