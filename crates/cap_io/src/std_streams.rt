// Sources and sinks over the streams of the standard library.
ghost use Rattle.std.specs.Prelude.{◌≡◌};

use super::{Failed, Sink, SinkError, Source};
use std::io::{Read, Write};
use std::marker::Model;

/// A source over a stream of the system, such as standard input. It doesn't expose its bytes. Contracts see its count
/// of faults, which rises at each error of the stream, an interrupted call included.
#[derive(Drop)]
pub struct StdSource<R: Read + Drop> {
    stream: R,
    faults: u64,
}

impl<R: Read + Drop> Model for StdSource<R> {
    ghost use Rattle.std.specs.Prelude.{ℕ, ◌<◌, ◌^◌};

    ghost Value = { ℕ };

    ghost view = { λ s. s.faults };

    ghost invariant = { λ s. s.faults < 2 ^ 64 };
}

impl<R: Read + Drop> StdSource<R> {
    /// Returns a source over that stream, with no faults so far.
    pub fn new(stream: R) -> Self
        ensures { result ≡ 0 }
    {
        StdSource { stream, faults: 0 }
    }
}

impl<R: Read + Drop> Source for StdSource<R> {
    ghost use Rattle.std.specs.Prelude.{None};

    ghost faults = { λ s. s };

    ghost left = { λ _. None };

    // The stream reads into a separate block, so a failed read leaves `buf` unchanged.
    fn read(&mut self, buf: &mut [u8]) -> Result<usize, Failed> {
        let mut block = [0u8; 4096];
        let room = buf.len().min(block.len());
        let Ok(count) = self.stream.read(&mut block[..room]) else {
            self.faults = self.faults.saturating_add(1);
            return Err(Failed);
        };
        buf[..count].copy_from_slice(&block[..count]);
        Ok(count)
    }
}

/// A sink over a stream of the system, such as standard output. It doesn't expose its bytes. Contracts see its count
/// of faults, which rises at each error of the stream, and if the stream takes nothing of a piece that isn't empty.
#[derive(Drop)]
pub struct StdSink<W: Write + Drop> {
    stream: W,
    faults: u64,
}

impl<W: Write + Drop> Model for StdSink<W> {
    ghost use Rattle.std.specs.Prelude.{ℕ, ◌<◌, ◌^◌};

    ghost Value = { ℕ };

    ghost view = { λ s. s.faults };

    ghost invariant = { λ s. s.faults < 2 ^ 64 };
}

impl<W: Write + Drop> StdSink<W> {
    /// Returns a sink over that stream, with no faults so far.
    pub fn new(stream: W) -> Self
        ensures { result ≡ 0 }
    {
        StdSink { stream, faults: 0 }
    }
}

impl<W: Write + Drop> Sink for StdSink<W> {
    ghost use Rattle.std.specs.Prelude.{None};

    ghost faults = { λ s. s };

    ghost taken = { λ _. None };

    fn write(&mut self, piece: &[u8]) -> Result<usize, SinkError> {
        match self.stream.write(piece) {
            Ok(count) if count > 0 || piece.is_empty() => Ok(count),
            _ => {
                self.faults = self.faults.saturating_add(1);
                Err(SinkError::Failed)
            }
        }
    }
}
