// The reader of a trace.
ghost use Rattle.std.specs.Prelude.{◌≡◌, [], ◌≤◌, IfErr, IfOk, IfSome, Err, None};
ghost use Rattle.event_trace.specs.Gathering.{LeavesTail};
ghost use Rattle.event_trace.specs.Lines.{FitsEvent, HasWholeLine};
ghost use Rattle.event_trace.specs.Reader.{NextTold, NamesNext, KeepsCount, KeepsRefusal, CountsNext};

use super::blocks::Block;
use super::gathering::{Ending, MOST_BYTES, read_line};
use super::parsing::parse_line;
use super::{Event, TraceError};
use cap_io::Source;
use std::alloc::{AllocError, Global};
use std::marker::Model;

/// The maximum number of lines of a trace.
const MOST_LINES: u32 = 1_000_000;

/// Reads the events of a trace, one after another, in blocks of up to 4,096 bytes from the source. Contracts see the
/// bytes that it took from the source and hasn't returned yet, the number of lines that it returned, the last time, and
/// the refusal, if there was one.
#[derive(Drop)]
pub struct TraceReader {
    line: Vec<u8>,
    block: Block,
    lines: u32,
    last: u64,
    refused: Option<TraceError>,
}

impl Model for TraceReader {
    ghost use Rattle.std.specs.Prelude.{◌≤◌, vec_capacity};
    ghost use Rattle.event_trace.specs.Reader.{ReaderState};

    ghost Value = { ReaderState };

    ghost view = { λ r. record { held = r.block; lines = r.lines; last = r.last; refused = r.refused } };

    ghost invariant = { λ r. (64 ≤ vec_capacity r.line) × (r.lines ≤ 1000000) };
}

impl TraceReader {
    /// Returns a reader at the start of a trace. It allocates a line and a block.
    pub fn new(alloc: Global) -> Result<TraceReader, AllocError>
        ensures { IfOk result (λ reader. reader ≡ record { held = []; lines = 0; last = 0; refused = None }) }
    {
        let block = Block::new(alloc)?;
        Ok(TraceReader {
            line: Vec::with_capacity(alloc, MOST_BYTES)?,
            block,
            lines: 0,
            last: 0,
            refused: None,
        })
    }

    /// Returns the next event of the buffered bytes followed by those of the source, and `None` exactly at their end.
    /// An event's time is at most 10^15 and not below the last, and its channel is at most 63, even if the source
    /// doesn't expose its bytes. At every result the reader has returned at most 1,000,000 lines, and the source has a
    /// suffix of its bytes left. It doesn't read from the source if a whole line is buffered, and it doesn't allocate.
    ///
    /// # Errors
    ///
    /// `Line` exactly if the next line isn't an event, or is line 1,000,001; `Order` exactly if its time is below the
    /// last; `ReadFault` only if the source's count of faults rose in this call, or is at its maximum. `Line` and `Order`
    /// have the number of the line after those that the reader returned. After a refusal the reader returns the same
    /// refusal again and doesn't read.
    pub fn next<S: Source>(&mut self, source: &mut S) -> Result<Option<Event>, TraceError>
        ensures again { IfSome self.old.refused (λ refusal. result ≡ Err refusal × self.new ≡ self.old × source.new ≡ source.old) }
        ensures told { self.old.refused ≡ None → NextTold self.old self.new (S.left source.old) (S.left source.new) result }
        ensures fits { IfOk result (λ answer. IfSome answer (λ event. FitsEvent event × (self.old.last ≤ event.time))) }
        ensures tail { LeavesTail (S.left source.old) (S.left source.new) }
        ensures kept { self.old.refused ≡ None → KeepsRefusal self.old self.new result }
        ensures numbered { self.old.refused ≡ None → IfErr result (NamesNext self.old.lines) }
        ensures counted { self.new.lines ≤ 1000000 }
        ensures idle { HasWholeLine self.old.held → source.new ≡ source.old }
        ensures counts { self.old.refused ≡ None → CountsNext result (S.faults source.old) (S.faults source.new) }
        ensures never_falls { S.faults source.old ≤ S.faults source.new }
    {
        if let Some(refusal) = self.refused {
            return Err(refusal);
        }
        let answer = self.read_event(source);
        if let Err(refusal) = answer {
            self.refused = Some(refusal);
        }
        answer
    }

    /// Returns the next event, ignoring an earlier refusal.
    fn read_event<S: Source>(&mut self, source: &mut S) -> Result<Option<Event>, TraceError>
        ensures told { NextTold self.old self.new (S.left source.old) (S.left source.new) result }
        ensures fits { IfOk result (λ answer. IfSome answer (λ event. FitsEvent event × (self.old.last ≤ event.time))) }
        ensures tail { LeavesTail (S.left source.old) (S.left source.new) }
        ensures kept { KeepsCount self.old self.new result }
        ensures numbered { IfErr result (NamesNext self.old.lines) }
        ensures counted { self.new.lines ≤ 1000000 }
        ensures idle { HasWholeLine self.old.held → source.new ≡ source.old }
        ensures counts { CountsNext result (S.faults source.old) (S.faults source.new) }
        ensures never_falls { S.faults source.old ≤ S.faults source.new }
    {
        let number = self.lines + 1;
        let Ok(ending) = read_line(&mut self.line, &mut self.block, source) else {
            return Err(TraceError::ReadFault);
        };
        match ending {
            Ending::End => return Ok(None),
            Ending::TooLong => return Err(TraceError::Line { number }),
            Ending::Line => {}
        }
        if number > MOST_LINES {
            return Err(TraceError::Line { number });
        }
        let Some(event) = parse_line(&self.line) else {
            return Err(TraceError::Line { number });
        };
        let earlier = self.last;
        let time = event.time;
        if time < earlier {
            return Err(TraceError::Order {
                number,
                time,
                earlier,
            });
        }
        self.lines = number;
        self.last = time;
        Ok(Some(event))
    }
}
