use crate::failures::Failure;
use cap_io::Source;
use cap_text::{Fields, Lines};
use report_figures::TickList;
use std::alloc::{AllocError, Global};

/// The maximum size of a trace that is read, in bytes.
const MOST_BYTES: usize = 1_073_741_824;

/// The trace of a run.
#[derive(Drop)]
pub struct Trace {
    /// The bytes of the trace.
    pub bytes: Vec<u8>,
    /// The times of its events, in order, up to the first line without one.
    pub times: TickList,
}

impl Trace {
    /// Reads the trace from a source.
    pub fn read<S: Source>(alloc: Global, source: &mut S) -> Result<Trace, Failure> {
        let mut trace = Trace {
            bytes: Vec::new(alloc),
            times: TickList::new(alloc),
        };
        match trace.take_all(source) {
            Ok(()) => Ok(trace),
            Err(failure) => {
                drop(trace);
                Err(failure)
            }
        }
    }

    /// Reads all bytes of a source, and the times in them.
    fn take_all<S: Source>(&mut self, source: &mut S) -> Result<(), Failure> {
        let mut block = [0u8; 4096];
        for _ in 0..u64::MAX {
            let Ok(count) = source.read(&mut block) else {
                return Err(Failure::Read);
            };
            if count == 0 {
                return self.note_times();
            }
            if self.bytes.len() > MOST_BYTES {
                return Err(Failure::Memory);
            }
            if self.bytes.extend_from_slice(&block[..count]).is_err() {
                return Err(Failure::Memory);
            }
        }
        self.note_times()
    }

    /// Collects the times.
    fn note_times(&mut self) -> Result<(), Failure> {
        for line in Lines::new(self.bytes.as_slice()) {
            match time_of(line) {
                Some(time) => self.times.push(time)?,
                None => return Ok(()),
            }
        }
        Ok(())
    }
}

/// Returns the time of the event on a line: its second field.
fn time_of(line: &[u8]) -> Option<u64> {
    let mut fields = Fields::new(line, b' ');
    fields.next()?;
    fields.count()
}
