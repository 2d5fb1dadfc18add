use cap_text::{Fields, Lines};
use std::alloc::{AllocError, Global};

/// The size of a function's frame in bytes, and its bound: the maximum number of bytes of a path of calls from it that
/// passes no checkpoint.
#[derive(Clone, Copy)]
pub(crate) struct Measure {
    pub(crate) frame: u64,
    pub(crate) bound: u64,
}

/// Returns the measures of all functions of an analysis, by number.
pub(crate) fn measures_in(alloc: Global, analysis: &[u8]) -> Result<Vec<Measure>, AllocError> {
    let mut measures = Vec::new(alloc);
    for line in Lines::new(analysis) {
        if let Some(measure) = measure_of(line) {
            measures.push(measure)?;
        }
    }
    Ok(measures)
}

/// Returns the measure in the line `function I NAME frame F bound B`, or `None` for another line.
fn measure_of(line: &[u8]) -> Option<Measure> {
    let mut fields = Fields::new(line, b' ');
    if fields.next()? != b"function".as_slice() {
        return None;
    }
    fields.next()?;
    fields.next()?;
    fields.next()?;
    let frame = fields.count()?;
    fields.next()?;
    let bound = fields.count()?;
    Some(Measure { frame, bound })
}
