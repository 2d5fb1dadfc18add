// Long sources, made of repeated parts.

use crate::lines::{first_part, number};
use std::alloc::{AllocError, Global};

// Appends the part `times` times.
fn repeat(text: &mut Vec<u8>, part: &[u8], times: usize) -> Result<(), AllocError> {
    for _ in 0..times {
        text.extend_from_slice(part)?;
    }
    Ok(())
}

// Appends the source that the parts describe, with `more` additional repetitions of the first repeated part.
fn build(text: &mut Vec<u8>, parts: &str, more: usize) -> Result<(), AllocError> {
    let (before, parts) = first_part(parts);
    let (part, parts) = first_part(parts);
    let (times, parts) = first_part(parts);
    let (middle, parts) = first_part(parts);
    let (end, after) = first_part(parts);
    let times = number(times).saturating_add(more);
    text.extend_from_slice(before.as_bytes())?;
    repeat(text, part.as_bytes(), times)?;
    text.extend_from_slice(middle.as_bytes())?;
    repeat(text, end.as_bytes(), times)?;
    text.extend_from_slice(after.as_bytes())
}

/// Returns the source of `before|part|times|middle|end|after`: `before`, `part` repeated `times` times, `middle`, `end`
/// repeated `times` times, and `after`; with `more` additional repetitions.
pub(crate) fn built(alloc: Global, parts: &str, more: usize) -> Result<Vec<u8>, AllocError> {
    let mut text = Vec::new(alloc);
    match build(&mut text, parts, more) {
        Ok(()) => Ok(text),
        Err(error) => {
            drop(text);
            Err(error)
        }
    }
}
