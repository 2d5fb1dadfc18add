ghost use Rattle.std.specs.Prelude.{◌≡◌, ℕ, ◌+◌, ◌*◌, ◌^◌, ◌<◌, ◌≤◌, [], length, Some, None, Err, IfOk, OnOk, IfSome, IfNone, MatchResult, IsOkUnless};
ghost use Rattle.stack_image.specs.declared.images.Image.{Image};
ghost use Rattle.stack_image.specs.Spelling.{spelling, IsWithinLimits, HoldsWords};
ghost use Rattle.stack_image.specs.Refusal.{number_at, exceeded, refusal_of, code_size, globals_size, tables_size, entries_size, end_of, begins_as_image, length_refusal};
ghost use Rattle.stack_image.specs.Reading.{words_of, behind, image_of};

use crate::images::Image;
use crate::refusals::ImageError;
use cap_word::{Which, Words};
use std::alloc::{AllocError, Global};

const MAGIC: &[u8] = b"CAP1";

// The index of the first byte after the counts.
const HEADER_END: usize = 20;

// The numbers of words, as in the bytes.
#[derive(Clone, Copy)]
struct Sizes {
    code: u32,
    globals: u32,
    tables: u32,
    entries: u32,
}

// The word with lowest byte `at`.
#[tactic(auto, unfolding(crate::specs::Refusal::number_at))]
fn word_at(bytes: &[u8], at: usize) -> u32
    requires { at + 4 ≤ length bytes.now }
    ensures { result ≡ number_at bytes.now at }
{
    let piece = &bytes[at..at + 4];
    u32::from_le_bytes([piece[0], piece[1], piece[2], piece[3]])
}

fn begins_as_image(bytes: &[u8]) -> bool
    ensures { result ≡ begins_as_image bytes.now }
{
    MAGIC.starts_with(&bytes[..bytes.len().min(4)])
}

// The first limit that the numbers exceed.
fn exceeded(sizes: Sizes) -> Option<Which>
    ensures { result ≡ exceeded sizes.code sizes.globals sizes.tables sizes.entries }
{
    if sizes.code > 200_000 {
        Some(Which::Code)
    } else if sizes.globals > 65_536 {
        Some(Which::Globals)
    } else if sizes.tables > 65_536 {
        Some(Which::Tables)
    } else if sizes.entries > 4_096 {
        Some(Which::Entries)
    } else {
        None
    }
}

fn sizes_of(bytes: &[u8]) -> Sizes
    requires { 20 ≤ length bytes.now }
    ensures code { result.code ≡ code_size bytes.now }
    ensures globals { result.globals ≡ globals_size bytes.now }
    ensures tables { result.tables ≡ tables_size bytes.now }
    ensures entries { result.entries ≡ entries_size bytes.now }
{
    Sizes {
        code: word_at(bytes, 4),
        globals: word_at(bytes, 8),
        tables: word_at(bytes, 12),
        entries: word_at(bytes, 16),
    }
}

// The index of the first byte after the last word.
fn end_of(sizes: Sizes) -> usize
    ensures { result ≡ 20 + 4 * (sizes.code + sizes.globals + sizes.tables + sizes.entries) }
{
    let words = sizes.code as usize
        + sizes.globals as usize
        + sizes.tables as usize
        + sizes.entries as usize;
    HEADER_END + 4 * words
}

fn length_refusal(len: usize, end: usize) -> Option<ImageError>
    requires { end < 2 ^ 32 }
    ensures { result ≡ length_refusal len end }
{
    if len < end {
        Some(ImageError::Short { at: len as u32 })
    } else if end < len {
        Some(ImageError::Long { at: end as u32 })
    } else {
        None
    }
}

#[tactic(auto, unfolding(crate::specs::Refusal::refusal_of))]
fn refusal(bytes: &[u8]) -> Option<ImageError>
    ensures { result ≡ refusal_of bytes.now }
{
    if !begins_as_image(bytes) {
        return Some(ImageError::Magic);
    }
    if bytes.len() < HEADER_END {
        return Some(ImageError::Short {
            at: bytes.len() as u32,
        });
    }
    let sizes = sizes_of(bytes);
    if let Some(which) = exceeded(sizes) {
        return Some(ImageError::Limit { which });
    }
    length_refusal(bytes.len(), end_of(sizes))
}

// The first `count` words, and the bytes after them.
fn words_of(alloc: Global, count: u32, bytes: &[u8]) -> Result<(Words, &[u8]), AllocError>
    requires { 4 * count ≤ length bytes.now }
    ensures { IfOk result (λ read. (read.0 ≡ words_of count bytes.now)
        × (read.1.now ≡ behind count bytes.now)) }
{
    let count = count as usize;
    let mut words = Vec::with_capacity(alloc, count)?;
    match push_words(&mut words, count, bytes) {
        Ok(()) => Ok((Words::new(words), &bytes[4 * count..])),
        Err(error) => {
            drop(words);
            Err(error)
        }
    }
}

// Appends the first `count` words to an empty list.
fn push_words(words: &mut Vec<u32>, count: usize, bytes: &[u8]) -> Result<(), AllocError>
    requires empty { words.old.items ≡ [] }
    requires fits { 4 * count ≤ length bytes.now }
    ensures { OnOk result (words.new.items ≡ words_of count bytes.now) }
{
    for place in 0..count {
        words.push(word_at(bytes, 4 * place))?;
    }
    Ok(())
}

#[tactic(auto, unfolding(crate::specs::Reading::image_of))]
fn image_of(alloc: Global, bytes: &[u8]) -> Result<Image, AllocError>
    requires { length bytes.now ≡ end_of bytes.now }
    ensures { IfOk result (λ image. image ≡ image_of bytes.now) }
{
    let sizes = sizes_of(bytes);
    let (code, rest) = words_of(alloc, sizes.code, &bytes[HEADER_END..])?;
    let (globals, rest) = words_of(alloc, sizes.globals, rest)?;
    let (tables, rest) = words_of(alloc, sizes.tables, rest)?;
    let (entries, _rest) = words_of(alloc, sizes.entries, rest)?;
    Ok(Image {
        code,
        globals,
        tables,
        entries,
    })
}

/// Reads an image from all of the bytes. The format is Capriccio's own.
///
/// # Errors
///
/// The first of these that applies: `Magic` if the first four bytes, or all if there are fewer, aren't
/// the beginning of `CAP1`; `Short` at the length of the bytes if there are fewer than 20; `Limit` if
/// the code exceeds 200,000 words, the globals 65,536, the tables 65,536 or the entries 4,096, in this
/// order; `Short` at the length of the bytes if words are missing; `Long` at the first byte after the
/// last word. All other bytes are an image; reading them fails only with `Memory`, if an allocation
/// fails.
pub fn read_image(alloc: Global, bytes: &[u8]) -> Result<Image, ImageError>
    // The refusal, with its place. It is returned even if there is no memory.
    ensures refused { IfSome (refusal_of bytes.now) (λ refusal. result ≡ Err refusal) }
    ensures only_memory { IfNone (refusal_of bytes.now) (IsOkUnless result ImageError.Memory) }

    // The bytes are the spelling of the image.
    ensures spelled { IfOk result (λ image. bytes.now ≡ spelling image) }
    ensures limits { IfOk result IsWithinLimits }
    ensures words { IfOk result HoldsWords }

    // The spelling of an image is read as that image, unless an allocation fails.
    ensures again { (image : Image) → IsWithinLimits image → HoldsWords image → bytes.now ≡ spelling image →
        MatchResult result (λ read. read ≡ image) (λ error. error ≡ ImageError.Memory) }
{
    if let Some(refusal) = refusal(bytes) {
        return Err(refusal);
    }
    Ok(image_of(alloc, bytes)?)
}
