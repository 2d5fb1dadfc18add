ghost use Rattle.std.specs.Prelude.{◌≡◌, ◌++◌, ◌^◌, ◌<◌, length, IfOk, OnOk, All};
ghost use Rattle.stack_image.specs.Spelling.{words, sizes, spelling, IsWithinLimits, HoldsWords};

use crate::images::Image;
use std::alloc::{AllocError, Global};

// Appends the words, each as four bytes, least significant byte first.
fn put_words(bytes: &mut Vec<u8>, added: &[u32]) -> Result<(), AllocError>
    ensures added { OnOk result (bytes.new.items ≡ bytes.old.items ++ words added.now) }
    ensures words { All (λ word. word < 2 ^ 32) added.now }
{
    for word in added {
        bytes.extend_from_slice(&word.to_le_bytes())?;
    }
    Ok(())
}

/// Returns the bytes of an image, its one spelling, from which `read_image` reads it: `CAP1`, the
/// numbers of code, global, table and entry words, and those words, all little-endian. The image keeps
/// the limits: at most 200,000 words of code, 65,536 globals, 65,536 table words and 4,096 entries. The
/// format is Capriccio's own.
#[tactic(auto, unfolding(crate::specs::Spelling::spelling))]
pub fn write_image(alloc: Global, image: &Image) -> Result<Vec<u8>, AllocError>
    requires limits { IsWithinLimits image.now }
    ensures spelled { IfOk result (λ bytes. bytes.items ≡ spelling image.now) }
    ensures words { OnOk result (HoldsWords image.now) }
{
    let mut bytes = Vec::from_slice(alloc, b"CAP1")?;
    match put_image(&mut bytes, image) {
        Ok(()) => Ok(bytes),
        Err(error) => {
            drop(bytes);
            Err(error)
        }
    }
}

// Appends the numbers of words, and the words.
fn put_image(bytes: &mut Vec<u8>, image: &Image) -> Result<(), AllocError>
    requires limits { IsWithinLimits image.now }
    ensures added { OnOk result (bytes.new.items ≡ bytes.old.items ++ words (sizes image.now) ++ words image.now.code
        ++ words image.now.globals ++ words image.now.tables ++ words image.now.entries) }
    ensures words { OnOk result (HoldsWords image.now) }
{
    let sizes = [
        image.code.len() as u32,
        image.globals.len() as u32,
        image.tables.len() as u32,
        image.entries.len() as u32,
    ];
    put_words(bytes, &sizes)?;
    put_words(bytes, image.code.as_slice())?;
    put_words(bytes, image.globals.as_slice())?;
    put_words(bytes, image.tables.as_slice())?;
    put_words(bytes, image.entries.as_slice())?;
    Ok(())
}
