// The lines of refusals.
ghost use Rattle.std.specs.Prelude.{◌≡◌, ◌++◌, ◌∷◌, [], codes, IfOk, OnOk};
ghost use Rattle.cap_text.specs.Decimals.{canonical_decimal};
ghost use Rattle.cap_word.specs.Limit.{name_of};
ghost use Rattle.command_outcomes.specs.CauseLines.{document_name, at_place, source_words, image_words, frame_words, rejected_words, cycle_words, cause_words};

use crate::documents::Document;
use crate::stops::Cause;
use c_scope::SourceError;
use cap_text::put_dec;
use cap_word::Which;
use stack_image::ImageError;
use std::alloc::{AllocError, Global};

/// The usage line of the program.
const USAGE: &[u8] =
    b"usage: capriccio serve SRC, run SRC IMG CRT, build SRC IMG CRT, check SRC IMG CRT, graph SRC, demo N, audit SRC LOG, budget SRC IMG CRT";

/// Returns the line of a refusal, with its line feed.
pub(crate) fn line_of(alloc: Global, cause: &Cause) -> Result<Vec<u8>, AllocError>
    ensures { IfOk result (λ line. line.items ≡ cause_words cause.now ++ 10 ∷ []) }
{
    let mut line = Vec::new(alloc);
    put_cause(&mut line, cause)?;
    line.push(b'\n')?;
    Ok(line)
}

/// Appends the text of a refusal.
fn put_cause(line: &mut Vec<u8>, cause: &Cause) -> Result<(), AllocError>
    ensures { OnOk result (line.new.items ≡ line.old.items ++ cause_words cause.now) }
{
    match cause {
        Cause::Usage => put_text(line, USAGE),
        Cause::Absent(document) => put_absent(line, *document),
        Cause::TooLong(document) => put_too_long(line, *document),
        Cause::Source(error) => put_source(line, error),
        Cause::Image(error) => put_image(line, *error),
        Cause::CertificateLine(number) => put_certificate_line(line, *number),
        Cause::Frame { name, bytes } => put_frame(line, name, *bytes),
        Cause::Code { words } => put_code(line, *words),
        Cause::Rejected {
            rule,
            function,
            index,
        } => {
            put_text(line, b"check: ")?;
            put_rejected(line, *rule, *function, *index)
        }
        Cause::Pool { bytes } => put_pool(line, *bytes),
        Cause::Cycle { name } => put_cycle(line, name),
    }
}

fn put_absent(line: &mut Vec<u8>, document: Document) -> Result<(), AllocError>
    ensures { OnOk result
        (line.new.items ≡ line.old.items ++ (codes "absent: " ++ document_name document)) }
{
    put_text(line, b"absent: ")?;
    put_text(line, document.name())
}

fn put_too_long(line: &mut Vec<u8>, document: Document) -> Result<(), AllocError>
    ensures { OnOk result
        (line.new.items ≡ line.old.items ++ (document_name document ++ codes ": TooLong")) }
{
    put_text(line, document.name())?;
    put_text(line, b": TooLong")
}

fn put_certificate_line(line: &mut Vec<u8>, number: u32) -> Result<(), AllocError>
    ensures { OnOk result
        (line.new.items ≡ line.old.items ++
        (codes "certificate: Line " ++ canonical_decimal number)) }
{
    put_text(line, b"certificate: Line ")?;
    put_number(line, u64::from(number))
}

fn put_frame(line: &mut Vec<u8>, name: &[u8], bytes: u32) -> Result<(), AllocError>
    ensures { OnOk result (line.new.items ≡ line.old.items ++ frame_words name.now bytes) }
{
    put_text(line, b"limit: frame of ")?;
    put_text(line, name)?;
    put_text(line, b" is ")?;
    put_number(line, u64::from(bytes))?;
    put_text(line, b" bytes")
}

fn put_code(line: &mut Vec<u8>, words: u64) -> Result<(), AllocError>
    ensures { OnOk result
        (line.new.items ≡ line.old.items ++
        ((codes "limit: code is " ++ canonical_decimal words) ++ codes " words")) }
{
    put_text(line, b"limit: code is ")?;
    put_number(line, words)?;
    put_text(line, b" words")
}

fn put_pool(line: &mut Vec<u8>, bytes: u64) -> Result<(), AllocError>
    ensures { OnOk result
        (line.new.items ≡ line.old.items ++
        ((codes "limit: pool is " ++ canonical_decimal bytes) ++ codes " bytes")) }
{
    put_text(line, b"limit: pool is ")?;
    put_number(line, bytes)?;
    put_text(line, b" bytes")
}

fn put_cycle(line: &mut Vec<u8>, name: &[u8]) -> Result<(), AllocError>
    ensures { OnOk result (line.new.items ≡ line.old.items ++ cycle_words name.now) }
{
    put_text(line, b"budget: cycle at ")?;
    put_text(line, name)
}

/// Appends the text of a rejection by the checker.
pub fn put_rejected(
    line: &mut Vec<u8>,
    rule: u32,
    function: u32,
    index: u32,
) -> Result<(), AllocError>
    ensures { OnOk result (line.new.items ≡ line.old.items ++ rejected_words rule function index) }
{
    put_text(line, b"rejected V")?;
    put_number(line, u64::from(rule))?;
    put_text(line, b" function ")?;
    put_number(line, u64::from(function))?;
    put_text(line, b" index ")?;
    put_number(line, u64::from(index))
}

fn put_source(line: &mut Vec<u8>, error: &SourceError) -> Result<(), AllocError>
    ensures { OnOk result
        (line.new.items ≡ line.old.items ++ (codes "source: " ++ source_words error.now)) }
{
    put_text(line, b"source: ")?;
    match error {
        SourceError::BadByte { at } => put_place(line, b"BadByte", *at),
        SourceError::OpenComment { at } => put_place(line, b"OpenComment", *at),
        SourceError::BadNumber { at } => put_place(line, b"BadNumber", *at),
        SourceError::Unexpected { at } => put_place(line, b"Unexpected", *at),
        SourceError::TooDeep { at } => put_place(line, b"TooDeep", *at),
        SourceError::NestedCall { at } => put_place(line, b"NestedCall", *at),
        SourceError::Unknown { at } => put_place(line, b"Unknown", *at),
        SourceError::Twice { at } => put_place(line, b"Twice", *at),
        SourceError::Arity { at } => put_place(line, b"Arity", *at),
        SourceError::Kind { at } => put_place(line, b"Kind", *at),
        SourceError::NoMain => put_text(line, b"NoMain"),
        SourceError::Limit { which } => put_limit(line, *which),
        SourceError::Memory => Ok(()),
    }
}

fn put_image(line: &mut Vec<u8>, error: ImageError) -> Result<(), AllocError>
    ensures { OnOk result
        (line.new.items ≡ line.old.items ++ (codes "image: " ++ image_words error)) }
{
    put_text(line, b"image: ")?;
    match error {
        ImageError::Magic => put_text(line, b"Magic"),
        ImageError::Short { at } => put_place(line, b"Short", at),
        ImageError::Long { at } => put_place(line, b"Long", at),
        ImageError::Limit { which } => put_limit(line, which),
        ImageError::Memory => Ok(()),
    }
}

/// Appends the name of a limit that is exceeded.
fn put_limit(line: &mut Vec<u8>, which: Which) -> Result<(), AllocError>
    ensures { OnOk result (line.new.items ≡ line.old.items ++ (codes "Limit " ++ name_of which)) }
{
    put_text(line, b"Limit ")?;
    put_text(line, which.name().as_bytes())
}

/// Appends a name with its place.
fn put_place(line: &mut Vec<u8>, name: &[u8], place: u32) -> Result<(), AllocError>
    ensures { OnOk result (line.new.items ≡ line.old.items ++ at_place name.now place) }
{
    put_text(line, name)?;
    put_text(line, b" at ")?;
    put_number(line, u64::from(place))
}

/// Appends a text.
pub fn put_text(line: &mut Vec<u8>, text: &[u8]) -> Result<(), AllocError>
    ensures { OnOk result (line.new.items ≡ line.old.items ++ text.now) }
{
    line.extend_from_slice(text)?;
    Ok(())
}

/// Appends a number.
pub fn put_number(line: &mut Vec<u8>, number: u64) -> Result<(), AllocError>
    ensures { OnOk result (line.new.items ≡ line.old.items ++ canonical_decimal number) }
{
    put_dec(line, i128::from(number))
}
