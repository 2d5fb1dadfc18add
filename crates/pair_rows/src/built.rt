// What `build` makes of a source: the valid pairs, word for word and line for line, and refusals of what is too large.

ghost use Rattle.codegen_link.specs.Plans.{AreInRange};
ghost use Rattle.std.specs.Prelude.{IfSome};

use crate::changes::Change::Line;
use crate::changes::{Change, certificate_in, image_of, program_of, text_of};
use crate::pairs::Of::{Linked, Plain, Putting, Spawning, Tables};
use crate::pairs::{Of, Pair, pair_of};
use accepted_pairs::Accepted;
use c_tree::Program;
use codegen_link::Options;
use stack_build::{BuildError, build};
use stack_certificate::{Certificate, FunctionFact, SiteFact};
use stack_image::Image;
use std::alloc::Global;

/// The default sizes.
pub(crate) const USUAL: Options = Options {
    chunk: 4096,
    max_path: 2032,
};

/// The sizes with paths of at most 32 bytes.
pub(crate) const SMALL: Options = Options {
    chunk: 64,
    max_path: 32,
};

const NARROW: Options = Options {
    chunk: 64,
    max_path: 16,
};

// The source of a pair, the sizes for which it is built, and how the lines differ from those of the pair. If a path has
// at most 16 bytes, the call is linked.
const PAIRS: &[(Of, Options, &[Change])] = &[
    (Plain, SMALL, &[]),
    (Linked, NARROW, &[Line(3, b"max-path 16")]),
    (Putting, USUAL, &[]),
    (Tables, USUAL, &[]),
    (Spawning, SMALL, &[]),
];

// A source, the sizes, and the certificate.
const LINES: &[(&[u8], Options, &[u8])] = &[
    (
        b"int main() { int a[506]; return 0; }",
        USUAL,
        b"capriccio certificate 1
chunk 4096
max-path 2032
functions 1
function 4104 522 2032 2028 2032 0 2024
sites 0
",
    ),
    (
        TWO_FRAMES,
        Options {
            chunk: 128,
            max_path: 64,
        },
        b"capriccio certificate 1
chunk 128
max-path 64
functions 3
function 4104 24 48 44 48 0 4 36
function 4200 16 16 12 16 0 4
function 4264 34 16 12 64 0 4
sites 1
site 0 plain
",
    ),
    (
        TWO_FRAMES,
        Options {
            chunk: 128,
            max_path: 63,
        },
        b"capriccio certificate 1
chunk 128
max-path 63
functions 3
function 4104 24 48 44 48 0 4 36
function 4200 16 16 12 16 0 4
function 4264 44 16 12 16 0 4
sites 1
site 0 linked 48
",
    ),
];

// The table's last member has the larger frame.
const TWO_FRAMES: &[u8] =
    b"int f(int x) { int a[8]; return x; } int g(int x) { return x; } int (*t[2])(int) = { g, f }; int main() { return t[1](2); }";

// Returns the accepted program that `build` makes of a source.
fn accepted(alloc: Global, source: &[u8], options: Options) -> Option<Accepted>
    requires { AreInRange options }
{
    match program_of(alloc, source) {
        Some(program) => accepted_program(alloc, program, options),
        None => None,
    }
}

fn accepted_program(alloc: Global, program: Program, options: Options) -> Option<Accepted>
    requires { AreInRange options }
{
    match build(alloc, program, options) {
        Ok(accepted) => Some(accepted),
        Err(_) => None,
    }
}

// Returns why a source isn't built: 1, the function and the bytes of a frame that is too large; 2, 0 and the words of
// code that is too large; three zeros if it is built or memory runs out.
fn refusal(alloc: Global, source: &[u8], options: Options) -> (u32, u32, u64)
    requires { AreInRange options }
{
    match program_of(alloc, source) {
        Some(program) => told(build(alloc, program, options)),
        None => (0, 0, 0),
    }
}

fn told(built: Result<Accepted, BuildError>) -> (u32, u32, u64) {
    match built {
        Ok(accepted) => {
            drop(accepted);
            (0, 0, 0)
        }
        Err(BuildError::FrameTooLarge { function, bytes }) => (1, function, u64::from(bytes)),
        Err(BuildError::CodeTooLarge { words }) => (2, 0, words),
        Err(BuildError::Memory) => (0, 0, 0),
    }
}

// Checks whether two images have the same words.
fn are_same(found: &Image, wanted: &Image) -> bool {
    found.code.as_slice() == wanted.code.as_slice()
        && found.globals.as_slice() == wanted.globals.as_slice()
        && found.tables.as_slice() == wanted.tables.as_slice()
        && found.entries.as_slice() == wanted.entries.as_slice()
}

// Checks whether the facts of two functions are the same.
fn are_alike(found: &FunctionFact, wanted: &FunctionFact) -> bool {
    found.entry == wanted.entry
        && found.words == wanted.words
        && found.frame == wanted.frame
        && found.ra == wanted.ra
        && found.bound == wanted.bound
        && found.places.as_slice() == wanted.places.as_slice()
}

fn are_all_alike(found: &[FunctionFact], wanted: &[FunctionFact]) -> bool {
    if found.len() != wanted.len() {
        return false;
    }
    for k in 0..found.len() {
        if !are_alike(&found[k], &wanted[k]) {
            return false;
        }
    }
    true
}

fn are_same_sites(found: &[SiteFact], wanted: &[SiteFact]) -> bool {
    if found.len() != wanted.len() {
        return false;
    }
    for k in 0..found.len() {
        if found[k].number != wanted[k].number || found[k].kind != wanted[k].kind {
            return false;
        }
    }
    true
}

// Checks whether two certificates are the same.
fn say_the_same(found: &Certificate, wanted: &Certificate) -> bool {
    are_all_alike(found.functions.as_slice(), wanted.functions.as_slice())
        && are_same_sites(found.sites.as_slice(), wanted.sites.as_slice())
        && found.chunk == wanted.chunk
        && found.max_path == wanted.max_path
}

// Checks whether a certificate is that of a text.
fn has_text(alloc: Global, found: &Certificate, text: &[u8]) -> bool {
    match certificate_in(alloc, text) {
        Some(wanted) => {
            let same = say_the_same(found, &wanted);
            drop(wanted);
            same
        }
        None => false,
    }
}

// Checks whether a source is built to an image with the text of a certificate.
fn has_lines(alloc: Global, source: &[u8], options: Options, text: &[u8]) -> bool
    requires { AreInRange options }
{
    match accepted(alloc, source, options) {
        Some(accepted) => {
            let same = has_text(alloc, accepted.certificate(), text);
            drop(accepted);
            same
        }
        None => false,
    }
}

// Checks whether a source is built to exactly an image and the text of a certificate.
fn is_built(alloc: Global, source: &[u8], options: Options, image: &Image, text: &[u8]) -> bool
    requires { AreInRange options }
{
    match accepted(alloc, source, options) {
        Some(accepted) => {
            let same = are_same(accepted.image(), image)
                && has_text(alloc, accepted.certificate(), text);
            drop(accepted);
            same
        }
        None => false,
    }
}

// Checks whether a pair's source is built to exactly the pair.
fn is_pair(alloc: Global, of: Of, options: Options, changes: &[Change]) -> bool
    requires { AreInRange options }
{
    let pair = pair_of(of);
    match text_of(alloc, &pair, changes) {
        Ok(text) => is_pair_of(alloc, &pair, options, changes, &text),
        Err(_) => false,
    }
}

fn is_pair_of(alloc: Global, pair: &Pair, options: Options, changes: &[Change], text: &[u8]) -> bool
    requires { AreInRange options }
{
    match image_of(alloc, pair, changes) {
        Ok(image) => {
            let same = is_built(alloc, pair.source, options, &image, text);
            drop(image);
            same
        }
        Err(_) => false,
    }
}

// Returns the number of words of the code of a source, or 0.
fn words_of_code(alloc: Global, source: &[u8], options: Options) -> usize
    requires { AreInRange options }
{
    match accepted(alloc, source, options) {
        Some(accepted) => {
            let words = accepted.image().code.len();
            drop(accepted);
            words
        }
        None => 0,
    }
}

// Returns the sizes, if they are in their ranges.
fn in_range(options: Options) -> Option<Options>
    ensures { IfSome result AreInRange }
{
    let chunk = options.chunk;
    let max_path = options.max_path;
    if chunk % 16 != 0 || chunk < 64 || chunk > 65_536 || max_path < 16 || max_path > 4_080 {
        return None;
    }
    if max_path + 16 > chunk {
        return None;
    }
    Some(Options { chunk, max_path })
}

/// Returns the accepted program that `build` makes of a source, if the sizes are in their ranges.
pub(crate) fn accepted_in_range(
    alloc: Global,
    source: &[u8],
    options: Options,
) -> Option<Accepted> {
    match in_range(options) {
        Some(options) => accepted(alloc, source, options),
        None => None,
    }
}

fn is_row_of_pairs(alloc: Global, of: Of, options: Options, changes: &[Change]) -> bool {
    match in_range(options) {
        Some(options) => is_pair(alloc, of, options, changes),
        None => false,
    }
}

fn is_row_of_lines(alloc: Global, source: &[u8], options: Options, lines: &[u8]) -> bool {
    match in_range(options) {
        Some(options) => has_lines(alloc, source, options, lines),
        None => false,
    }
}

fn are_pairs(alloc: Global, rows: &[(Of, Options, &[Change])]) -> bool {
    for (of, options, changes) in rows {
        if !is_row_of_pairs(alloc, *of, *options, changes) {
            return false;
        }
    }
    true
}

fn all_have_lines(alloc: Global, rows: &[(&[u8], Options, &[u8])]) -> bool {
    for (source, options, lines) in rows {
        if !is_row_of_lines(alloc, source, *options, lines) {
            return false;
        }
    }
    true
}

// Checks whether a source is refused like this.
fn is_refused(alloc: Global, source: &[u8], options: Options, want: (u32, u32, u64)) -> bool
    requires { AreInRange options }
{
    let (kind, function, size) = refusal(alloc, source, options);
    kind == want.0 && function == want.1 && size == want.2
}

// Appends a part to a text `times` times. Returns `false` if memory runs out.
fn put(text: &mut Vec<u8>, part: &[u8], times: u32) -> bool {
    for _ in 0..times {
        if matches!(text.extend_from_slice(part), Err(_)) {
            return false;
        }
    }
    true
}

// Returns a `main` of 28 words of code, plus 4 for each assignment and 1 for each `break`; and whether it is complete.
fn long_source(alloc: Global, assignments: u32, breaks: u32) -> (Vec<u8>, bool) {
    let mut text = Vec::new(alloc);
    let is_whole = put(&mut text, b"int main() { int x; while (1) {", 1)
        && put(&mut text, b"x=x;", assignments)
        && put(&mut text, b"break;", breaks)
        && put(&mut text, b"} return 0; }", 1);
    (text, is_whole)
}

fn most_words_are_built(alloc: Global) -> bool {
    let (source, is_whole) = long_source(alloc, 49_993, 0);
    let right = words_of_code(alloc, &source, SMALL) == 200_000;
    drop(source);
    is_whole && right
}

fn a_word_more_is_refused(alloc: Global) -> bool {
    let (source, is_whole) = long_source(alloc, 49_993, 1);
    let right = is_refused(alloc, &source, SMALL, (2, 0, 200_001));
    drop(source);
    is_whole && right
}

fn a_large_frame_is_refused(alloc: Global) -> bool {
    is_refused(
        alloc,
        b"int main() { int a[507]; return 0; }",
        USUAL,
        (1, 0, 2048),
    )
}

#[test]
fn built(rt: HostRuntime) {
    let alloc = rt.alloc();
    let right = are_pairs(alloc, PAIRS)
        && all_have_lines(alloc, LINES)
        && a_large_frame_is_refused(alloc);
    assert!(rt; right);
}

#[test]
fn code_has_its_limit(rt: HostRuntime) {
    assert!(rt; most_words_are_built(rt.alloc()) && a_word_more_is_refused(rt.alloc()));
}
