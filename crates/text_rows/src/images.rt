// Images.
ghost use Rattle.stack_image.specs.Spelling.{IsWithinLimits};

use cap_word::Which;
use stack_image::{Image, ImageError, read_image, write_image};
use std::alloc::Global;

// The image of a `main` that puts one number, as in the format's worked example, and one byte more.
const LONG: &[u8] = b"CAP1\x18\x00\x00\x00\x00\x00\x00\x00\x00\x00\x00\x00\
\x01\x00\x00\x00\x93\x08\xe0\x01\x73\x00\x00\x00\x13\x01\x01\xff\
\x23\x26\x11\x00\xb7\x02\x00\x00\x93\x82\x72\x00\x23\x20\x51\x00\
\x03\x25\x01\x00\x93\x08\x30\x00\x73\x00\x00\x00\xb7\x02\x00\x00\
\x93\x82\x02\x00\x23\x20\x51\x00\x03\x25\x01\x00\x83\x20\xc1\x00\
\x13\x01\x01\x01\x67\x80\x00\x00\xb7\x02\x00\x00\x93\x82\x02\x00\
\x23\x20\x51\x00\x03\x25\x01\x00\x83\x20\xc1\x00\x13\x01\x01\x01\
\x67\x80\x00\x00\x08\x10\x00\x00\x00";

const LENGTH: usize = 120;

const EXAMPLE_CODE: &[u32] = &[
    0x01e0_0893,
    0x0000_0073,
    0xff01_0113,
    0x0011_2623,
    0x0000_02b7,
    0x0072_8293,
    0x0051_2023,
    0x0001_2503,
    0x0030_0893,
    0x0000_0073,
    0x0000_02b7,
    0x0002_8293,
    0x0051_2023,
    0x0001_2503,
    0x00c1_2083,
    0x0101_0113,
    0x0000_8067,
    0x0000_02b7,
    0x0002_8293,
    0x0051_2023,
    0x0001_2503,
    0x00c1_2083,
    0x0101_0113,
    0x0000_8067,
];

// An image of two code words, one global, no table word and two entries.
const FOUR: &[u8] = b"CAP1\x02\x00\x00\x00\x01\x00\x00\x00\x00\x00\x00\x00\x02\x00\x00\x00\
\x01\x00\x00\x00\x04\x03\x02\x01\xff\xff\xff\xff\x04\x00\x00\x00\x05\x00\x00\x00";

// Checks whether an image without a table word is written as these bytes.
fn is_written(alloc: Global, image: &Image, want: &[u8]) -> bool
    requires { IsWithinLimits image.now }
{
    match write_image(alloc, image) {
        Ok(bytes) => {
            let same = bytes.as_slice() == want;
            drop(bytes);
            same
        }
        Err(_) => false,
    }
}

// Checks whether the bytes are an image of these words without a table word, and are written again.
fn comes_back(alloc: Global, bytes: &[u8], code: &[u32], globals: &[u32], entries: &[u32]) -> bool {
    match read_image(alloc, bytes) {
        Ok(image) => {
            let read = image.code.as_slice() == code
                && image.globals.as_slice() == globals
                && image.tables.is_empty()
                && image.entries.as_slice() == entries;
            let written = is_written(alloc, &image, bytes);
            drop(image);
            read && written
        }
        Err(_) => false,
    }
}

#[test]
fn images_are_read_and_written(rt: HostRuntime) {
    let alloc = rt.alloc();
    let example = comes_back(alloc, &LONG[..LENGTH], EXAMPLE_CODE, &[], &[0x1008]);
    let four = comes_back(alloc, FOUR, &[1, 0x0102_0304], &[u32::MAX], &[4, 5]);
    assert!(rt; example && four);
}

const MAGIC: u32 = 1;

const SHORT: u32 = 2;

const LATE: u32 = 3;

const LIMIT: u32 = 4;

// Returns why the bytes are refused, and the place or the limit's number: 0 for the code, 1 for the globals, 2 for the
// tables and 3 for the entries.
fn refusal(alloc: Global, bytes: &[u8]) -> (u32, u32) {
    match read_image(alloc, bytes) {
        Ok(image) => {
            drop(image);
            (0, 0)
        }
        Err(ImageError::Magic) => (MAGIC, 0),
        Err(ImageError::Short { at }) => (SHORT, at),
        Err(ImageError::Long { at }) => (LATE, at),
        Err(ImageError::Limit { which }) => (LIMIT, number_of(which)),
        Err(ImageError::Memory) => (0, 1),
    }
}

fn number_of(which: Which) -> u32 {
    match which {
        Which::Code => 0,
        Which::Globals => 1,
        Which::Tables => 2,
        Which::Entries => 3,
        _ => 4,
    }
}

// Prefixes of the example with one byte more, by length, and why they are refused.
const BEGINNINGS: &[(usize, u32, u32)] = &[
    (0, SHORT, 0),
    (2, SHORT, 2),
    (10, SHORT, 10),
    (119, SHORT, 119),
    (121, LATE, 120),
];

// Other bytes, and why they are refused. The last six begin an image of these numbers of code, global, table and entry
// words, and end there: 200001, 0, 0 and 0; 200001, 65537, 65537 and 4097; then one number after another at its limit.
const OTHERS: &[(&[u8], u32, u32)] = &[
    (b"CB", MAGIC, 0),
    (b"CAP2", MAGIC, 0),
    (
        b"CAP1\x41\x0d\x03\x00\x00\x00\x00\x00\x00\x00\x00\x00\x00\x00\x00\x00",
        LIMIT,
        0,
    ),
    (
        b"CAP1\x41\x0d\x03\x00\x01\x00\x01\x00\x01\x00\x01\x00\x01\x10\x00\x00",
        LIMIT,
        0,
    ),
    (
        b"CAP1\x40\x0d\x03\x00\x01\x00\x01\x00\x01\x00\x01\x00\x01\x10\x00\x00",
        LIMIT,
        1,
    ),
    (
        b"CAP1\x40\x0d\x03\x00\x00\x00\x01\x00\x01\x00\x01\x00\x01\x10\x00\x00",
        LIMIT,
        2,
    ),
    (
        b"CAP1\x40\x0d\x03\x00\x00\x00\x01\x00\x00\x00\x01\x00\x01\x10\x00\x00",
        LIMIT,
        3,
    ),
    (
        b"CAP1\x40\x0d\x03\x00\x00\x00\x01\x00\x00\x00\x01\x00\x00\x10\x00\x00",
        SHORT,
        20,
    ),
];

#[test]
fn other_bytes_are_refused(rt: HostRuntime) {
    let mut right = true;
    for &(length, kind, place) in BEGINNINGS {
        right = right
            && length <= LONG.len()
            && refusal(rt.alloc(), &LONG[..length]) == (kind, place);
    }
    for &(bytes, kind, place) in OTHERS {
        right = right && refusal(rt.alloc(), bytes) == (kind, place);
    }
    assert!(rt; right);
}

#[test]
fn limits_have_names(rt: HostRuntime) {
    assert!(rt; Which::Functions.name() == "functions" && Which::Entries.name() == "entries");
}
