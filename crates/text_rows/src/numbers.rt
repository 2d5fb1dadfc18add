// Numbers, fields and lines.
use cap_text::{Fields, Lines, NumberError, put_dec, read_dec, read_signed, read_wide};
use std::alloc::Global;

const READ: u32 = 0;

const NOT_A_NUMBER: u32 = 1;

const TOO_LARGE: u32 = 2;

fn refused(error: NumberError) -> u32 {
    match error {
        NumberError::NotANumber => NOT_A_NUMBER,
        NumberError::TooLarge => TOO_LARGE,
    }
}

fn decimal(bytes: &[u8], max: u64) -> (u32, u64) {
    match read_dec(bytes, max) {
        Ok(number) => (READ, number),
        Err(error) => (refused(error), 0),
    }
}

fn signed(bytes: &[u8]) -> (u32, i32) {
    match read_signed(bytes) {
        Ok(number) => (READ, number),
        Err(error) => (refused(error), 0),
    }
}

fn wide(bytes: &[u8]) -> (u32, i128) {
    match read_wide(bytes) {
        Ok(number) => (READ, number),
        Err(error) => (refused(error), 0),
    }
}

const DECIMALS: &[(&[u8], u64, u32, u64)] = &[
    (b"0", 0, READ, 0),
    (b"7", 9, READ, 7),
    (b"10", 10, READ, 10),
    (b"11", 10, TOO_LARGE, 0),
    (b"18446744073709551615", u64::MAX, READ, u64::MAX),
    (b"18446744073709551616", u64::MAX, TOO_LARGE, 0),
    (b"123456789012345678901234567890", u64::MAX, TOO_LARGE, 0),
    (
        b"1234567890123456789012345678901234567890123456789012345678901234567890",
        5,
        TOO_LARGE,
        0,
    ),
    (b"", 9, NOT_A_NUMBER, 0),
    (b"00", 9, NOT_A_NUMBER, 0),
    (b"07", 9, NOT_A_NUMBER, 0),
    (b"-0", 9, NOT_A_NUMBER, 0),
    (b"-1", 9, NOT_A_NUMBER, 0),
    (b"+1", 9, NOT_A_NUMBER, 0),
    (b"-", 9, NOT_A_NUMBER, 0),
    (b"1 ", 9, NOT_A_NUMBER, 0),
    (b" 1", 9, NOT_A_NUMBER, 0),
    (b"1:", 9, NOT_A_NUMBER, 0),
    (b"1/2", 9, NOT_A_NUMBER, 0),
];

const SIGNED: &[(&[u8], u32, i32)] = &[
    (b"0", READ, 0),
    (b"1", READ, 1),
    (b"-1", READ, -1),
    (b"-107", READ, -107),
    (b"2147483647", READ, 2_147_483_647),
    (b"2147483648", TOO_LARGE, 0),
    (b"-2147483648", READ, -2_147_483_648),
    (b"-2147483649", TOO_LARGE, 0),
    (b"-123456789012345678901234567890", TOO_LARGE, 0),
    (b"", NOT_A_NUMBER, 0),
    (b"-", NOT_A_NUMBER, 0),
    (b"-0", NOT_A_NUMBER, 0),
    (b"00", NOT_A_NUMBER, 0),
    (b"-07", NOT_A_NUMBER, 0),
    (b"--1", NOT_A_NUMBER, 0),
    (b"+1", NOT_A_NUMBER, 0),
    (b"1-", NOT_A_NUMBER, 0),
];

const WIDE: &[(&[u8], u32, i128)] = &[
    (b"0", READ, 0),
    (b"-256", READ, -256),
    (b"170141183460469231731687303715884105727", READ, i128::MAX),
    (b"170141183460469231731687303715884105728", TOO_LARGE, 0),
    (b"-170141183460469231731687303715884105728", READ, i128::MIN),
    (b"-170141183460469231731687303715884105729", TOO_LARGE, 0),
    (b"-0", NOT_A_NUMBER, 0),
    (b"1.5", NOT_A_NUMBER, 0),
];

#[test]
fn reads_canonical_numbers(rt: HostRuntime) {
    let mut right = true;
    for &(bytes, max, kind, number) in DECIMALS {
        right = right && decimal(bytes, max) == (kind, number);
    }
    for &(bytes, kind, number) in SIGNED {
        right = right && signed(bytes) == (kind, number);
    }
    for &(bytes, kind, number) in WIDE {
        right = right && wide(bytes) == (kind, number);
    }
    assert!(rt; right);
}

// A text and a number, and the text followed by the number.
const PUT: &[(i128, &[u8])] = &[
    (0, b"x 0"),
    (7, b"x 7"),
    (-107, b"x -107"),
    (1022, b"x 1022"),
    (18_446_744_073_709_551_616, b"x 18446744073709551616"),
    (i128::MAX, b"x 170141183460469231731687303715884105727"),
    (i128::MIN, b"x -170141183460469231731687303715884105728"),
];

// Checks whether the number after `x ` is this text.
fn is_put(alloc: Global, value: i128, want: &[u8]) -> bool {
    let Ok(mut out) = Vec::from_slice(alloc, b"x ") else {
        return false;
    };
    let put = put_dec(&mut out, value).is_ok() && out.as_slice() == want;
    drop(out);
    put
}

#[test]
fn puts_numbers_after_what_is_there(rt: HostRuntime) {
    let mut right = true;
    for &(value, want) in PUT {
        right = right && is_put(rt.alloc(), value, want);
    }
    assert!(rt; right);
}

// Checks whether these are the lines of a text, followed by the end twice.
fn has_lines(text: &[u8], want: &[&[u8]]) -> bool {
    let mut lines = Lines::new(text);
    let mut same = true;
    for line in want {
        same = same && lines.next() == Some(*line);
    }
    same && lines.next().is_none() && lines.next().is_none()
}

#[test]
fn gives_the_pieces_between_line_feeds(rt: HostRuntime) {
    let right = has_lines(b"", &[])
        & has_lines(b"\n", &[b""])
        & has_lines(b"\n\n", &[b"", b""])
        & has_lines(b"a", &[b"a"])
        & has_lines(b"a\n", &[b"a"])
        & has_lines(b"a\nbc", &[b"a", b"bc"])
        & has_lines(b"a\n\r\n\nbc d\n", &[b"a", b"\r", b"", b"bc d"]);
    assert!(rt; right);
}

// Checks whether these are the fields of a text between spaces, which ends after them and not before.
fn has_fields(text: &[u8], want: &[&[u8]]) -> bool {
    let mut fields = Fields::new(text, b' ');
    let mut same = true;
    for field in want {
        same = same && !fields.is_over() && fields.next() == Some(*field);
    }
    same && fields.is_over() && fields.end().is_some() && fields.next().is_none()
}

#[test]
fn gives_the_pieces_between_separators(rt: HostRuntime) {
    let right = has_fields(b"", &[b""])
        & has_fields(b" ", &[b"", b""])
        & has_fields(b"run 31", &[b"run", b"31"])
        & has_fields(b" run  31", &[b"", b"run", b"", b"31"])
        & has_fields(b"1<2\t\n ", &[b"1<2\t\n", b""]);
    assert!(rt; right);
}

#[test]
fn reads_the_numbers_of_fields(rt: HostRuntime) {
    let mut fields = Fields::new(
        b"4096 64 4294967295 18446744073709551615 -2147483648 -256 x",
        b' ',
    );
    let right = (fields.number(4096) == Some(4096))
        & fields.number(63).is_none()
        & (fields.word() == Some(4_294_967_295))
        & (fields.count() == Some(18_446_744_073_709_551_615))
        & (fields.signed() == Some(-2_147_483_648))
        & (fields.wide() == Some(-256))
        & fields.end().is_none()
        & fields.word().is_none()
        & fields.end().is_some()
        & fields.word().is_none();
    assert!(rt; right);
}
