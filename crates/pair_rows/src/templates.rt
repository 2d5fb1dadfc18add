// The words of templates, compared with those of llvm-mc for the instructions of the table: `llvm-mc -triple=riscv32
// -mattr=+m --show-encoding`.

ghost use Rattle.std.specs.Prelude.{◌≡◌, ◌<◌, ◌≤◌, length};
ghost use Rattle.flat_code.specs.Codes.{function_at};
ghost use Rattle.flat_code.specs.ProgramView.{program_code};
ghost use Rattle.stack_certificate.specs.Templates.{IsFor};
ghost use Rattle.pair_rows.specs.Sample.{sample_code, sample_certificate, putting_code, putting_certificate};

use crate::samples::{certificate, certificate_of_putting, of_words, program, putting};
use flat_code::{FlatProgram, weight};
use stack_certificate::{Certificate, prologue_word, stub_word, template_word};
use std::alloc::Global;

// Checks whether the operation's template has exactly these words.
fn has_words(
    flat: &FlatProgram,
    certificate: &Certificate,
    function: u32,
    op: u32,
    words: &[u32],
) -> bool
    requires certificate { IsFor (program_code flat.now) certificate.now }
    requires function { function < length (program_code flat.now).functions }
    requires op { op < length (function_at (program_code flat.now) function).ops }
    requires few { length words.now < 100 }
{
    for k in 0..words.len() + 1 {
        if template_word(flat, certificate, function, op, k as u32) != words.get(k).copied() {
            return false;
        }
    }
    true
}

// An operation of the program's second function, and its words.
const OPERATIONS: &[(u32, &[u32])] = &[
    (0, &[0x1234_62b7, 0xfff2_8293, 0x0051_2423]),
    (1, &[0x0081_2283, 0x0051_2c23]),
    (2, &[0x0081_2283, 0x4050_02b3, 0x0051_2c23]),
    (3, &[0x0081_2283, 0xfff2_c293, 0x0051_2c23]),
    (4, &[0x0081_2283, 0x0012_b293, 0x0051_2c23]),
    (5, &[0x0081_2283, 0x01c1_2303, 0x0062_82b3, 0x0051_2c23]),
    (6, &[0x0081_2283, 0x01c1_2303, 0x4062_82b3, 0x0051_2c23]),
    (7, &[0x0081_2283, 0x01c1_2303, 0x0262_82b3, 0x0051_2c23]),
    (8, &[0x0081_2283, 0x01c1_2303, 0x0262_c2b3, 0x0051_2c23]),
    (9, &[0x0081_2283, 0x01c1_2303, 0x0262_e2b3, 0x0051_2c23]),
    (10, &[0x0081_2283, 0x01c1_2303, 0x0062_f2b3, 0x0051_2c23]),
    (11, &[0x0081_2283, 0x01c1_2303, 0x0062_e2b3, 0x0051_2c23]),
    (12, &[0x0081_2283, 0x01c1_2303, 0x0062_c2b3, 0x0051_2c23]),
    (13, &[0x0081_2283, 0x01c1_2303, 0x0062_92b3, 0x0051_2c23]),
    (14, &[0x0081_2283, 0x01c1_2303, 0x4062_d2b3, 0x0051_2c23]),
    (15, &[0x0081_2283, 0x01c1_2303, 0x0062_a2b3, 0x0051_2c23]),
    (16, &[0x0081_2283, 0x01c1_2303, 0x0053_22b3, 0x0051_2c23]),
    (
        17,
        &[
            0x0081_2283,
            0x01c1_2303,
            0x0053_22b3,
            0x0012_c293,
            0x0051_2c23,
        ],
    ),
    (
        18,
        &[
            0x0081_2283,
            0x01c1_2303,
            0x0062_a2b3,
            0x0012_c293,
            0x0051_2c23,
        ],
    ),
    (
        19,
        &[
            0x0081_2283,
            0x01c1_2303,
            0x4062_82b3,
            0x0012_b293,
            0x0051_2c23,
        ],
    ),
    (
        20,
        &[
            0x0081_2283,
            0x01c1_2303,
            0x4062_82b3,
            0x0050_32b3,
            0x0051_2c23,
        ],
    ),
    (21, &[0x0001_2623, 0x0001_2823, 0x0001_2a23]),
    (22, &[0x1000_0337, 0x0103_0313, 0x0003_2283, 0x0051_2c23]),
    (23, &[0x0181_2283, 0x1000_0337, 0x0103_0313, 0x0053_2023]),
    (
        24,
        &[
            0x01c1_2283,
            0x0000_0337,
            0x0033_0313,
            0x0062_e863,
            0x0010_0513,
            0x01f0_0893,
            0x0000_0073,
            0x0022_9293,
            0x0022_82b3,
            0x00c2_a283,
            0x0051_2c23,
        ],
    ),
    (
        25,
        &[
            0x01c1_2283,
            0x0000_0337,
            0x0043_0313,
            0x0062_e863,
            0x0010_0513,
            0x01f0_0893,
            0x0000_0073,
            0x0022_9293,
            0x1000_0337,
            0x0003_0313,
            0x0062_82b3,
            0x0002_a283,
            0x0051_2c23,
        ],
    ),
    (
        26,
        &[
            0x01c1_2283,
            0x0000_0337,
            0x0033_0313,
            0x0062_e863,
            0x0010_0513,
            0x01f0_0893,
            0x0000_0073,
            0x0022_9293,
            0x0022_82b3,
            0x0181_2303,
            0x0062_a623,
        ],
    ),
    (
        27,
        &[
            0x01c1_2283,
            0x0000_0337,
            0x0043_0313,
            0x0062_e863,
            0x0010_0513,
            0x01f0_0893,
            0x0000_0073,
            0x0022_9293,
            0x1000_0337,
            0x0003_0313,
            0x0062_82b3,
            0x0181_2303,
            0x0062_a023,
        ],
    ),
    (28, &[0x0100_006f]),
    (29, &[0x0181_2283, 0x0002_9463, 0xdc1f_f06f]),
    (30, &[0x0181_2503, 0xd71f_f0ef, 0x00a1_2423]),
    (
        31,
        &[
            0x01c1_2503,
            0x0000_0337,
            0x0303_0313,
            0x4061_02b3,
            0x0042_e663,
            0xd55f_f0ef,
            0x0180_006f,
            0x0010_0893,
            0x0000_0073,
            0xd45f_f0ef,
            0x0020_0893,
            0x0000_0073,
        ],
    ),
    (
        32,
        &[
            0x0181_2283,
            0x0000_0337,
            0x0023_0313,
            0x0062_e863,
            0x0020_0513,
            0x01f0_0893,
            0x0000_0073,
            0x0022_9293,
            0x2000_0337,
            0x0043_0313,
            0x0062_82b3,
            0x0002_a383,
            0x01c1_2503,
            0x0000_0337,
            0x0103_0313,
            0x4061_02b3,
            0x0042_e663,
            0x0003_80e7,
            0x0180_006f,
            0x0010_0893,
            0x0000_0073,
            0x0003_80e7,
            0x0020_0893,
            0x0000_0073,
            0x00a1_2c23,
        ],
    ),
    (33, &[0x0100_0893, 0x0000_0073, 0x00a1_2423]),
    (34, &[0x0181_2503, 0x01c1_2583, 0x0140_0893, 0x0000_0073]),
    (
        35,
        &[
            0x0000_1537,
            0x0085_0513,
            0x01c1_2583,
            0x0000_0637,
            0x0206_0613,
            0x0040_0893,
            0x0000_0073,
            0x00a1_2c23,
        ],
    ),
    (36, &[0x0081_2503, 0x03c1_2083, 0x0401_0113, 0x0000_8067]),
];

// Checks whether each operation of the program has its words.
fn program_has_words(flat: &FlatProgram, certificate: &Certificate, rows: &[(u32, &[u32])]) -> bool
    requires flat { program_code flat.now ≡ sample_code }
    requires certificate { certificate.now ≡ sample_certificate }
{
    for (op, words) in rows {
        if *op >= 37 || words.len() >= 100 || !has_words(flat, certificate, 1, *op, words) {
            return false;
        }
    }
    true
}

fn program_is_right(alloc: Global) -> bool {
    let Ok(flat) = program(alloc) else {
        return false;
    };
    match certificate(alloc) {
        Ok(certificate) => {
            let right = program_has_words(&flat, &certificate, OPERATIONS);
            drop(flat);
            drop(certificate);
            right
        }
        Err(_) => {
            drop(flat);
            false
        }
    }
}

// The code of `int main() { put(7); return 0; }`, as in the format's worked example.
const EXAMPLE: &[(u32, &[u32])] = &[
    (0, &[0x0000_02b7, 0x0072_8293, 0x0051_2023]),
    (1, &[0x0001_2503, 0x0030_0893, 0x0000_0073]),
    (2, &[0x0000_02b7, 0x0002_8293, 0x0051_2023]),
    (3, &[0x0001_2503, 0x00c1_2083, 0x0101_0113, 0x0000_8067]),
    (4, &[0x0000_02b7, 0x0002_8293, 0x0051_2023]),
    (5, &[0x0001_2503, 0x00c1_2083, 0x0101_0113, 0x0000_8067]),
];

// Checks whether each operation of the example has its words.
fn example_has_words(flat: &FlatProgram, certificate: &Certificate, rows: &[(u32, &[u32])]) -> bool
    requires flat { program_code flat.now ≡ putting_code }
    requires certificate { certificate.now ≡ putting_certificate }
{
    for (op, words) in rows {
        if *op >= 6 || words.len() >= 100 || !has_words(flat, certificate, 0, *op, words) {
            return false;
        }
    }
    true
}

fn example_is_right(alloc: Global) -> bool {
    let Ok(flat) = putting(alloc) else {
        return false;
    };
    match certificate_of_putting(alloc) {
        Ok(certificate) => {
            let right = example_has_words(&flat, &certificate, EXAMPLE);
            drop(flat);
            drop(certificate);
            right
        }
        Err(_) => {
            drop(flat);
            false
        }
    }
}

// Checks whether a template's word is this one.
fn is_word(found: Option<u32>, word: u32) -> bool {
    match found {
        Some(found) => found == word,
        None => false,
    }
}

// Checks whether the code of any program begins with these two words.
fn code_begins() -> bool {
    is_word(stub_word(0), 0x01e0_0893)
        && is_word(stub_word(1), 0x0000_0073)
        && matches!(stub_word(2), None)
}

// Checks whether the example's function begins with these two words.
fn function_begins(certificate: &Certificate) -> bool {
    let [fact] = certificate.functions.as_slice() else {
        return false;
    };
    is_word(prologue_word(fact, 0, 0), 0xff01_0113)
        && is_word(prologue_word(fact, 0, 1), 0x0011_2623)
        && matches!(prologue_word(fact, 0, 2), None)
}

fn example_begins(alloc: Global) -> bool {
    match certificate_of_putting(alloc) {
        Ok(certificate) => {
            let right = function_begins(&certificate);
            drop(certificate);
            right
        }
        Err(_) => false,
    }
}

// Checks whether the frame of a function whose variable has `size` words has `bytes` bytes.
fn has_weight(alloc: Global, size: u32, bytes: u32) -> bool
    requires { size ≤ 1048576 }
{
    match of_words(alloc, size) {
        Ok(function) => {
            let right = weight(&function) == bytes;
            drop(function);
            right
        }
        Err(_) => false,
    }
}

// The variables' words and the return address, rounded up to 16 bytes: worked out by hand.
const WEIGHTS: &[(u32, u32)] = &[(0, 16), (3, 16), (4, 32), (10, 48), (1048576, 4194320)];

fn all_have_weights(alloc: Global, rows: &[(u32, u32)]) -> bool {
    for (size, bytes) in rows {
        if *size > 1048576 || !has_weight(alloc, *size, *bytes) {
            return false;
        }
    }
    true
}

#[test]
fn templates(rt: HostRuntime) {
    let alloc = rt.alloc();
    let right = program_is_right(alloc)
        && example_is_right(alloc)
        && code_begins()
        && example_begins(alloc)
        && all_have_weights(alloc, WEIGHTS);
    assert!(rt; right);
}
