// The formats' vectors in segments: each word is in the code of a program whose outcome is worked out by hand from the
// templates. A segment does most of these instructions as ready operations, and not by the machine's step.

ghost use Rattle.codegen_link.specs.Plans.{AreInRange};

use crate::Outcome;
use crate::cases::{FUEL, ONCE, leads_to};
use crate::operations::asked;
use crate::runs::accepted_of;
use cap_word::Ask;
use codegen_link::Options;
use std::alloc::Global;

// The defaults of the command line.
const USUAL: Options = Options {
    chunk: 4096,
    max_path: 2032,
};

const LINKING: Options = Options {
    chunk: 80,
    max_path: 48,
};

const PUT_SEVEN: &[u8] = b"int main() { put(7); return 0; }";

const INDEXED: &[u8] = b"int main() { int a[3]; put(a[2]); return 0; }";

// The code of the first source, as the formats have it.
const CODE_OF_PUT_SEVEN: [u32; 24] = [
    0x01e0_0893, // addi a7,x0,30
    0x0000_0073, // ecall
    0xff01_0113, // addi sp,sp,-16
    0x0011_2623, // sw ra,12(sp)
    0x0000_02b7, // lui t0,0
    0x0072_8293, // addi t0,t0,7
    0x0051_2023, // sw t0,0(sp)
    0x0001_2503, // lw a0,0(sp)
    0x0030_0893, // addi a7,x0,3
    0x0000_0073, // ecall
    0x0000_02b7, // lui t0,0
    0x0002_8293, // addi t0,t0,0
    0x0051_2023, // sw t0,0(sp)
    0x0001_2503, // lw a0,0(sp)
    0x00c1_2083, // lw ra,12(sp)
    0x0101_0113, // addi sp,sp,16
    0x0000_8067, // jalr x0,0(ra)
    0x0000_02b7, // lui t0,0
    0x0002_8293, // addi t0,t0,0
    0x0051_2023, // sw t0,0(sp)
    0x0001_2503, // lw a0,0(sp)
    0x00c1_2083, // lw ra,12(sp)
    0x0101_0113, // addi sp,sp,16
    0x0000_8067, // jalr x0,0(ra)
];

// The vectors in the code of a call that links a chunk if the current one has no room.
const OF_A_LINKED_CALL: [u32; 4] = [
    0x4061_02b3, // sub t0,sp,t1
    0x0042_e663, // bltu t0,tp,+12
    0x0180_006f, // jal x0,+24
    0x0002_9463, // bne t0,x0,+8
];

// The vector in the code of an index: bltu t0,t1,+16.
const OF_AN_INDEX: [u32; 1] = [0x0062_e863];

// Checks whether each of these words is one of the code.
fn has_each(code: &[u32], words: &[u32]) -> bool {
    for word in words {
        if !code.contains(word) {
            return false;
        }
    }
    true
}

// Checks whether the code of a source has these words, and `main` this outcome over two chunks.
fn are_run(alloc: Global, words: &[u32], source: &[u8], options: Options, want: Outcome) -> bool
    requires { AreInRange options }
{
    match accepted_of(alloc, source, options) {
        Some(accepted) => {
            let are_there = has_each(accepted.image().code.as_slice(), words);
            let is_so = leads_to(alloc, &accepted, 2, FUEL, want);
            drop(accepted);
            are_there && is_so
        }
        None => false,
    }
}

// Checks whether a source has exactly this code.
fn is_laid_out(alloc: Global, source: &[u8], code: &[u32]) -> bool {
    match accepted_of(alloc, source, USUAL) {
        Some(accepted) => {
            let is_so = accepted.image().code.as_slice() == code;
            drop(accepted);
            is_so
        }
        None => false,
    }
}

fn put(value: u32, retired: u64) -> Outcome {
    asked(Ask::Put { value }, value, retired, 2)
}

#[test]
fn vectors(rt: HostRuntime) {
    let alloc = rt.alloc();
    let right = is_laid_out(alloc, PUT_SEVEN, &CODE_OF_PUT_SEVEN)
        && are_run(alloc, &CODE_OF_PUT_SEVEN, PUT_SEVEN, USUAL, put(7, 17))
        && are_run(alloc, &OF_A_LINKED_CALL, ONCE, LINKING, put(1, 100))
        && are_run(alloc, &OF_AN_INDEX, INDEXED, USUAL, put(0, 28));
    assert!(rt; right);
}
