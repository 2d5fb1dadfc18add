use crate::{Ram, WordRam};
use cap_word::{FaultKind, Words};
use decoded_code::decode_all;
use rv_code::Register;
use rv_machine::{Memory, Regs, StepResult, step, step_decoded};
use stack_image::Image;
use std::alloc::{AllocError, Global};

const SAMPLE: Ram = Ram {
    bytes: [
        0x80, 0xff, 0x01, 0x7f, 0x11, 0x22, 0x33, 0x44, 0, 1, 2, 3, 4, 5, 6, 7,
    ],
};

// The instructions that fault, each with its pc and the fault, the first if two apply.
const FAULTS: [(u32, u32, FaultKind); 18] = [
    (0x0000_0013, 0x1002, FaultKind::Misaligned),
    (0x0000_0013, 0x0002, FaultKind::Misaligned),
    (0x0000_0013, 0x0ffc, FaultKind::Fetch),
    (0x0000_0013, 0x1004, FaultKind::Fetch),
    (0x0000_0000, 0x1000, FaultKind::Illegal),
    (0x0010_0073, 0x1000, FaultKind::Break),
    (0x0020_2283, 0x1000, FaultKind::Misaligned), // lw x5,2(x0)
    (0x0010_1283, 0x1000, FaultKind::Misaligned), // lh x5,1(x0)
    (0x0120_2283, 0x1000, FaultKind::Misaligned), // lw x5,18(x0), which isn't readable either
    (0x0100_2283, 0x1000, FaultKind::Load), // lw x5,16(x0)
    (0x0100_0283, 0x1000, FaultKind::Load), // lb x5,16(x0)
    (0x0000_2123, 0x1000, FaultKind::Misaligned), // sw x0,2(x0)
    (0x0000_10a3, 0x1000, FaultKind::Misaligned), // sh x0,1(x0)
    (0x0000_2423, 0x1000, FaultKind::Store), // sw x0,8(x0), which is readable
    (0x0000_0423, 0x1000, FaultKind::Store), // sb x0,8(x0)
    (0x0020_00ef, 0x1000, FaultKind::Misaligned), // jal x1,.+2
    (0x0020_80e7, 0x1000, FaultKind::Misaligned), // jalr x1,2(x1)
    (0x0000_0163, 0x1000, FaultKind::Misaligned), // beq x0,x0,.+2
];

// An instruction, the value of register 5 after it, and the next pc.
const REGISTERS: [(u32, u32, u32); 19] = [
    (0x0ff0_000f, 0x89ab_cdef, 0x1004), // fence
    (0xfff1_008f, 0x89ab_cdef, 0x1004), // fence with other fields
    (0x0000_0283, 0xffff_ff80, 0x1004), // lb x5,0(x0)
    (0x0000_4283, 0x0000_0080, 0x1004), // lbu x5,0(x0)
    (0x0000_1283, 0xffff_ff80, 0x1004), // lh x5,0(x0)
    (0x0000_5283, 0x0000_ff80, 0x1004), // lhu x5,0(x0)
    (0x0000_2283, 0x7f01_ff80, 0x1004), // lw x5,0(x0)
    (0x0020_1283, 0x0000_7f01, 0x1004), // lh x5,2(x0)
    (0xfff0_3293, 1, 0x1004), // sltiu x5,x0,-1
    (0x0203_42b3, 0xffff_ffff, 0x1004), // div x5,x6,x0
    (0x4062_82b3, 0x89ab_cde8, 0x1004), // sub x5,x5,x6
    (0x4042_d293, 0xf89a_bcde, 0x1004), // srai x5,x5,4
    (0xffff_f2b7, 0xffff_f000, 0x1004), // lui x5,0xfffff
    (0x0000_1297, 0x0000_2000, 0x1004), // auipc x5,1
    (0x0050_82e7, 0x0000_1004, 0x1004), // jalr x5,5(x1)
    (0x0080_02ef, 0x0000_1004, 0x1008), // jal x5,.+8
    (0x0062_c463, 0x89ab_cdef, 0x1008), // blt x5,x6,.+8
    (0x0062_e463, 0x89ab_cdef, 0x1004), // bltu x5,x6,.+8
    (0x0000_1163, 0x89ab_cdef, 0x1004), // bne x0,x0,.+2, not taken
];

// A store of register 5, and the first four bytes after it.
const STORES: [(u32, [u8; 4]); 3] = [
    (0x0050_2023, [0xef, 0xcd, 0xab, 0x89]), // sw x5,0(x0)
    (0x0050_1123, [0x80, 0xff, 0xef, 0xcd]), // sh x5,2(x0)
    (0x0050_00a3, [0x80, 0xef, 0x01, 0x7f]), // sb x5,1(x0)
];

// A store of register 5, and the first two words of the memory of words after it.
const WORDS: [(u32, u32, u32); 5] = [
    (0x0050_2023, 0x89ab_cdef, 0x4433_2211), // sw x5,0(x0)
    (0x0050_1123, 0xcdef_ff80, 0x4433_2211), // sh x5,2(x0)
    (0x0050_00a3, 0x7f01_ef80, 0x4433_2211), // sb x5,1(x0)
    (0x0050_03a3, 0x7f01_ff80, 0xef33_2211), // sb x5,7(x0)
    (0x0050_2423, 0x7f01_ff80, 0x4433_2211), // sw x5,8(x0), which isn't writable
];

// A step over the words of the code, or over decoded code.
#[derive(Clone, Copy)]
enum Form {
    Words,
    Decoded,
}

// The answer of a step, and the registers and the memory after it.
#[derive(Clone, Copy)]
struct After<M> {
    result: StepResult,
    now: Regs,
    memory: M,
}

// Returns registers: 1 has the code's start, 5 the word 0x89abcdef, 6 seven, and 17 three.
fn start(pc: u32) -> Regs {
    let mut x = [0; 32];
    x[1] = 0x1000;
    x[5] = 0x89ab_cdef;
    x[6] = 7;
    x[17] = 3;
    Regs { pc, x }
}

// Makes one step in that form over code that consists of that word.
fn stepped<M: Memory + Copy>(
    alloc: Global,
    form: Form,
    word: u32,
    now: Regs,
    memory: M,
) -> Result<After<M>, AllocError> {
    match form {
        Form::Words => stepped_in_words(alloc, word, now, memory),
        Form::Decoded => stepped_decoded(alloc, word, now, memory),
    }
}

fn stepped_decoded<M: Memory + Copy>(
    alloc: Global,
    word: u32,
    now: Regs,
    memory: M,
) -> Result<After<M>, AllocError> {
    let code = decode_all(alloc, &[word])?;
    let (mut now, mut memory) = (now, memory);
    let result = step_decoded(code.as_slice(), &mut memory, &mut now);
    drop(code);
    Ok(After {
        result,
        now,
        memory,
    })
}

// Makes one step over an image whose code is that word.
fn stepped_in_words<M: Memory + Copy>(
    alloc: Global,
    word: u32,
    now: Regs,
    memory: M,
) -> Result<After<M>, AllocError> {
    let code = Image {
        code: Words::new(Vec::from_array(alloc, [word])?),
        globals: Words::new(Vec::new(alloc)),
        tables: Words::new(Vec::new(alloc)),
        entries: Words::new(Vec::new(alloc)),
    };
    let (mut now, mut memory) = (now, memory);
    let result = step(&code, &mut memory, &mut now);
    drop(code);
    Ok(After {
        result,
        now,
        memory,
    })
}

// Checks whether the step has that fault, and nothing changes.
fn fails(alloc: Global, form: Form, word: u32, pc: u32, kind: FaultKind) -> bool {
    let Ok(after) = stepped(alloc, form, word, start(pc), SAMPLE) else {
        return false;
    };
    after.result == StepResult::Fault { pc, kind }
        && after.now == start(pc)
        && after.memory.bytes == SAMPLE.bytes
}

// Checks whether the step leaves that value in register 5, continues at that pc, and stores nothing.
fn leaves(alloc: Global, form: Form, word: u32, value: u32, pc: u32) -> bool {
    let Ok(after) = stepped(alloc, form, word, start(0x1000), SAMPLE) else {
        return false;
    };
    after.result == StepResult::Went
        && after.now.pc == pc
        && after.now.read(Register::T0) == value
        && after.memory.bytes == SAMPLE.bytes
}

// Checks whether the step leaves these first four bytes, and the others unchanged.
fn stores(alloc: Global, form: Form, word: u32, bytes: [u8; 4]) -> bool {
    let Ok(after) = stepped(alloc, form, word, start(0x1000), SAMPLE) else {
        return false;
    };
    after.result == StepResult::Went
        && after.memory.bytes[..4] == bytes[..]
        && after.memory.bytes[4..] == SAMPLE.bytes[4..]
}

// Checks whether a memory of words has the same bytes after the store, reads a word as the memory of bytes does, and
// keeps the numbers that aren't memory.
fn stores_in_words(alloc: Global, form: Form, word: u32, first: u32, second: u32) -> bool {
    let words = WordRam {
        words: [0x7f01_ff80, 0x4433_2211, 0x0302_0100, 0x0706_0504],
        free: [8, 9],
    };
    let Ok(after) = stepped(alloc, form, word, start(0x1000), words) else {
        return false;
    };
    let memory = after.memory;
    memory.words == [first, second, 0x0302_0100, 0x0706_0504]
        && memory.free == [8, 9]
        && memory.load_word(0) == Some(first)
        && memory.load(7) == Some((second >> 24) as u8)
}

// Checks whether ECALL returns register 17 and pc stays.
fn calls(alloc: Global, form: Form) -> bool {
    let Ok(call) = stepped(alloc, form, 0x0000_0073, start(0x1000), SAMPLE) else {
        return false;
    };
    call.result == (StepResult::Call { number: 3 })
        && call.now == start(0x1000)
        && call.memory.bytes == SAMPLE.bytes
}

// Checks whether JALR reads its register before it writes it, and register 0 stays 0.
fn links(alloc: Global, form: Form) -> bool {
    // jalr x1,5(x1)
    let Ok(link) = stepped(alloc, form, 0x0050_80e7, start(0x1000), SAMPLE) else {
        return false;
    };
    let mut now = link.now;
    now.write(Register::ZERO, 9);
    link.result == StepResult::Went
        && link.now.pc == 0x1004
        && link.now.x[1] == 0x1004
        && now.read(Register::ZERO) == 0
}

fn all_fail(alloc: Global, form: Form, rows: &[(u32, u32, FaultKind)]) -> bool {
    for (word, pc, kind) in rows {
        if !fails(alloc, form, *word, *pc, *kind) {
            return false;
        }
    }
    true
}

fn all_leave(alloc: Global, form: Form, rows: &[(u32, u32, u32)]) -> bool {
    for (word, value, pc) in rows {
        if !leaves(alloc, form, *word, *value, *pc) {
            return false;
        }
    }
    true
}

fn all_store(alloc: Global, form: Form, rows: &[(u32, [u8; 4])]) -> bool {
    for (word, bytes) in rows {
        if !stores(alloc, form, *word, *bytes) {
            return false;
        }
    }
    true
}

fn all_store_in_words(alloc: Global, form: Form, rows: &[(u32, u32, u32)]) -> bool {
    for (word, first, second) in rows {
        if !stores_in_words(alloc, form, *word, *first, *second) {
            return false;
        }
    }
    true
}

// Checks whether every row holds for a form of the step.
fn holds_of(alloc: Global, form: Form) -> bool {
    all_fail(alloc, form, &FAULTS)
        && all_leave(alloc, form, &REGISTERS)
        && all_store(alloc, form, &STORES)
        && all_store_in_words(alloc, form, &WORDS)
        && calls(alloc, form)
        && links(alloc, form)
}

#[test]
fn steps(rt: HostRuntime) {
    let alloc = rt.alloc();
    assert!(rt; holds_of(alloc, Form::Words) && holds_of(alloc, Form::Decoded));
}
