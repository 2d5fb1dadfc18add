use rv_code::{
    BranchOffset, Immediate, Instr, JumpOffset, Register, ShiftCount, UpperImmediate, decode,
    encode, table_laws,
};

const RA: Register = Register::RA;

const SP: Register = Register::SP;

const T0: Register = Register::T0;

const T1: Register = Register::T1;

const ZERO: Register = Register::ZERO;

// No instruction has these words: 0, all ones, a compressed one, funct7 and funct3 of no row.
const OF_NO_ROW: [u32; 8] = [
    0,
    0xffff_ffff,
    0x0000_0001,
    0x4000_1033,
    0x0200_1013,
    0x0020_0073,
    0x0000_100f,
    0x0000_3003,
];

// Checks whether an instruction has this word, and the word decodes to an instruction that has it; by `table_laws` it
// is the same one.
fn has_word(instr: Instr, word: u32) -> bool {
    let again = match decode(word) {
        Some(given) => encode(given) == word,
        None => false,
    };
    encode(instr) == word && again
}

// Checks an addition with an immediate.
fn is_addi(rd: Register, rs1: Register, imm: Immediate, word: u32) -> bool {
    has_word(Instr::Addi { rd, rs1, imm }, word)
}

fn is_lw(rd: Register, rs1: Register, imm: Immediate, word: u32) -> bool {
    has_word(Instr::Lw { rd, rs1, imm }, word)
}

fn is_sw(rs1: Register, rs2: Register, imm: Immediate, word: u32) -> bool {
    has_word(Instr::Sw { rs1, rs2, imm }, word)
}

fn is_bltu(rs1: Register, rs2: Register, imm: BranchOffset, word: u32) -> bool {
    has_word(Instr::Bltu { rs1, rs2, imm }, word)
}

fn is_fence(rd: Register, rs1: Register, imm: Immediate, word: u32) -> bool {
    has_word(Instr::Fence { rd, rs1, imm }, word)
}

// Each function below has only a few instructions: the facts of many in one are slow to prove.
fn additions_have_their_words() -> bool {
    is_addi(Register::A7, ZERO, Immediate::new(30), 0x01e0_0893)
        && is_addi(SP, SP, Immediate::new(-16), 0xff01_0113)
        && is_addi(T0, T0, Immediate::new(7), 0x0072_8293)
        && is_addi(SP, SP, Immediate::new(16), 0x0101_0113)
}

fn loads_and_stores_have_their_words() -> bool {
    is_lw(Register::A0, SP, Immediate::new(0), 0x0001_2503)
        && is_lw(RA, SP, Immediate::new(12), 0x00c1_2083)
        && is_sw(SP, RA, Immediate::new(12), 0x0011_2623)
        && is_sw(SP, T0, Immediate::new(0), 0x0051_2023)
}

fn branches_have_their_words() -> bool {
    let is_not_equal = Instr::Bne {
        rs1: T0,
        rs2: ZERO,
        imm: BranchOffset::new(8),
    };
    is_bltu(T0, Register::TP, BranchOffset::new(12), 0x0042_e663)
        && is_bltu(T0, T1, BranchOffset::new(16), 0x0062_e863)
        && has_word(is_not_equal, 0x0002_9463)
}

fn jumps_have_their_words() -> bool {
    let back = Instr::Jalr {
        rd: ZERO,
        rs1: RA,
        imm: Immediate::new(0),
    };
    let on = Instr::Jal {
        rd: ZERO,
        imm: JumpOffset::new(24),
    };
    has_word(back, 0x0000_8067) && has_word(on, 0x0180_006f)
}

fn system_calls_have_their_words() -> bool {
    has_word(Instr::Ecall, 0x0000_0073) && has_word(Instr::Ebreak, 0x0010_0073)
}

// fence iorw, iorw, and a fence with other fields.
fn fences_have_their_words() -> bool {
    is_fence(ZERO, ZERO, Immediate::new(0x0ff), 0x0ff0_000f)
        && is_fence(RA, SP, Immediate::new(-1), 0xfff1_008f)
}

// sub t0, sp, t1, lui t0, 0xfffff and srai t0, t1, 31.
fn others_have_their_words() -> bool {
    let difference = Instr::Sub {
        rd: T0,
        rs1: SP,
        rs2: T1,
    };
    let upper = Instr::Lui {
        rd: T0,
        imm: UpperImmediate::new(0xfffff),
    };
    let shift = Instr::Srai {
        rd: T0,
        rs1: T1,
        imm: ShiftCount::new(31),
    };
    has_word(difference, 0x4061_02b3)
        && has_word(upper, 0xffff_f2b7)
        && has_word(shift, 0x41f3_5293)
}

fn none_decodes(words: &[u32]) -> bool {
    for word in words {
        if decode(*word).is_some() {
            return false;
        }
    }
    true
}

// Counts and upper immediates are returned as they were passed.
fn operands_come_back() -> bool {
    Immediate::new(-2048).value() == -2048
        && BranchOffset::new(-4096).value() == -4096
        && JumpOffset::new(1_048_574).value() == 1_048_574
        && ShiftCount::new(31).value() == 31
        && UpperImmediate::new(1_048_575).value() == 1_048_575
        && T1.number() == 6
}

#[test]
fn instructions(rt: HostRuntime) {
    table_laws();
    let right = additions_have_their_words()
        && loads_and_stores_have_their_words()
        && branches_have_their_words()
        && jumps_have_their_words()
        && system_calls_have_their_words()
        && fences_have_their_words()
        && others_have_their_words()
        && none_decodes(&OF_NO_ROW)
        && operands_come_back();
    assert!(rt; right);
}
