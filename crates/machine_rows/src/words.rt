// The arithmetic of words: rows of the public RISC-V test suite (riscv-tests, rv32ui and rv32um) and of the manual's
// table of divisions that have no quotient.
use cap_word::{
    add, div, divu, mul, mulh, mulhsu, mulhu, rem, remu, sll, slt, sltu, sra, srl, sub,
};

#[derive(Clone, Copy)]
enum Operation {
    Add,
    Sub,
    Slt,
    Sltu,
    Sll,
    Srl,
    Sra,
    Mul,
    Mulh,
    Mulhsu,
    Mulhu,
    Div,
    Divu,
    Rem,
    Remu,
}

fn of_two(operation: Operation, a: u32, b: u32) -> u32 {
    match operation {
        Operation::Add => add(a, b),
        Operation::Sub => sub(a, b),
        Operation::Slt => slt(a, b),
        Operation::Sltu => sltu(a, b),
        Operation::Sll => sll(a, b),
        Operation::Srl => srl(a, b),
        Operation::Sra => sra(a, b),
        Operation::Mul => mul(a, b),
        Operation::Mulh => mulh(a, b),
        Operation::Mulhsu => mulhsu(a, b),
        Operation::Mulhu => mulhu(a, b),
        Operation::Div => div(a, b),
        Operation::Divu => divu(a, b),
        Operation::Rem => rem(a, b),
        Operation::Remu => remu(a, b),
    }
}

const ROWS: [(Operation, u32, u32, u32); 62] = [
    (Operation::Add, 0x7fff_ffff, 0x0000_7fff, 0x8000_7ffe),
    (Operation::Add, 0x8000_0000, 0xffff_8000, 0x7fff_8000),
    (Operation::Add, 0xffff_ffff, 1, 0),
    (Operation::Sub, 0x8000_0000, 0xffff_8000, 0x8000_8000),
    (Operation::Sub, 0, 0xffff_8000, 0x0000_8000),
    (Operation::Sub, 0x8000_0000, 0x0000_7fff, 0x7fff_8001),
    (Operation::Slt, 0x8000_0000, 0x0000_7fff, 1),
    (Operation::Slt, 0x7fff_ffff, 0xffff_8000, 0),
    (Operation::Slt, 0xffff_ffff, 1, 1),
    (Operation::Slt, 3, 3, 0),
    (Operation::Sltu, 0x8000_0000, 0x0000_7fff, 0),
    (Operation::Sltu, 0x7fff_ffff, 0xffff_8000, 1),
    (Operation::Sltu, 0xffff_ffff, 1, 0),
    (Operation::Sltu, 3, 3, 0),
    (Operation::Sll, 0x2121_2121, 14, 0x4848_4000),
    (Operation::Sll, 0x2121_2121, 0xffff_ffce, 0x4848_4000),
    (Operation::Sll, 0x2121_2121, 31, 0x8000_0000),
    (Operation::Sll, 1, 32, 1),
    (Operation::Srl, 0x2121_2121, 14, 0x0000_8484),
    (Operation::Srl, 0x2121_2121, 0xffff_ffce, 0x0000_8484),
    (Operation::Srl, 0xffff_ffff, 31, 1),
    (Operation::Srl, 0x8000_0000, 32, 0x8000_0000),
    (Operation::Sra, 0x8181_8181, 14, 0xfffe_0606),
    (Operation::Sra, 0x8181_8181, 0xffff_ffce, 0xfffe_0606),
    (Operation::Sra, 0x8181_8181, 31, 0xffff_ffff),
    (Operation::Sra, 0x7fff_ffff, 14, 0x0001_ffff),
    (Operation::Mul, 0x0000_7e00, 0xb6db_6db7, 0x0000_1200),
    (Operation::Mul, 0xffff_ffff, 0xffff_ffff, 1),
    (Operation::Mul, 0xaaaa_aaab, 0x0002_fe7d, 0x0000_ff7f),
    (Operation::Mulh, 0x8000_0000, 0xffff_8000, 0x0000_4000),
    (Operation::Mulh, 0xaaaa_aaab, 0x0002_fe7d, 0xffff_0081),
    (Operation::Mulh, 0xffff_ffff, 0xffff_ffff, 0),
    (Operation::Mulh, 0xffff_ffff, 1, 0xffff_ffff),
    (Operation::Mulhsu, 0x8000_0000, 0xffff_8000, 0x8000_4000),
    (Operation::Mulhsu, 0xaaaa_aaab, 0x0002_fe7d, 0xffff_0081),
    (Operation::Mulhsu, 0x0002_fe7d, 0xaaaa_aaab, 0x0001_fefe),
    (Operation::Mulhsu, 0xffff_ffff, 1, 0xffff_ffff),
    (Operation::Mulhu, 0x8000_0000, 0xffff_8000, 0x7fff_c000),
    (Operation::Mulhu, 0xaaaa_aaab, 0x0002_fe7d, 0x0001_fefe),
    (Operation::Mulhu, 0xffff_ffff, 0xffff_ffff, 0xffff_fffe),
    (Operation::Div, 20, 6, 3),
    (Operation::Div, 0xffff_ffec, 6, 0xffff_fffd),
    (Operation::Div, 20, 0xffff_fffa, 0xffff_fffd),
    (Operation::Div, 0xffff_ffec, 0xffff_fffa, 3),
    (Operation::Div, 0x8000_0000, 0xffff_ffff, 0x8000_0000),
    (Operation::Div, 1, 0, 0xffff_ffff),
    (Operation::Divu, 20, 6, 3),
    (Operation::Divu, 0xffff_ffec, 6, 0x2aaa_aaa7),
    (Operation::Divu, 20, 0xffff_fffa, 0),
    (Operation::Divu, 0x8000_0000, 0xffff_ffff, 0),
    (Operation::Divu, 1, 0, 0xffff_ffff),
    (Operation::Rem, 20, 6, 2),
    (Operation::Rem, 0xffff_ffec, 6, 0xffff_fffe),
    (Operation::Rem, 20, 0xffff_fffa, 2),
    (Operation::Rem, 0xffff_ffec, 0xffff_fffa, 0xffff_fffe),
    (Operation::Rem, 0x8000_0000, 0xffff_ffff, 0),
    (Operation::Rem, 0x8000_0000, 0, 0x8000_0000),
    (Operation::Remu, 20, 6, 2),
    (Operation::Remu, 0xffff_ffec, 6, 2),
    (Operation::Remu, 20, 0xffff_fffa, 20),
    (Operation::Remu, 0x8000_0000, 0xffff_ffff, 0x8000_0000),
    (Operation::Remu, 1, 0, 1),
];

// Checks whether each row's third word is the result of its operation.
fn all_hold(rows: &[(Operation, u32, u32, u32)]) -> bool {
    for (operation, a, b, want) in rows {
        if of_two(*operation, *a, *b) != *want {
            return false;
        }
    }
    true
}

#[test]
fn two_words_give_a_third(rt: HostRuntime) {
    assert!(rt; all_hold(&ROWS));
}
