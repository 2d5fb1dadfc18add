use crate::immediates::{Immediate, ShiftCount, UpperImmediate};
use crate::offsets::{BranchOffset, JumpOffset};
use crate::registers::Register;

/// An instruction of RV32IM, with the fields of its format: a variant for each name, in the order of the
/// tables of the RISC-V unprivileged manual (chapters "RV32I" and "M").
#[derive(Clone, Copy)]
pub enum Instr {
    Lui {
        rd: Register,
        imm: UpperImmediate,
    },
    Auipc {
        rd: Register,
        imm: UpperImmediate,
    },
    Jal {
        rd: Register,
        imm: JumpOffset,
    },
    Jalr {
        rd: Register,
        rs1: Register,
        imm: Immediate,
    },
    Beq {
        rs1: Register,
        rs2: Register,
        imm: BranchOffset,
    },
    Bne {
        rs1: Register,
        rs2: Register,
        imm: BranchOffset,
    },
    Blt {
        rs1: Register,
        rs2: Register,
        imm: BranchOffset,
    },
    Bge {
        rs1: Register,
        rs2: Register,
        imm: BranchOffset,
    },
    Bltu {
        rs1: Register,
        rs2: Register,
        imm: BranchOffset,
    },
    Bgeu {
        rs1: Register,
        rs2: Register,
        imm: BranchOffset,
    },
    Lb {
        rd: Register,
        rs1: Register,
        imm: Immediate,
    },
    Lh {
        rd: Register,
        rs1: Register,
        imm: Immediate,
    },
    Lw {
        rd: Register,
        rs1: Register,
        imm: Immediate,
    },
    Lbu {
        rd: Register,
        rs1: Register,
        imm: Immediate,
    },
    Lhu {
        rd: Register,
        rs1: Register,
        imm: Immediate,
    },
    Sb {
        rs1: Register,
        rs2: Register,
        imm: Immediate,
    },
    Sh {
        rs1: Register,
        rs2: Register,
        imm: Immediate,
    },
    Sw {
        rs1: Register,
        rs2: Register,
        imm: Immediate,
    },
    Addi {
        rd: Register,
        rs1: Register,
        imm: Immediate,
    },
    Slti {
        rd: Register,
        rs1: Register,
        imm: Immediate,
    },
    Sltiu {
        rd: Register,
        rs1: Register,
        imm: Immediate,
    },
    Xori {
        rd: Register,
        rs1: Register,
        imm: Immediate,
    },
    Ori {
        rd: Register,
        rs1: Register,
        imm: Immediate,
    },
    Andi {
        rd: Register,
        rs1: Register,
        imm: Immediate,
    },
    Slli {
        rd: Register,
        rs1: Register,
        imm: ShiftCount,
    },
    Srli {
        rd: Register,
        rs1: Register,
        imm: ShiftCount,
    },
    Srai {
        rd: Register,
        rs1: Register,
        imm: ShiftCount,
    },
    Add {
        rd: Register,
        rs1: Register,
        rs2: Register,
    },
    Sub {
        rd: Register,
        rs1: Register,
        rs2: Register,
    },
    Sll {
        rd: Register,
        rs1: Register,
        rs2: Register,
    },
    Slt {
        rd: Register,
        rs1: Register,
        rs2: Register,
    },
    Sltu {
        rd: Register,
        rs1: Register,
        rs2: Register,
    },
    Xor {
        rd: Register,
        rs1: Register,
        rs2: Register,
    },
    Srl {
        rd: Register,
        rs1: Register,
        rs2: Register,
    },
    Sra {
        rd: Register,
        rs1: Register,
        rs2: Register,
    },
    Or {
        rd: Register,
        rs1: Register,
        rs2: Register,
    },
    And {
        rd: Register,
        rs1: Register,
        rs2: Register,
    },
    Fence {
        rd: Register,
        rs1: Register,
        imm: Immediate,
    },
    Ecall,
    Ebreak,
    Mul {
        rd: Register,
        rs1: Register,
        rs2: Register,
    },
    Mulh {
        rd: Register,
        rs1: Register,
        rs2: Register,
    },
    Mulhsu {
        rd: Register,
        rs1: Register,
        rs2: Register,
    },
    Mulhu {
        rd: Register,
        rs1: Register,
        rs2: Register,
    },
    Div {
        rd: Register,
        rs1: Register,
        rs2: Register,
    },
    Divu {
        rd: Register,
        rs1: Register,
        rs2: Register,
    },
    Rem {
        rd: Register,
        rs1: Register,
        rs2: Register,
    },
    Remu {
        rd: Register,
        rs1: Register,
        rs2: Register,
    },
}
