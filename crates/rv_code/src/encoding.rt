ghost use Rattle.std.specs.Prelude.{◌≡◌};
ghost use Rattle.rv_code.specs.Decoding.{decoding};
ghost use Rattle.rv_code.specs.Operands.{IsInRange};
ghost use Rattle.rv_code.specs.Table.{encoding};

use crate::formats::{b_type, i_type, j_type, r_type, s_type, shift_type, u_type};
use crate::instructions::Instr;

/// Returns the word of an instruction: its fields, laid out by its format (RISC-V unprivileged manual,
/// chapters "RV32I", section "Base Instruction Formats", and "M").
pub fn encode(instr: Instr) -> u32
    ensures word { result ≡ encoding instr }
    ensures ranges { IsInRange instr }
    ensures back { decoding result ≡ Some instr }
{
    word_of(instr)
}

// The row of the table for each instruction, in the manual's order.
#[tactic(auto, unfolding(crate::specs::Table::encoding, crate::specs::Operands::IsInRange))]
fn word_of(instr: Instr) -> u32
    ensures word { result ≡ encoding instr }
    ensures ranges { IsInRange instr }
{
    match instr {
        Instr::Lui { rd, imm } => u_type(imm, rd, 0b0110111),
        Instr::Auipc { rd, imm } => u_type(imm, rd, 0b0010111),
        Instr::Jal { rd, imm } => j_type(imm, rd, 0b1101111),
        Instr::Jalr { rd, rs1, imm } => i_type(imm, rs1, 0b000, rd, 0b1100111),
        Instr::Beq { rs1, rs2, imm } => b_type(imm, rs2, rs1, 0b000, 0b1100011),
        Instr::Bne { rs1, rs2, imm } => b_type(imm, rs2, rs1, 0b001, 0b1100011),
        Instr::Blt { rs1, rs2, imm } => b_type(imm, rs2, rs1, 0b100, 0b1100011),
        Instr::Bge { rs1, rs2, imm } => b_type(imm, rs2, rs1, 0b101, 0b1100011),
        Instr::Bltu { rs1, rs2, imm } => b_type(imm, rs2, rs1, 0b110, 0b1100011),
        Instr::Bgeu { rs1, rs2, imm } => b_type(imm, rs2, rs1, 0b111, 0b1100011),
        Instr::Lb { rd, rs1, imm } => i_type(imm, rs1, 0b000, rd, 0b0000011),
        Instr::Lh { rd, rs1, imm } => i_type(imm, rs1, 0b001, rd, 0b0000011),
        Instr::Lw { rd, rs1, imm } => i_type(imm, rs1, 0b010, rd, 0b0000011),
        Instr::Lbu { rd, rs1, imm } => i_type(imm, rs1, 0b100, rd, 0b0000011),
        Instr::Lhu { rd, rs1, imm } => i_type(imm, rs1, 0b101, rd, 0b0000011),
        Instr::Sb { rs1, rs2, imm } => s_type(imm, rs2, rs1, 0b000, 0b0100011),
        Instr::Sh { rs1, rs2, imm } => s_type(imm, rs2, rs1, 0b001, 0b0100011),
        Instr::Sw { rs1, rs2, imm } => s_type(imm, rs2, rs1, 0b010, 0b0100011),
        Instr::Addi { rd, rs1, imm } => i_type(imm, rs1, 0b000, rd, 0b0010011),
        Instr::Slti { rd, rs1, imm } => i_type(imm, rs1, 0b010, rd, 0b0010011),
        Instr::Sltiu { rd, rs1, imm } => i_type(imm, rs1, 0b011, rd, 0b0010011),
        Instr::Xori { rd, rs1, imm } => i_type(imm, rs1, 0b100, rd, 0b0010011),
        Instr::Ori { rd, rs1, imm } => i_type(imm, rs1, 0b110, rd, 0b0010011),
        Instr::Andi { rd, rs1, imm } => i_type(imm, rs1, 0b111, rd, 0b0010011),
        Instr::Slli { rd, rs1, imm } => shift_type(0b0000000, imm, rs1, 0b001, rd, 0b0010011),
        Instr::Srli { rd, rs1, imm } => shift_type(0b0000000, imm, rs1, 0b101, rd, 0b0010011),
        Instr::Srai { rd, rs1, imm } => shift_type(0b0100000, imm, rs1, 0b101, rd, 0b0010011),
        Instr::Add { rd, rs1, rs2 } => r_type(0b0000000, rs2, rs1, 0b000, rd, 0b0110011),
        Instr::Sub { rd, rs1, rs2 } => r_type(0b0100000, rs2, rs1, 0b000, rd, 0b0110011),
        Instr::Sll { rd, rs1, rs2 } => r_type(0b0000000, rs2, rs1, 0b001, rd, 0b0110011),
        Instr::Slt { rd, rs1, rs2 } => r_type(0b0000000, rs2, rs1, 0b010, rd, 0b0110011),
        Instr::Sltu { rd, rs1, rs2 } => r_type(0b0000000, rs2, rs1, 0b011, rd, 0b0110011),
        Instr::Xor { rd, rs1, rs2 } => r_type(0b0000000, rs2, rs1, 0b100, rd, 0b0110011),
        Instr::Srl { rd, rs1, rs2 } => r_type(0b0000000, rs2, rs1, 0b101, rd, 0b0110011),
        Instr::Sra { rd, rs1, rs2 } => r_type(0b0100000, rs2, rs1, 0b101, rd, 0b0110011),
        Instr::Or { rd, rs1, rs2 } => r_type(0b0000000, rs2, rs1, 0b110, rd, 0b0110011),
        Instr::And { rd, rs1, rs2 } => r_type(0b0000000, rs2, rs1, 0b111, rd, 0b0110011),
        Instr::Fence { rd, rs1, imm } => i_type(imm, rs1, 0b000, rd, 0b0001111),
        Instr::Ecall => 0x0000_0073,
        Instr::Ebreak => 0x0010_0073,
        Instr::Mul { rd, rs1, rs2 } => r_type(0b0000001, rs2, rs1, 0b000, rd, 0b0110011),
        Instr::Mulh { rd, rs1, rs2 } => r_type(0b0000001, rs2, rs1, 0b001, rd, 0b0110011),
        Instr::Mulhsu { rd, rs1, rs2 } => r_type(0b0000001, rs2, rs1, 0b010, rd, 0b0110011),
        Instr::Mulhu { rd, rs1, rs2 } => r_type(0b0000001, rs2, rs1, 0b011, rd, 0b0110011),
        Instr::Div { rd, rs1, rs2 } => r_type(0b0000001, rs2, rs1, 0b100, rd, 0b0110011),
        Instr::Divu { rd, rs1, rs2 } => r_type(0b0000001, rs2, rs1, 0b101, rd, 0b0110011),
        Instr::Rem { rd, rs1, rs2 } => r_type(0b0000001, rs2, rs1, 0b110, rd, 0b0110011),
        Instr::Remu { rd, rs1, rs2 } => r_type(0b0000001, rs2, rs1, 0b111, rd, 0b0110011),
    }
}
