ghost use Rattle.std.specs.Prelude.{◌≡◌, ◌≢◌, IfSome, IfNone};
ghost use Rattle.rv_code.specs.Decoding as row;
ghost use Rattle.rv_code.specs.Operands.{IsInRange};
ghost use Rattle.rv_code.specs.Table.{encoding};
ghost use Rattle.rv_code.specs.declared.instructions.Instr.{Instr as Instruction};

use crate::fields::{
    b_immediate, funct3, funct7, i_immediate, j_immediate, opcode, rd, rs1, rs2, s_immediate,
    shift_count, u_immediate,
};
use crate::instructions::Instr;

/// Returns the instruction of a word, or `None` exactly if the word fits no row of the table (RISC-V
/// unprivileged manual, chapters "RV32I" and "M").
pub fn decode(word: u32) -> Option<Instr>
    ensures row { result ≡ row.decoding word }
    ensures back { IfSome result (λ instr. IsInRange instr × (encoding instr ≡ word)) }
    ensures none { IfNone result ((instr : Instruction) → IsInRange instr → encoding instr ≢ word) }
{
    by_opcode(word)
}

#[tactic(auto, unfolding(crate::specs::Decoding::decoding))]
fn by_opcode(word: u32) -> Option<Instr>
    ensures { result ≡ row.decoding word }
{
    match opcode(word) {
        0b0110111 => Some(Instr::Lui {
            rd: rd(word),
            imm: u_immediate(word),
        }),
        0b0010111 => Some(Instr::Auipc {
            rd: rd(word),
            imm: u_immediate(word),
        }),
        0b1101111 => Some(Instr::Jal {
            rd: rd(word),
            imm: j_immediate(word),
        }),
        0b1100111 => jump_register(word),
        0b1100011 => branch(word),
        0b0000011 => load(word),
        0b0100011 => store(word),
        0b0010011 => with_immediate(word),
        0b0110011 => with_register(word),
        0b0001111 => fence(word),
        0b1110011 => system(word),
        _ => None,
    }
}

#[tactic(auto, unfolding(crate::specs::Decoding::jump_register))]
fn jump_register(word: u32) -> Option<Instr>
    ensures { result ≡ row.jump_register word }
{
    let (rd, rs1, imm) = (rd(word), rs1(word), i_immediate(word));
    match funct3(word) {
        0b000 => Some(Instr::Jalr { rd, rs1, imm }),
        _ => None,
    }
}

#[tactic(auto, unfolding(crate::specs::Decoding::branch))]
fn branch(word: u32) -> Option<Instr>
    ensures { result ≡ row.branch word }
{
    let (rs1, rs2, imm) = (rs1(word), rs2(word), b_immediate(word));
    match funct3(word) {
        0b000 => Some(Instr::Beq { rs1, rs2, imm }),
        0b001 => Some(Instr::Bne { rs1, rs2, imm }),
        0b100 => Some(Instr::Blt { rs1, rs2, imm }),
        0b101 => Some(Instr::Bge { rs1, rs2, imm }),
        0b110 => Some(Instr::Bltu { rs1, rs2, imm }),
        0b111 => Some(Instr::Bgeu { rs1, rs2, imm }),
        _ => None,
    }
}

#[tactic(auto, unfolding(crate::specs::Decoding::load))]
fn load(word: u32) -> Option<Instr>
    ensures { result ≡ row.load word }
{
    let (rd, rs1, imm) = (rd(word), rs1(word), i_immediate(word));
    match funct3(word) {
        0b000 => Some(Instr::Lb { rd, rs1, imm }),
        0b001 => Some(Instr::Lh { rd, rs1, imm }),
        0b010 => Some(Instr::Lw { rd, rs1, imm }),
        0b100 => Some(Instr::Lbu { rd, rs1, imm }),
        0b101 => Some(Instr::Lhu { rd, rs1, imm }),
        _ => None,
    }
}

#[tactic(auto, unfolding(crate::specs::Decoding::store))]
fn store(word: u32) -> Option<Instr>
    ensures { result ≡ row.store word }
{
    let (rs1, rs2, imm) = (rs1(word), rs2(word), s_immediate(word));
    match funct3(word) {
        0b000 => Some(Instr::Sb { rs1, rs2, imm }),
        0b001 => Some(Instr::Sh { rs1, rs2, imm }),
        0b010 => Some(Instr::Sw { rs1, rs2, imm }),
        _ => None,
    }
}

#[tactic(auto, unfolding(crate::specs::Decoding::with_immediate))]
fn with_immediate(word: u32) -> Option<Instr>
    ensures { result ≡ row.with_immediate word }
{
    let (rd, rs1, imm) = (rd(word), rs1(word), i_immediate(word));
    match funct3(word) {
        0b000 => Some(Instr::Addi { rd, rs1, imm }),
        0b010 => Some(Instr::Slti { rd, rs1, imm }),
        0b011 => Some(Instr::Sltiu { rd, rs1, imm }),
        0b100 => Some(Instr::Xori { rd, rs1, imm }),
        0b110 => Some(Instr::Ori { rd, rs1, imm }),
        0b111 => Some(Instr::Andi { rd, rs1, imm }),
        _ => shift(word),
    }
}

#[tactic(auto, unfolding(crate::specs::Decoding::shift))]
fn shift(word: u32) -> Option<Instr>
    ensures { result ≡ row.shift word }
{
    let (rd, rs1, imm) = (rd(word), rs1(word), shift_count(word));
    match (funct7(word), funct3(word)) {
        (0b0000000, 0b001) => Some(Instr::Slli { rd, rs1, imm }),
        (0b0000000, 0b101) => Some(Instr::Srli { rd, rs1, imm }),
        (0b0100000, 0b101) => Some(Instr::Srai { rd, rs1, imm }),
        _ => None,
    }
}

#[tactic(auto, unfolding(crate::specs::Decoding::with_register))]
fn with_register(word: u32) -> Option<Instr>
    ensures { result ≡ row.with_register word }
{
    match funct7(word) {
        0b0000000 => base(word),
        0b0100000 => alternate(word),
        0b0000001 => multiply(word),
        _ => None,
    }
}

#[tactic(auto, unfolding(crate::specs::Decoding::base))]
fn base(word: u32) -> Option<Instr>
    ensures { result ≡ row.base word }
{
    let (rd, rs1, rs2) = (rd(word), rs1(word), rs2(word));
    match funct3(word) {
        0b000 => Some(Instr::Add { rd, rs1, rs2 }),
        0b001 => Some(Instr::Sll { rd, rs1, rs2 }),
        0b010 => Some(Instr::Slt { rd, rs1, rs2 }),
        0b011 => Some(Instr::Sltu { rd, rs1, rs2 }),
        0b100 => Some(Instr::Xor { rd, rs1, rs2 }),
        0b101 => Some(Instr::Srl { rd, rs1, rs2 }),
        0b110 => Some(Instr::Or { rd, rs1, rs2 }),
        0b111 => Some(Instr::And { rd, rs1, rs2 }),
        _ => None,
    }
}

#[tactic(auto, unfolding(crate::specs::Decoding::alternate))]
fn alternate(word: u32) -> Option<Instr>
    ensures { result ≡ row.alternate word }
{
    let (rd, rs1, rs2) = (rd(word), rs1(word), rs2(word));
    match funct3(word) {
        0b000 => Some(Instr::Sub { rd, rs1, rs2 }),
        0b101 => Some(Instr::Sra { rd, rs1, rs2 }),
        _ => None,
    }
}

#[tactic(auto, unfolding(crate::specs::Decoding::multiply))]
fn multiply(word: u32) -> Option<Instr>
    ensures { result ≡ row.multiply word }
{
    let (rd, rs1, rs2) = (rd(word), rs1(word), rs2(word));
    match funct3(word) {
        0b000 => Some(Instr::Mul { rd, rs1, rs2 }),
        0b001 => Some(Instr::Mulh { rd, rs1, rs2 }),
        0b010 => Some(Instr::Mulhsu { rd, rs1, rs2 }),
        0b011 => Some(Instr::Mulhu { rd, rs1, rs2 }),
        0b100 => Some(Instr::Div { rd, rs1, rs2 }),
        0b101 => Some(Instr::Divu { rd, rs1, rs2 }),
        0b110 => Some(Instr::Rem { rd, rs1, rs2 }),
        0b111 => Some(Instr::Remu { rd, rs1, rs2 }),
        _ => None,
    }
}

#[tactic(auto, unfolding(crate::specs::Decoding::fence))]
fn fence(word: u32) -> Option<Instr>
    ensures { result ≡ row.fence word }
{
    let (rd, rs1, imm) = (rd(word), rs1(word), i_immediate(word));
    match funct3(word) {
        0b000 => Some(Instr::Fence { rd, rs1, imm }),
        _ => None,
    }
}

#[tactic(auto, unfolding(crate::specs::Decoding::system))]
fn system(word: u32) -> Option<Instr>
    ensures { result ≡ row.system word }
{
    match word {
        0x0000_0073 => Some(Instr::Ecall),
        0x0010_0073 => Some(Instr::Ebreak),
        _ => None,
    }
}
