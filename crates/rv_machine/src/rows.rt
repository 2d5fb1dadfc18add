ghost use Rattle.std.specs.Prelude.{◌≡◌};
ghost use Rattle.rv_machine.specs.Effect.{effect};
ghost use Rattle.rv_machine.specs.RowEffect.{row_effect};
ghost use Rattle.rv_machine.specs.Rows.{branches, loads};
ghost use Rattle.rv_machine.specs.Step.{machine};

use crate::accesses::{extend_byte, extend_half, load_byte, load_half, load_word};
use crate::memory::Memory;
use crate::registers::Regs;
use crate::words::{even, is_below, upper, word};
use cap_word::{
    FaultKind, add, div, divu, mul, mulh, mulhsu, mulhu, rem, remu, sll, slt, sltu, sra, srl, sub,
};
use rv_code::{BranchOffset, Instr, Register};

// The effect of an instruction, in the few forms of the table's rows, with the values that it reads. Each field except
// a fault's kind has 32 bits, so a value fits in one register of the host processor.
#[derive(Drop)]
pub(crate) enum Row {
    // Continues with the next instruction.
    Passes,
    // A register is set.
    Sets(Register, u32),
    // A jump to an address, which sets a register to the next instruction's address.
    Jumps(Register, u32),
    // A branch that is taken.
    Branches(BranchOffset),
    // The low byte of a value is stored at an address.
    StoresByte(u32, u32),
    // The low half of a value is stored at an address.
    StoresHalf(u32, u32),
    // A value is stored at an address.
    StoresWord(u32, u32),
    // Asks for the call with this number.
    Asks(u32),
    // The instruction can't be executed.
    Fails(FaultKind),
}

// The row of a branch, which is taken if the test holds.
#[tactic(auto, unfolding(crate::specs::RowEffect::row_effect, crate::specs::Rows::branches, crate::specs::Rows::passes))]
fn branch_row<M: Memory>(memory: &M, regs: &Regs, imm: BranchOffset, taken: bool) -> Row
    ensures { row_effect result (machine regs.now (M.byte_at memory.now) (M.is_writable memory.now)) ≡ branches (machine regs.now (M.byte_at memory.now) (M.is_writable memory.now)) imm taken }
{
    if taken {
        Row::Branches(imm)
    } else {
        Row::Passes
    }
}

// The row of a load: a register is set to the loaded value.
#[tactic(auto, unfolding(crate::specs::RowEffect::row_effect, crate::specs::Rows::loads, crate::specs::Rows::sets))]
fn load_row<M: Memory>(memory: &M, regs: &Regs, rd: Register, loaded: Result<u32, FaultKind>) -> Row
    ensures { row_effect result (machine regs.now (M.byte_at memory.now) (M.is_writable memory.now)) ≡ loads (machine regs.now (M.byte_at memory.now) (M.is_writable memory.now)) rd loaded }
{
    match loaded {
        Ok(value) => Row::Sets(rd, value),
        Err(kind) => Row::Fails(kind),
    }
}

// The row of the table for an instruction, in the manual's order.
#[tactic(auto, unfolding(crate::specs::Effect::effect, crate::specs::RowEffect::row_effect))]
pub(crate) fn row_of<M: Memory>(instr: Instr, memory: &M, regs: &Regs) -> Row
    ensures { row_effect result (machine regs.now (M.byte_at memory.now) (M.is_writable memory.now)) ≡ effect instr (machine regs.now (M.byte_at memory.now) (M.is_writable memory.now)) }
{
    match instr {
        Instr::Lui { rd, imm } => Row::Sets(rd, upper(imm)),
        Instr::Auipc { rd, imm } => Row::Sets(rd, add(regs.pc, upper(imm))),
        Instr::Jal { rd, imm } => Row::Jumps(rd, regs.relative(imm.value())),
        Instr::Jalr { rd, rs1, imm } => Row::Jumps(rd, even(regs.address(rs1, imm))),
        Instr::Beq { rs1, rs2, imm } => branch_row(
            memory,
            regs,
            imm,
            regs.read(rs1) == regs.read(rs2),
        ),
        Instr::Bne { rs1, rs2, imm } => branch_row(
            memory,
            regs,
            imm,
            regs.read(rs1) != regs.read(rs2),
        ),
        Instr::Blt { rs1, rs2, imm } => branch_row(
            memory,
            regs,
            imm,
            is_below(regs.read(rs1), regs.read(rs2)),
        ),
        Instr::Bge { rs1, rs2, imm } => branch_row(
            memory,
            regs,
            imm,
            !is_below(regs.read(rs1), regs.read(rs2)),
        ),
        Instr::Bltu { rs1, rs2, imm } => branch_row(
            memory,
            regs,
            imm,
            regs.read(rs1) < regs.read(rs2),
        ),
        Instr::Bgeu { rs1, rs2, imm } => branch_row(
            memory,
            regs,
            imm,
            regs.read(rs1) >= regs.read(rs2),
        ),
        Instr::Lb { rd, rs1, imm } => load_row(
            memory,
            regs,
            rd,
            extend_byte(load_byte(memory, regs.address(rs1, imm))),
        ),
        Instr::Lh { rd, rs1, imm } => load_row(
            memory,
            regs,
            rd,
            extend_half(load_half(memory, regs.address(rs1, imm))),
        ),
        Instr::Lw { rd, rs1, imm } => load_row(
            memory,
            regs,
            rd,
            load_word(memory, regs.address(rs1, imm)),
        ),
        Instr::Lbu { rd, rs1, imm } => load_row(
            memory,
            regs,
            rd,
            load_byte(memory, regs.address(rs1, imm)),
        ),
        Instr::Lhu { rd, rs1, imm } => load_row(
            memory,
            regs,
            rd,
            load_half(memory, regs.address(rs1, imm)),
        ),
        Instr::Sb { rs1, rs2, imm } => Row::StoresByte(regs.address(rs1, imm), regs.read(rs2)),
        Instr::Sh { rs1, rs2, imm } => Row::StoresHalf(regs.address(rs1, imm), regs.read(rs2)),
        Instr::Sw { rs1, rs2, imm } => Row::StoresWord(regs.address(rs1, imm), regs.read(rs2)),
        Instr::Addi { rd, rs1, imm } => Row::Sets(rd, add(regs.read(rs1), word(imm.value()))),
        Instr::Slti { rd, rs1, imm } => Row::Sets(rd, slt(regs.read(rs1), word(imm.value()))),
        Instr::Sltiu { rd, rs1, imm } => Row::Sets(rd, sltu(regs.read(rs1), word(imm.value()))),
        Instr::Xori { rd, rs1, imm } => Row::Sets(rd, regs.read(rs1) ^ word(imm.value())),
        Instr::Ori { rd, rs1, imm } => Row::Sets(rd, regs.read(rs1) | word(imm.value())),
        Instr::Andi { rd, rs1, imm } => Row::Sets(rd, regs.read(rs1) & word(imm.value())),
        Instr::Slli { rd, rs1, imm } => Row::Sets(rd, sll(regs.read(rs1), word(imm.value()))),
        Instr::Srli { rd, rs1, imm } => Row::Sets(rd, srl(regs.read(rs1), word(imm.value()))),
        Instr::Srai { rd, rs1, imm } => Row::Sets(rd, sra(regs.read(rs1), word(imm.value()))),
        Instr::Add { rd, rs1, rs2 } => Row::Sets(rd, add(regs.read(rs1), regs.read(rs2))),
        Instr::Sub { rd, rs1, rs2 } => Row::Sets(rd, sub(regs.read(rs1), regs.read(rs2))),
        Instr::Sll { rd, rs1, rs2 } => Row::Sets(rd, sll(regs.read(rs1), regs.read(rs2))),
        Instr::Slt { rd, rs1, rs2 } => Row::Sets(rd, slt(regs.read(rs1), regs.read(rs2))),
        Instr::Sltu { rd, rs1, rs2 } => Row::Sets(rd, sltu(regs.read(rs1), regs.read(rs2))),
        Instr::Xor { rd, rs1, rs2 } => Row::Sets(rd, regs.read(rs1) ^ regs.read(rs2)),
        Instr::Srl { rd, rs1, rs2 } => Row::Sets(rd, srl(regs.read(rs1), regs.read(rs2))),
        Instr::Sra { rd, rs1, rs2 } => Row::Sets(rd, sra(regs.read(rs1), regs.read(rs2))),
        Instr::Or { rd, rs1, rs2 } => Row::Sets(rd, regs.read(rs1) | regs.read(rs2)),
        Instr::And { rd, rs1, rs2 } => Row::Sets(rd, regs.read(rs1) & regs.read(rs2)),
        Instr::Fence { .. } => Row::Passes,
        Instr::Ecall => Row::Asks(regs.read(Register::A7)),
        Instr::Ebreak => Row::Fails(FaultKind::Break),
        Instr::Mul { rd, rs1, rs2 } => Row::Sets(rd, mul(regs.read(rs1), regs.read(rs2))),
        Instr::Mulh { rd, rs1, rs2 } => Row::Sets(rd, mulh(regs.read(rs1), regs.read(rs2))),
        Instr::Mulhsu { rd, rs1, rs2 } => Row::Sets(rd, mulhsu(regs.read(rs1), regs.read(rs2))),
        Instr::Mulhu { rd, rs1, rs2 } => Row::Sets(rd, mulhu(regs.read(rs1), regs.read(rs2))),
        Instr::Div { rd, rs1, rs2 } => Row::Sets(rd, div(regs.read(rs1), regs.read(rs2))),
        Instr::Divu { rd, rs1, rs2 } => Row::Sets(rd, divu(regs.read(rs1), regs.read(rs2))),
        Instr::Rem { rd, rs1, rs2 } => Row::Sets(rd, rem(regs.read(rs1), regs.read(rs2))),
        Instr::Remu { rd, rs1, rs2 } => Row::Sets(rd, remu(regs.read(rs1), regs.read(rs2))),
    }
}
