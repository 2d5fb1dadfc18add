ghost use Rattle.std.specs.Prelude.{◌≡◌, ◌<◌, ◌^◌};
ghost use Rattle.rv_code.specs.Range.{IsRegister, IsImmediate, IsUpperImmediate, IsShiftCount, IsBranchOffset, IsJumpOffset};
ghost use Rattle.rv_code.specs.Format.{r_type, i_type, shift_type, s_type, b_type, u_type, j_type};

use crate::immediates::{Immediate, ShiftCount, UpperImmediate};
use crate::offsets::{BranchOffset, JumpOffset};
use crate::registers::Register;

// The words of the formats, from bit 31 down.

pub(crate) fn r_type(
    funct7: u32,
    rs2: Register,
    rs1: Register,
    funct3: u32,
    rd: Register,
    opcode: u32,
) -> u32
    requires seven { funct7 < 2 ^ 7 }
    requires three { funct3 < 2 ^ 3 }
    requires code { opcode < 2 ^ 7 }
    ensures word { result ≡ r_type funct7 rs2 rs1 funct3 rd opcode }
    ensures rs2_range { IsRegister rs2 }
    ensures rs1_range { IsRegister rs1 }
    ensures rd_range { IsRegister rd }
{
    (funct7 << 25)
        + (rs2.number() << 20)
        + (rs1.number() << 15)
        + (funct3 << 12)
        + (rd.number() << 7)
        + opcode
}

pub(crate) fn i_type(imm: Immediate, rs1: Register, funct3: u32, rd: Register, opcode: u32) -> u32
    requires three { funct3 < 2 ^ 3 }
    requires code { opcode < 2 ^ 7 }
    ensures word { result ≡ i_type imm rs1 funct3 rd opcode }
    ensures imm_range { IsImmediate imm }
    ensures rs1_range { IsRegister rs1 }
    ensures rd_range { IsRegister rd }
{
    (imm.bits() << 20) + (rs1.number() << 15) + (funct3 << 12) + (rd.number() << 7) + opcode
}

pub(crate) fn shift_type(
    funct7: u32,
    imm: ShiftCount,
    rs1: Register,
    funct3: u32,
    rd: Register,
    opcode: u32,
) -> u32
    requires seven { funct7 < 2 ^ 7 }
    requires three { funct3 < 2 ^ 3 }
    requires code { opcode < 2 ^ 7 }
    ensures word { result ≡ shift_type funct7 imm rs1 funct3 rd opcode }
    ensures imm_range { IsShiftCount imm }
    ensures rs1_range { IsRegister rs1 }
    ensures rd_range { IsRegister rd }
{
    (funct7 << 25)
        + (imm.bits() << 20)
        + (rs1.number() << 15)
        + (funct3 << 12)
        + (rd.number() << 7)
        + opcode
}

pub(crate) fn s_type(imm: Immediate, rs2: Register, rs1: Register, funct3: u32, opcode: u32) -> u32
    requires three { funct3 < 2 ^ 3 }
    requires code { opcode < 2 ^ 7 }
    ensures word { result ≡ s_type imm rs2 rs1 funct3 opcode }
    ensures imm_range { IsImmediate imm }
    ensures rs2_range { IsRegister rs2 }
    ensures rs1_range { IsRegister rs1 }
{
    let bits = imm.bits();
    ((bits >> 5) << 25)
        + (rs2.number() << 20)
        + (rs1.number() << 15)
        + (funct3 << 12)
        + ((bits & 0x1f) << 7)
        + opcode
}

pub(crate) fn b_type(
    imm: BranchOffset,
    rs2: Register,
    rs1: Register,
    funct3: u32,
    opcode: u32,
) -> u32
    requires three { funct3 < 2 ^ 3 }
    requires code { opcode < 2 ^ 7 }
    ensures word { result ≡ b_type imm rs2 rs1 funct3 opcode }
    ensures imm_range { IsBranchOffset imm }
    ensures rs2_range { IsRegister rs2 }
    ensures rs1_range { IsRegister rs1 }
{
    let bits = imm.bits();
    let high = ((bits >> 12) << 31) + ((bits >> 5 & 0x3f) << 25);
    let low = ((bits >> 1 & 0xf) << 8) + ((bits >> 11 & 1) << 7);
    high + (rs2.number() << 20) + (rs1.number() << 15) + (funct3 << 12) + low + opcode
}

pub(crate) fn u_type(imm: UpperImmediate, rd: Register, opcode: u32) -> u32
    requires { opcode < 2 ^ 7 }
    ensures word { result ≡ u_type imm rd opcode }
    ensures imm_range { IsUpperImmediate imm }
    ensures rd_range { IsRegister rd }
{
    (imm.bits() << 12) + (rd.number() << 7) + opcode
}

pub(crate) fn j_type(imm: JumpOffset, rd: Register, opcode: u32) -> u32
    requires { opcode < 2 ^ 7 }
    ensures word { result ≡ j_type imm rd opcode }
    ensures imm_range { IsJumpOffset imm }
    ensures rd_range { IsRegister rd }
{
    let bits = imm.bits();
    let high = ((bits >> 20) << 31) + ((bits >> 1 & 0x3ff) << 21);
    let low = ((bits >> 11 & 1) << 20) + ((bits >> 12 & 0xff) << 12);
    high + low + (rd.number() << 7) + opcode
}
