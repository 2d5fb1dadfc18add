ghost use Rattle.std.specs.Prelude.{◌≡◌, ◌<◌, ◌^◌};
ghost use Rattle.rv_code.specs.Format.{opcode_of, rd_of, funct3_of, rs1_of, rs2_of, funct7_of, i_immediate, shift_count, s_immediate, b_immediate, u_immediate, j_immediate};

use crate::immediates::{Immediate, ShiftCount, UpperImmediate};
use crate::offsets::{BranchOffset, JumpOffset};
use crate::registers::Register;

// The fields of an instruction's word.

pub(crate) fn opcode(word: u32) -> u32
    ensures { result ≡ opcode_of word }
{
    word & 0x7f
}

pub(crate) fn rd(word: u32) -> Register
    ensures { result ≡ rd_of word }
{
    Register::new(word >> 7 & 0x1f)
}

pub(crate) fn funct3(word: u32) -> u32
    ensures { result ≡ funct3_of word }
{
    word >> 12 & 0x7
}

pub(crate) fn rs1(word: u32) -> Register
    ensures { result ≡ rs1_of word }
{
    Register::new(word >> 15 & 0x1f)
}

pub(crate) fn rs2(word: u32) -> Register
    ensures { result ≡ rs2_of word }
{
    Register::new(word >> 20 & 0x1f)
}

pub(crate) fn funct7(word: u32) -> u32
    ensures { result ≡ funct7_of word }
{
    word >> 25
}

pub(crate) fn i_immediate(word: u32) -> Immediate
    ensures { result ≡ i_immediate word }
{
    Immediate::of_bits(word >> 20)
}

pub(crate) fn shift_count(word: u32) -> ShiftCount
    ensures { result ≡ shift_count word }
{
    ShiftCount::of_bits(word >> 20 & 0x1f)
}

pub(crate) fn s_immediate(word: u32) -> Immediate
    ensures { result ≡ s_immediate word }
{
    Immediate::of_bits(((word >> 25) << 5) + (word >> 7 & 0x1f))
}

pub(crate) fn b_immediate(word: u32) -> BranchOffset
    ensures { result ≡ b_immediate word }
{
    let high = ((word >> 31) << 12) + ((word >> 7 & 1) << 11);
    let low = ((word >> 25 & 0x3f) << 5) + ((word >> 8 & 0xf) << 1);
    BranchOffset::of_bits(high + low)
}

pub(crate) fn u_immediate(word: u32) -> UpperImmediate
    ensures { result ≡ u_immediate word }
{
    UpperImmediate::of_bits(word >> 12)
}

pub(crate) fn j_immediate(word: u32) -> JumpOffset
    ensures { result ≡ j_immediate word }
{
    let high = ((word >> 31) << 20) + ((word >> 12 & 0xff) << 12);
    let low = ((word >> 20 & 1) << 11) + ((word >> 21 & 0x3ff) << 1);
    JumpOffset::of_bits(high + low)
}
