// Instructions whose numbers may not fit their fields: none if they don't. The calls whose results aren't used
// (`_ranges`) are for the prover alone: their contracts tell the ranges of the operands.

ghost use Rattle.std.specs.Prelude.{◌≡◌, ◌<◌, ◌^◌, ◌-ℤ◌, pos, IfSome, IfNone};
ghost use Rattle.rv_code.specs.Range.{IsImmediate, IsJumpOffset};
ghost use Rattle.rv_code.specs.declared.instructions.Instr.{Instr};
ghost use Rattle.stack_certificate.specs.Fits.{checked};
ghost use Rattle.stack_certificate.specs.Parts as parts;
ghost use Rattle.stack_certificate.specs.Registers.{sp};

use rv_code::{Immediate, Instr, JumpOffset, Register};

// lw rd, offset(base)
pub(crate) fn load_word(rd: Register, base: Register, offset: u32) -> Option<Instr>
    ensures { result ≡ checked (Instr.Lw rd base (pos offset)) }
{
    let _ranges = (rd.number(), base.number());
    match immediate(offset) {
        Some(imm) => Some(Instr::Lw { rd, rs1: base, imm }),
        None => None,
    }
}

// sw source, offset(base)
pub(crate) fn store_word(base: Register, source: Register, offset: u32) -> Option<Instr>
    ensures { result ≡ checked (Instr.Sw base source (pos offset)) }
{
    let _ranges = (base.number(), source.number());
    match immediate(offset) {
        Some(imm) => Some(Instr::Sw {
            rs1: base,
            rs2: source,
            imm,
        }),
        None => None,
    }
}

// addi sp, sp, frame
pub(crate) fn raise_stack(frame: u32) -> Option<Instr>
    ensures { result ≡ checked (Instr.Addi sp sp (pos frame)) }
{
    match immediate(frame) {
        Some(imm) => Some(Instr::Addi {
            rd: Register::SP,
            rs1: Register::SP,
            imm,
        }),
        None => None,
    }
}

// addi sp, sp, -frame
pub(crate) fn lower_stack(frame: u32) -> Option<Instr>
    ensures { result ≡ checked (Instr.Addi sp sp (pos 0 -ℤ pos frame)) }
{
    match negated(frame) {
        Some(imm) => Some(Instr::Addi {
            rd: Register::SP,
            rs1: Register::SP,
            imm,
        }),
        None => None,
    }
}

// A jump from one address to another, which sets a register to the address after it.
pub(crate) fn jump(rd: Register, to: u64, from: u64) -> Option<Instr>
    requires to { to < 2 ^ 60 }
    requires from { from < 2 ^ 60 }
    ensures { result ≡ checked (parts.jump rd to from) }
{
    let _range = rd.number();
    match jump_offset(to, from) {
        Some(imm) => Some(Instr::Jal { rd, imm }),
        None => None,
    }
}

// An immediate of 12 bits, if the value fits it.
fn immediate(value: u32) -> Option<Immediate>
    ensures fits { IfSome result (λ imm. (imm ≡ pos value) × IsImmediate (pos value)) }
    ensures over { IfNone result (¬ (IsImmediate (pos value))) }
{
    if value > 2047 {
        return None;
    }
    Some(Immediate::new(value as i32))
}

// The negated value as an immediate of 12 bits, if it fits.
fn negated(value: u32) -> Option<Immediate>
    ensures fits { IfSome result (λ imm. (imm ≡ pos 0 -ℤ pos value) × IsImmediate (pos 0 -ℤ pos value)) }
    ensures over { IfNone result (¬ (IsImmediate (pos 0 -ℤ pos value))) }
{
    if value > 2048 {
        return None;
    }
    let value = value as i32;
    Some(Immediate::new(0 - value))
}

// The offset of a jump from one address to another, if it fits.
fn jump_offset(to: u64, from: u64) -> Option<JumpOffset>
    requires to { to < 2 ^ 60 }
    requires from { from < 2 ^ 60 }
    ensures fits { IfSome result (λ imm. (imm ≡ pos to -ℤ pos from) × IsJumpOffset (pos to -ℤ pos from)) }
    ensures over { IfNone result (¬ (IsJumpOffset (pos to -ℤ pos from))) }
{
    offset_of(distance(to, from))
}

// The offset of a jump by this number of bytes, if it fits.
fn offset_of(value: i64) -> Option<JumpOffset>
    ensures fits { IfSome result (λ imm. (imm ≡ value) × IsJumpOffset value) }
    ensures over { IfNone result (¬ (IsJumpOffset value)) }
{
    if value < -1048576 || value > 1048575 {
        return None;
    }
    let value = value as i32;
    if value.cast_unsigned() % 2 != 0 {
        return None;
    }
    Some(JumpOffset::new(value))
}

// The distance from one address up to another.
fn distance(to: u64, from: u64) -> i64
    requires to { to < 2 ^ 60 }
    requires from { from < 2 ^ 60 }
    ensures { result ≡ pos to -ℤ pos from }
{
    to as i64 - from as i64
}
