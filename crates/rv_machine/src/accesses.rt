ghost use Rattle.std.specs.Prelude.{◌≡◌, ℕ};
ghost use Rattle.rv_machine.specs.Rows.{byte_loaded, half_loaded, word_loaded, extended, byte_stored, half_stored, word_stored};
ghost use Rattle.rv_machine.specs.Step.{machine, answer, regs_after, bytes_after, memory_after};

use crate::memory::Memory;
use crate::registers::Regs;
use crate::results::StepResult;
use cap_word::{FaultKind, sub};

// The byte loaded from an address, or the fault.

#[tactic(auto, unfolding(crate::specs::Rows::byte_loaded))]
pub(crate) fn load_byte<M: Memory>(memory: &M, address: u32) -> Result<u32, FaultKind>
    ensures { result ≡ byte_loaded (M.byte_at memory.now) address }
{
    match memory.load(address) {
        Some(byte) => Ok(u32::from(byte)),
        None => Err(FaultKind::Load),
    }
}

#[inline(always)]
#[tactic(auto, unfolding(crate::specs::Rows::half_loaded))]
pub(crate) fn load_half<M: Memory>(memory: &M, address: u32) -> Result<u32, FaultKind>
    ensures { result ≡ half_loaded (M.byte_at memory.now) address }
{
    if address % 2 != 0 {
        return Err(FaultKind::Misaligned);
    }
    match memory.load_half(address) {
        Some(half) => Ok(u32::from(half)),
        None => Err(FaultKind::Load),
    }
}

#[tactic(auto, unfolding(crate::specs::Rows::word_loaded))]
pub(crate) fn load_word<M: Memory>(memory: &M, address: u32) -> Result<u32, FaultKind>
    ensures { result ≡ word_loaded (M.byte_at memory.now) address }
{
    if address % 4 != 0 {
        return Err(FaultKind::Misaligned);
    }
    match memory.load_word(address) {
        Some(word) => Ok(word),
        None => Err(FaultKind::Load),
    }
}

// The sign of a loaded byte or half, extended.

#[tactic(auto, unfolding(crate::specs::Rows::extended, cap_word::specs::Word::word_of, cap_word::specs::Word::sub))]
pub(crate) fn extend_byte(loaded: Result<u32, FaultKind>) -> Result<u32, FaultKind>
    ensures { result ≡ extended 8 loaded }
{
    let byte = loaded?;
    Ok(if byte < 128 { byte } else { sub(byte, 256) })
}

#[tactic(auto, unfolding(crate::specs::Rows::extended, cap_word::specs::Word::word_of, cap_word::specs::Word::sub))]
pub(crate) fn extend_half(loaded: Result<u32, FaultKind>) -> Result<u32, FaultKind>
    ensures { result ≡ extended 16 loaded }
{
    let half = loaded?;
    Ok(if half < 32_768 {
        half
    } else {
        sub(half, 65_536)
    })
}

// Stores a byte, and continues with the next instruction.

#[tactic(auto, unfolding(crate::specs::Rows::byte_stored))]
pub(crate) fn store_byte<M: Memory>(
    memory: &mut M,
    regs: &mut Regs,
    address: u32,
    value: u32,
) -> StepResult
    ensures answer { result ≡ answer (byte_stored (machine regs.old (M.byte_at memory.old) (M.is_writable memory.old)) address value) regs.old }
    ensures registers { regs.new ≡ regs_after (byte_stored (machine regs.old (M.byte_at memory.old) (M.is_writable memory.old)) address value) regs.old }
    ensures bytes { (at : ℕ) → M.byte_at memory.new at ≡ bytes_after (byte_stored (machine regs.old (M.byte_at memory.old) (M.is_writable memory.old)) address value) (M.byte_at memory.old) at }
    ensures writable { (at : ℕ) → M.is_writable memory.new at ≡ M.is_writable memory.old at }
    ensures whole { memory.new ≡ memory_after M.with_byte (byte_stored (machine regs.old (M.byte_at memory.old) (M.is_writable memory.old)) address value) memory.old }
{
    if memory.store(address, (value & 0xff) as u8) {
        regs.advance()
    } else {
        regs.fault(FaultKind::Store)
    }
}

#[tactic(auto, unfolding(crate::specs::Rows::half_stored))]
pub(crate) fn store_half<M: Memory>(
    memory: &mut M,
    regs: &mut Regs,
    address: u32,
    value: u32,
) -> StepResult
    ensures answer { result ≡ answer (half_stored (machine regs.old (M.byte_at memory.old) (M.is_writable memory.old)) address value) regs.old }
    ensures registers { regs.new ≡ regs_after (half_stored (machine regs.old (M.byte_at memory.old) (M.is_writable memory.old)) address value) regs.old }
    ensures bytes { (at : ℕ) → M.byte_at memory.new at ≡ bytes_after (half_stored (machine regs.old (M.byte_at memory.old) (M.is_writable memory.old)) address value) (M.byte_at memory.old) at }
    ensures writable { (at : ℕ) → M.is_writable memory.new at ≡ M.is_writable memory.old at }
    ensures whole { memory.new ≡ memory_after M.with_byte (half_stored (machine regs.old (M.byte_at memory.old) (M.is_writable memory.old)) address value) memory.old }
{
    if address % 2 != 0 {
        return regs.fault(FaultKind::Misaligned);
    }
    if memory.store_half(address, (value & 0xffff) as u16) {
        regs.advance()
    } else {
        regs.fault(FaultKind::Store)
    }
}

#[tactic(auto, unfolding(crate::specs::Rows::word_stored))]
pub(crate) fn store_word<M: Memory>(
    memory: &mut M,
    regs: &mut Regs,
    address: u32,
    value: u32,
) -> StepResult
    ensures answer { result ≡ answer (word_stored (machine regs.old (M.byte_at memory.old) (M.is_writable memory.old)) address value) regs.old }
    ensures registers { regs.new ≡ regs_after (word_stored (machine regs.old (M.byte_at memory.old) (M.is_writable memory.old)) address value) regs.old }
    ensures bytes { (at : ℕ) → M.byte_at memory.new at ≡ bytes_after (word_stored (machine regs.old (M.byte_at memory.old) (M.is_writable memory.old)) address value) (M.byte_at memory.old) at }
    ensures writable { (at : ℕ) → M.is_writable memory.new at ≡ M.is_writable memory.old at }
    ensures whole { memory.new ≡ memory_after M.with_byte (word_stored (machine regs.old (M.byte_at memory.old) (M.is_writable memory.old)) address value) memory.old }
{
    if address % 4 != 0 {
        return regs.fault(FaultKind::Misaligned);
    }
    if memory.store_word(address, value) {
        regs.advance()
    } else {
        regs.fault(FaultKind::Store)
    }
}
