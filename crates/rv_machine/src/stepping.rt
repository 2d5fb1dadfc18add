ghost use Rattle.std.specs.Prelude.{◌≡◌, ℕ};
ghost use Rattle.rv_machine.specs.Step.{instruction_at, outcome, machine, answer, regs_after, bytes_after, memory_after};

use crate::execution::execute;
use crate::memory::Memory;
use crate::registers::Regs;
use crate::results::StepResult;
use crate::rows::row_of;
use cap_word::FaultKind;
use rv_code::{Instr, decode};
use stack_image::{CODE_START, Image};

/// Executes one step: the instruction at pc, by the table of the RISC-V unprivileged manual, chapters "RV32I"
/// and "M". The code begins at 0x1000, one word after another. Any image is accepted; the call doesn't
/// allocate.
///
/// The result is Went if the instruction was executed; Call at an ECALL, which leaves pc there; or Fault
/// with pc and the first kind that applies: Misaligned if pc isn't a multiple of 4, Fetch if it isn't in
/// the code, Illegal if the word isn't an instruction, Break at an EBREAK, Misaligned if the address of a
/// load or store isn't a multiple of its size or the target of a taken jump or branch isn't a multiple of
/// 4, Load or Store if a byte isn't readable or writable. A call or a fault changes nothing.
#[tactic(auto, unfolding(crate::specs::Step::outcome, crate::specs::Step::started))]
pub fn step<M: Memory>(image: &Image, memory: &mut M, regs: &mut Regs) -> StepResult
    ensures answer { result ≡ answer (outcome image.now.code (machine regs.old (M.byte_at memory.old) (M.is_writable memory.old))) regs.old }
    ensures registers { regs.new ≡ regs_after (outcome image.now.code (machine regs.old (M.byte_at memory.old) (M.is_writable memory.old))) regs.old }
    ensures bytes { (at : ℕ) → M.byte_at memory.new at ≡ bytes_after (outcome image.now.code (machine regs.old (M.byte_at memory.old) (M.is_writable memory.old))) (M.byte_at memory.old) at }
    ensures writable { (at : ℕ) → M.is_writable memory.new at ≡ M.is_writable memory.old at }
    ensures whole { memory.new ≡ memory_after M.with_byte (outcome image.now.code (machine regs.old (M.byte_at memory.old) (M.is_writable memory.old))) memory.old }
{
    match fetch(image.code.as_slice(), regs.pc) {
        Ok(instr) => execute(row_of(instr, memory, regs), memory, regs),
        Err(kind) => regs.fault(kind),
    }
}

// The instruction at pc, or the fault.
#[tactic(auto, unfolding(crate::specs::Step::instruction_at))]
fn fetch(code: &[u32], pc: u32) -> Result<Instr, FaultKind>
    ensures { result ≡ instruction_at code.now pc }
{
    if pc % 4 != 0 {
        return Err(FaultKind::Misaligned);
    }
    if pc < CODE_START {
        return Err(FaultKind::Fetch);
    }
    match code.get(((pc - CODE_START) / 4) as usize) {
        Some(word) => match decode(*word) {
            Some(instr) => Ok(instr),
            None => Err(FaultKind::Illegal),
        },
        None => Err(FaultKind::Fetch),
    }
}
