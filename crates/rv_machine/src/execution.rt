ghost use Rattle.std.specs.Prelude.{◌≡◌, ℕ};
ghost use Rattle.rv_machine.specs.RowEffect.{row_effect};
ghost use Rattle.rv_machine.specs.Step.{machine, answer, regs_after, bytes_after, memory_after};

use crate::accesses::{store_byte, store_half, store_word};
use crate::memory::Memory;
use crate::registers::Regs;
use crate::results::StepResult;
use crate::rows::Row;

// Executes a row.
#[tactic(auto, unfolding(crate::specs::RowEffect::row_effect, crate::specs::Rows::sets, crate::specs::Rows::passes))]
pub(crate) fn execute<M: Memory>(row: Row, memory: &mut M, regs: &mut Regs) -> StepResult
    ensures answer { result ≡ answer (row_effect row (machine regs.old (M.byte_at memory.old) (M.is_writable memory.old))) regs.old }
    ensures registers { regs.new ≡ regs_after (row_effect row (machine regs.old (M.byte_at memory.old) (M.is_writable memory.old))) regs.old }
    ensures bytes { (at : ℕ) → M.byte_at memory.new at ≡ bytes_after (row_effect row (machine regs.old (M.byte_at memory.old) (M.is_writable memory.old))) (M.byte_at memory.old) at }
    ensures writable { (at : ℕ) → M.is_writable memory.new at ≡ M.is_writable memory.old at }
    ensures whole { memory.new ≡ memory_after M.with_byte (row_effect row (machine regs.old (M.byte_at memory.old) (M.is_writable memory.old))) memory.old }
{
    match row {
        Row::Passes => regs.advance(),
        Row::Sets(rd, value) => regs.set(rd, value),
        Row::Jumps(rd, target) => regs.jump(rd, target),
        Row::Branches(imm) => regs.branch(imm),
        Row::StoresByte(address, value) => store_byte(memory, regs, address, value),
        Row::StoresHalf(address, value) => store_half(memory, regs, address, value),
        Row::StoresWord(address, value) => store_word(memory, regs, address, value),
        Row::Asks(number) => StepResult::Call { number },
        Row::Fails(kind) => regs.fault(kind),
    }
}
