ghost use Rattle.std.specs.Prelude.{◌≡◌, ℕ, List, map, Ok};
ghost use Rattle.rv_code.specs.Decoding.{decoding};
ghost use Rattle.rv_machine.specs.Step.{instruction_at, outcome, machine, answer, regs_after, bytes_after, memory_after};

use crate::execution::execute;
use crate::memory::Memory;
use crate::registers::Regs;
use crate::results::StepResult;
use crate::rows::row_of;
use cap_word::FaultKind;
use rv_code::Instr;
use stack_image::CODE_START;

/// Executes one step, like `step`, over decoded words: if the list is the decoding of some words, the step is that over
/// these words, by the same table and with the same result.
#[tactic(auto, unfolding(crate::specs::Step::outcome, crate::specs::Step::started))]
pub fn step_decoded<M: Memory>(
    code: &[Option<Instr>],
    memory: &mut M,
    regs: &mut Regs,
) -> StepResult
    ensures answer { (words : List ℕ) → code.now ≡ map decoding words →
        result ≡ answer (outcome words (machine regs.old (M.byte_at memory.old) (M.is_writable memory.old))) regs.old }
    ensures registers { (words : List ℕ) → code.now ≡ map decoding words →
        regs.new ≡ regs_after (outcome words (machine regs.old (M.byte_at memory.old) (M.is_writable memory.old))) regs.old }
    ensures bytes { (words : List ℕ) (at : ℕ) → code.now ≡ map decoding words →
        M.byte_at memory.new at ≡ bytes_after (outcome words (machine regs.old (M.byte_at memory.old) (M.is_writable memory.old))) (M.byte_at memory.old) at }
    ensures writable { (at : ℕ) → M.is_writable memory.new at ≡ M.is_writable memory.old at }
    ensures whole { (words : List ℕ) → code.now ≡ map decoding words →
        memory.new ≡ memory_after M.with_byte (outcome words (machine regs.old (M.byte_at memory.old) (M.is_writable memory.old))) memory.old }
{
    match fetch_decoded(code, regs.pc) {
        Ok(instr) => step_of(instr, memory, regs),
        Err(kind) => regs.fault(kind),
    }
}

/// Executes one step, like `step`, of an instruction that the caller has fetched: for all code with this instruction at
/// pc, the step is that over this code, by the same table and with the same result. Nothing is fetched or tested again.
#[tactic(auto, unfolding(crate::specs::Step::outcome, crate::specs::Step::started))]
pub fn step_of<M: Memory>(instr: Instr, memory: &mut M, regs: &mut Regs) -> StepResult
    ensures answer { (words : List ℕ) → instruction_at words regs.old.pc ≡ Ok instr →
        result ≡ answer (outcome words (machine regs.old (M.byte_at memory.old) (M.is_writable memory.old))) regs.old }
    ensures registers { (words : List ℕ) → instruction_at words regs.old.pc ≡ Ok instr →
        regs.new ≡ regs_after (outcome words (machine regs.old (M.byte_at memory.old) (M.is_writable memory.old))) regs.old }
    ensures bytes { (words : List ℕ) (at : ℕ) → instruction_at words regs.old.pc ≡ Ok instr →
        M.byte_at memory.new at ≡ bytes_after (outcome words (machine regs.old (M.byte_at memory.old) (M.is_writable memory.old))) (M.byte_at memory.old) at }
    ensures writable { (at : ℕ) → M.is_writable memory.new at ≡ M.is_writable memory.old at }
    ensures whole { (words : List ℕ) → instruction_at words regs.old.pc ≡ Ok instr →
        memory.new ≡ memory_after M.with_byte (outcome words (machine regs.old (M.byte_at memory.old) (M.is_writable memory.old))) memory.old }
{
    execute(row_of(instr, memory, regs), memory, regs)
}

// The instruction at pc among those of the code's words, or the fault.
#[tactic(auto, unfolding(crate::specs::Step::instruction_at))]
fn fetch_decoded(code: &[Option<Instr>], pc: u32) -> Result<Instr, FaultKind>
    ensures { (words : List ℕ) → code.now ≡ map decoding words → result ≡ instruction_at words pc }
{
    if pc % 4 != 0 {
        return Err(FaultKind::Misaligned);
    }
    if pc < CODE_START {
        return Err(FaultKind::Fetch);
    }
    match code.get(((pc - CODE_START) / 4) as usize) {
        Some(Some(instr)) => Ok(*instr),
        Some(None) => Err(FaultKind::Illegal),
        None => Err(FaultKind::Fetch),
    }
}
