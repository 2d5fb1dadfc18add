ghost use Rattle.std.specs.Prelude.{◌≡◌, ℕ, Bool, true, Option};
ghost use Rattle.cap_word.specs.Word as word;
ghost use Rattle.rv_machine.specs.Registers as file;
ghost use Rattle.rv_machine.specs.Rows.{jumps, branches};
ghost use Rattle.rv_machine.specs.Step.{machine, answer, regs_after};
ghost use Rattle.rv_machine.specs.declared.results.StepResult.TheVariants.{Went, Fault};

use crate::registers::Regs;
use crate::results::StepResult;
use crate::words::word;
use cap_word::{FaultKind, add};
use rv_code::{BranchOffset, Immediate, Register};

// The effects that the rows of the table share. Those on registers hold for any memory, which they leave
// unchanged.
impl Regs {
    /// Returns the value of a register; register 0 reads as 0.
    pub fn read(&self, register: Register) -> u32
        ensures { result ≡ file.read self.now.x register }
    {
        match register.number() {
            0 => 0,
            number => self.x[number as usize],
        }
    }

    /// Sets a register; a write to register 0 has no effect.
    pub fn write(&mut self, register: Register, value: u32)
        ensures { self.new ≡ record self.old { x = file.write self.old.x register value } }
    {
        let number = register.number();
        if number != 0 {
            self.x[number as usize] = value;
        }
    }

    // The address of a load or store, and the target of JALR before its bit 0 is cleared.
    pub(crate) fn address(&self, rs1: Register, imm: Immediate) -> u32
        ensures { result ≡ word.add (file.read self.now.x rs1) (word.word_of imm) }
    {
        add(self.read(rs1), word(imm.value()))
    }

    // The address at an offset from the instruction.
    pub(crate) fn relative(&self, offset: i32) -> u32
        ensures { result ≡ word.add self.now.pc (word.word_of offset) }
    {
        add(self.pc, word(offset))
    }

    pub(crate) fn fault(&self, kind: FaultKind) -> StepResult
        ensures { result ≡ Fault self.now.pc kind }
    {
        StepResult::Fault { pc: self.pc, kind }
    }

    // Continues with the next instruction.
    pub(crate) fn advance(&mut self) -> StepResult
        ensures answer { result ≡ Went }
        ensures registers { self.new ≡ record self.old { pc = word.add self.old.pc 4 } }
    {
        self.pc = add(self.pc, 4);
        StepResult::Went
    }

    // Sets a register.
    pub(crate) fn set(&mut self, rd: Register, value: u32) -> StepResult
        ensures answer { result ≡ Went }
        ensures registers { self.new ≡ record { pc = word.add self.old.pc 4; x = file.write self.old.x rd value } }
    {
        self.write(rd, value);
        self.advance()
    }

    // A jump, which sets a register to the next instruction's address.
    #[tactic(auto, unfolding(crate::specs::Rows::jumps))]
    pub(crate) fn jump(&mut self, rd: Register, target: u32) -> StepResult
        ensures answer { (bytes : ℕ → Option ℕ) (writable : ℕ → Bool) → result ≡ answer (jumps (machine self.old bytes writable) rd target) self.old }
        ensures registers { (bytes : ℕ → Option ℕ) (writable : ℕ → Bool) → self.new ≡ regs_after (jumps (machine self.old bytes writable) rd target) self.old }
    {
        if target % 4 != 0 {
            return self.fault(FaultKind::Misaligned);
        }
        let next = add(self.pc, 4);
        self.write(rd, next);
        self.pc = target;
        StepResult::Went
    }

    // A branch that is taken.
    #[tactic(auto, unfolding(crate::specs::Rows::branches))]
    pub(crate) fn branch(&mut self, imm: BranchOffset) -> StepResult
        ensures answer { (bytes : ℕ → Option ℕ) (writable : ℕ → Bool) → result ≡ answer (branches (machine self.old bytes writable) imm true) self.old }
        ensures registers { (bytes : ℕ → Option ℕ) (writable : ℕ → Bool) → self.new ≡ regs_after (branches (machine self.old bytes writable) imm true) self.old }
    {
        let target = self.relative(imm.value());
        if target % 4 != 0 {
            return self.fault(FaultKind::Misaligned);
        }
        self.pc = target;
        StepResult::Went
    }
}
